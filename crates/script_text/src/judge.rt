//! The first bad line of a text, and what is wrong there: one fold over the lines.

ghost use Rattle.std.specs.Prelude.{◌≡◌, ◌≤◌, ◌+◌, [], length, map, None, IfOk, IfSome};
ghost use Rattle.script_lines.specs.NameLimits.{AreKnown};
ghost use Rattle.script_text.specs.Grammar.{IsWhole};
ghost use Rattle.script_text.specs.Judging.{nest_in, IsReading, IsBadAt};
ghost use Rattle.script_text.specs.Reasons.{stands, has_line, form_reason, code_reason, line_reason};
ghost use Rattle.script_text.specs.Refusals.{IsFirstBad};

use crate::builder::Builder;
use crate::fault::{Reason, Refusal};
use crate::head::head_reason;
use crate::reading::{Reading, head_line};
use script_lines::{
    Command, NameTables, Names, all_are_new, all_are_told, all_have_form, command_at,
    command_places, has_empty_word, is_printable, line_of_parts, split_at, word_at,
};
use statement_table::Place;
use std::alloc::{AllocError, Global};

/// Whether there is such a line: not each call has a statement.
fn has_line(command: Command) -> bool
    ensures { result ≡ has_line command }
{
    line_of_parts(command, &[]).is_some()
}

/// Whether such a line can stand there, but for limits.
fn stands(builder: &Builder, command: Command) -> bool
    ensures { result ≡ stands (nest_in builder.now) command }
{
    match command {
        Command::Procedure => !builder.is_open() && !builder.has_thread(),
        Command::Thread => !builder.is_open(),
        Command::Else => builder.is_if_open(),
        Command::Return => builder.is_in_procedure(),
        Command::Default => builder.is_in_procedure(),
        _ => builder.is_open(),
    }
}

/// What is wrong with the words of a line that stand in these places.
fn form_reason(tables: &NameTables, known: &Names, places: &[Place], words: &[&[u8]]) -> Reason
    requires known { AreKnown known.now }
    requires few { length places.now ≤ 9 }
    ensures { result ≡ form_reason known.now places.now (map (λ w. w.now) words.now) }
{
    if !all_have_form(places, words) {
        return Reason::Operand;
    }
    if !all_are_told(tables, known, places, words) {
        return Reason::Name;
    }
    if !all_are_new(known, places, words) {
        return Reason::Repeated;
    }
    Reason::Limit
}

/// What is wrong with a line of procedures and threads that isn't good.
fn code_reason(tables: &NameTables, reading: &Reading, words: &[&[u8]]) -> Reason
    requires { AreKnown reading.now.known }
    ensures { result ≡ code_reason reading.now.known (nest_in reading.now.builder) (map (λ w. w.now) words.now) }
{
    if has_empty_word(words) {
        return Reason::Words;
    }
    let Some(command) = command_at(word_at(words, 0), words.len()) else {
        return Reason::Words;
    };
    let places = command_places(command);
    if !has_line(command) || !stands(&reading.builder, command) || words.len() != places.len() + 1 {
        return Reason::Words;
    }
    form_reason(tables, &reading.known, &places, words)
}

/// What is wrong with a line that isn't good.
fn line_reason(
    alloc: Global,
    tables: &NameTables,
    reading: &Reading,
    before: usize,
    text: &[u8],
) -> Result<Reason, AllocError>
    requires { AreKnown reading.now.known }
    ensures { IfOk result (λ reason. reason ≡ line_reason before reading.now.known (nest_in reading.now.builder) text.now) }
{
    if !is_printable(text) {
        return Ok(Reason::Bytes);
    }
    let words = split_at(alloc, text, b' ')?;
    match head_line(before) {
        Some(head) => Ok(head_reason(head, &words)),
        None => Ok(code_reason(tables, reading, &words)),
    }
}

/// The first of these lines with which no script begins: how many stand before it, and what is wrong there.
fn first_bad(
    reading: &mut Reading,
    alloc: Global,
    tables: &NameTables,
    texts: &[&[u8]],
) -> Result<Option<(usize, Reason)>, AllocError>
    requires { IsReading [] reading.old }
    ensures bad { IfOk result (λ found. IfSome found (λ x. IsBadAt (map (λ w. w.now) texts.now) x.0 x.1)) }
    ensures good { IfOk result (λ found. found ≡ None → IsReading (map (λ w. w.now) texts.now) reading.new) }
{
    let mut words = Vec::new(alloc);
    for (before, text) in texts.iter().enumerate() {
        let reason = line_reason(alloc, tables, reading, before, text)?;
        if !reading.take_next(alloc, tables, &mut words, before, text)? {
            return Ok(Some((before, reason)));
        }
    }
    Ok(None)
}

/// The refusal of the line behind so many others.
fn refusal_at(before: usize, reason: Reason) -> Refusal
    requires { before ≤ 1048576 }
    ensures { (result.line ≡ before + 1) × (result.reason ≡ reason) }
{
    Refusal {
        line: before as u32 + 1,
        reason,
    }
}

/// The first bad line of a text that isn't a script's, however long, and what is wrong there.
pub fn first_refusal(
    alloc: Global,
    tables: &NameTables,
    bytes: &[u8],
) -> Result<Refusal, AllocError>
    requires short { length bytes.now ≤ 1048576 }
    requires other { IsWhole bytes.now → ⊥ }
    ensures { IfOk result (IsFirstBad bytes.now) }
{
    let mut texts = split_at(alloc, bytes, b'\n')?;
    let Some(rest) = texts.pop() else {
        return Ok(refusal_at(0, Reason::End));
    };
    let mut reading = Reading::new(alloc);
    if let Some((before, reason)) = first_bad(&mut reading, alloc, tables, &texts)? {
        return Ok(refusal_at(before, reason));
    }
    if rest.is_empty() {
        Ok(refusal_at(texts.len(), Reason::End))
    } else {
        Ok(refusal_at(texts.len(), Reason::Bytes))
    }
}
