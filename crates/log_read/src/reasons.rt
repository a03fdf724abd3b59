//! What is wrong with a bad line of a log: the first reason that applies where it stands.

ghost use Rattle.std.specs.Prelude.{◌≡◌, ◌≤◌, ◌+◌, length, map, IfOk};
ghost use Rattle.script_lines.specs.Known.{known_of};
ghost use Rattle.script_lines.specs.NameLimits.{AreKnown};
ghost use Rattle.answer_table.specs.Answers.{answer_named};
ghost use Rattle.script_lines.specs.LineReading.{word_at};
ghost use Rattle.log_read.specs.Reasons.{form_reason, is_entry_form, is_entry_told, answer_reason, entry_reason, end_reason, entries_reason, waits_reason, spent_reason, counts_reason, extras_reason, first_reason, row_reason, words_reason, line_reason};

use crate::forms::{all_are_told, all_have_fields, are_counts, are_digits};
use crate::phase::Phase;
use answer_table::{answer_form, answer_named};
use call_fields::Field;
use call_table::{call_form, call_named};
use log_text::{End, Words};
use script_lines::{has_empty_word, is_decimal, is_printable, split_at, word_at};
use script_text::Reason;
use std::alloc::{AllocError, Global};

/// A word has the wrong form; a name isn't known; else a number is beyond its limit.
fn form_reason(formed: bool, told: bool) -> Reason
    ensures { result ≡ form_reason formed told }
{
    if !formed {
        Reason::Operand
    } else if told {
        Reason::Limit
    } else {
        Reason::Name
    }
}

/// Whether the words of an entry with these fields have their forms.
#[tactic(auto, unfolding(crate::specs::Reasons::is_entry_form))]
fn is_entry_form(words: &Words, called: &[Field], answered: &[Field], line: &[&[u8]]) -> bool
    requires called { length called.now ≤ 9 }
    requires answered { length answered.now ≤ 9 }
    ensures { result ≡ is_entry_form called.now answered.now (map (λ w. w.now) line.now) }
{
    is_decimal(word_at(line, 0))
        && all_have_fields(words, called, line, 2)
        && word_at(line, called.len() + 2) == b"=".as_slice()
        && all_have_fields(words, answered, line, called.len() + 4)
}

/// Whether they name nothing unknown.
#[tactic(auto, unfolding(crate::specs::Reasons::is_entry_told))]
fn is_entry_told(words: &Words, called: &[Field], answered: &[Field], line: &[&[u8]]) -> bool
    requires named { AreKnown (known_of words.now.script.now) }
    requires called { length called.now ≤ 9 }
    requires answered { length answered.now ≤ 9 }
    ensures { result ≡ is_entry_told words.now.script.now called.now answered.now (map (λ w. w.now) line.now) }
{
    all_are_told(words, called, line, 2) && all_are_told(words, answered, line, called.len() + 4)
}

/// What is wrong with an entry whose call has these fields.
fn answer_reason(words: &Words, called: &[Field], line: &[&[u8]]) -> Reason
    requires named { AreKnown (known_of words.now.script.now) }
    requires called { length called.now ≤ 9 }
    ensures { result ≡ answer_reason words.now.script.now called.now (map (λ w. w.now) line.now) (answer_named (word_at (map (λ w. w.now) line.now) (length called.now + 3))) }
{
    let Some(answer) = answer_named(word_at(line, called.len() + 3)) else {
        return Reason::Operand;
    };
    let answered = answer_form(answer).fields;
    if line.len() != called.len() + answered.len() + 4 {
        return Reason::Words;
    }
    form_reason(
        is_entry_form(words, called, answered, line),
        is_entry_told(words, called, answered, line),
    )
}

/// What is wrong with an entry.
fn entry_reason(words: &Words, line: &[&[u8]]) -> Reason
    requires named { AreKnown (known_of words.now.script.now) }
    ensures { result ≡ entry_reason words.now.script.now (map (λ w. w.now) line.now) }
{
    if line.len() < 4 {
        return Reason::Words;
    }
    let Some(call) = call_named(word_at(line, 1)) else {
        return Reason::Operand;
    };
    let called = call_form(call).fields;
    if line.len() < called.len() + 4 {
        return Reason::Words;
    }
    answer_reason(words, called, line)
}

/// What is wrong with the line of the end.
fn end_reason(line: &[&[u8]]) -> Reason
    ensures { result ≡ end_reason (map (λ w. w.now) line.now) }
{
    if line.len() == 2 {
        Reason::Operand
    } else {
        Reason::Words
    }
}

/// What is wrong with an entry, or with the line of the end.
fn entries_reason(words: &Words, line: &[&[u8]]) -> Reason
    requires named { AreKnown (known_of words.now.script.now) }
    ensures { result ≡ entries_reason words.now.script.now (map (λ w. w.now) line.now) }
{
    let first = word_at(line, 0);
    if first == b"end".as_slice() {
        return end_reason(line);
    }
    if !are_digits(first) {
        return Reason::Words;
    }
    entry_reason(words, line)
}

/// What is wrong with `waits T CALL`.
fn waits_reason(words: &Words, line: &[&[u8]]) -> Reason
    requires named { AreKnown (known_of words.now.script.now) }
    ensures { result ≡ waits_reason words.now.script.now (map (λ w. w.now) line.now) }
{
    if line.len() < 3 {
        return Reason::Words;
    }
    let Some(call) = call_named(word_at(line, 2)) else {
        return Reason::Operand;
    };
    let fields = call_form(call).fields;
    if line.len() != fields.len() + 3 {
        return Reason::Words;
    }
    form_reason(
        is_decimal(word_at(line, 1)) && all_have_fields(words, fields, line, 3),
        all_are_told(words, fields, line, 3),
    )
}

/// What is wrong with `spent T`.
fn spent_reason(line: &[&[u8]]) -> Reason
    ensures { result ≡ spent_reason (map (λ w. w.now) line.now) }
{
    if line.len() != 2 {
        return Reason::Words;
    }
    form_reason(is_decimal(word_at(line, 1)), true)
}

/// What is wrong with the counts of sends.
fn counts_reason(line: &[&[u8]]) -> Reason
    ensures { result ≡ counts_reason (map (λ w. w.now) line.now) }
{
    if word_at(line, 0) != b"sends".as_slice() || line.len() != 15 {
        return Reason::Words;
    }
    form_reason(are_counts(line), true)
}

/// What is wrong with an extra line after this end, or with the counts of sends.
fn extras_reason(words: &Words, end: End, line: &[&[u8]]) -> Reason
    requires named { AreKnown (known_of words.now.script.now) }
    ensures { result ≡ extras_reason words.now.script.now end (map (λ w. w.now) line.now) }
{
    let first = word_at(line, 0);
    match end {
        End::Stuck => {
            if first == b"waits".as_slice() {
                waits_reason(words, line)
            } else {
                counts_reason(line)
            }
        }
        End::Spent => {
            if first == b"spent".as_slice() {
                spent_reason(line)
            } else {
                counts_reason(line)
            }
        }
        End::Done | End::Cut => counts_reason(line),
    }
}

/// What is wrong with the first line.
fn first_reason(line: &[&[u8]]) -> Reason
    ensures { result ≡ first_reason (map (λ w. w.now) line.now) }
{
    if word_at(line, 0) == b"log".as_slice() && line.len() == 2 {
        Reason::Operand
    } else {
        Reason::Words
    }
}

/// What is wrong with a row of a frame.
fn row_reason(line: &[&[u8]]) -> Reason
    ensures { result ≡ row_reason (map (λ w. w.now) line.now) }
{
    if line.len() == 1 {
        Reason::Operand
    } else {
        Reason::Words
    }
}

/// What is wrong with the words of a line.
fn words_reason(words: &Words, phase: Phase, line: &[&[u8]]) -> Reason
    requires named { AreKnown (known_of words.now.script.now) }
    ensures { result ≡ words_reason words.now.script.now phase (map (λ w. w.now) line.now) }
{
    match phase {
        Phase::First => first_reason(line),
        Phase::Entries => entries_reason(words, line),
        Phase::Rows(_) => row_reason(line),
        Phase::Extras(end) => extras_reason(words, end, line),
        Phase::Over => Reason::Words,
    }
}

/// What is wrong with a line that isn't good where this may stand.
pub fn line_reason(
    alloc: Global,
    words: &Words,
    phase: Phase,
    text: &[u8],
) -> Result<Reason, AllocError>
    requires named { AreKnown (known_of words.now.script.now) }
    ensures { IfOk result (λ reason. reason ≡ line_reason words.now.script.now phase text.now) }
{
    if !is_printable(text) {
        return Ok(Reason::Bytes);
    }
    let line = split_at(alloc, text, b' ')?;
    if has_empty_word(&line) {
        return Ok(Reason::Words);
    }
    Ok(words_reason(words, phase, &line))
}
