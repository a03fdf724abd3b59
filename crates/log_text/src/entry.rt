//! The line of an entry.
#![tactic(auto, using(user_io::proofs::Texts::two))]

ghost use Rattle.std.specs.Prelude.{◌∷◌, OnOk};
ghost use Rattle.std.specs.List.{flat_map};
ghost use Rattle.user_io.specs.Text.{Adds};
ghost use Rattle.log_text.specs.Entries.{counted, signed_text, code_text, value_text, call_text, answer_text, entry_line};

use crate::frequent::{prepend_answer, prepend_call, prepend_entry};
use crate::line::Line;
use crate::words::Words;
use answer_table::{answer_form, split_answer};
use call_fields::{Value, cause_word, code_word, source_word};
use call_table::{call_form, split_call};
use std::alloc::AllocError;
use user_io::text::{put_number, put_operand, put_signed, put_text};
use user_model::{Answer, Call, Entry};
use win_num::Code;

/// Adds a word, a blank and a number.
pub fn put_counted(out: &mut Vec<u8>, word: &[u8], number: u64) -> Result<(), AllocError>
    ensures { OnOk result (Adds out.old.items out.new.items (counted word.now number)) }
{
    put_text(out, word)?;
    put_operand(out, number)?;
    Ok(())
}

/// Adds a blank and a word.
fn put_word(out: &mut Vec<u8>, word: &[u8]) -> Result<(), AllocError>
    ensures { OnOk result (Adds out.old.items out.new.items (32 ∷ word.now)) }
{
    out.push(b' ')?;
    put_text(out, word)?;
    Ok(())
}

/// Adds a blank and a place in pixels.
fn put_pixel(out: &mut Vec<u8>, pixel: i32) -> Result<(), AllocError>
    ensures { OnOk result (Adds out.old.items out.new.items (signed_text pixel)) }
{
    put_signed(out, i64::from(pixel))
}

/// Adds a blank and the code of a refusal, by its word where it has one.
fn put_code(out: &mut Vec<u8>, code: Code) -> Result<(), AllocError>
    ensures { OnOk result (Adds out.old.items out.new.items (code_text code)) }
{
    match code_word(code) {
        Some(word) => put_word(out, word),
        None => put_operand(out, u64::from(code.number())),
    }
}

/// Adds a blank and the value of a field, by its kind.
fn put_value(out: &mut Vec<u8>, words: &Words, value: Value) -> Result<(), AllocError>
    ensures { OnOk result (Adds out.old.items out.new.items (value_text words.now.script.now value)) }
{
    match value {
        Value::Number(number) => put_operand(out, number),
        Value::Message(number) => words.put_message(out, number),
        Value::Signed(number) => put_signed(out, number),
        Value::Name(name) => words.put_name(out, name),
        Value::Procedure(procedure) => words.put_procedure(out, procedure),
        Value::Window(window) => put_operand(out, u64::from(window.0)),
        Value::Send(send) => put_operand(out, u64::from(send.0)),
        Value::Thread(thread) => put_operand(out, u64::from(thread.0)),
        Value::Count(number) => put_operand(out, u64::from(number)),
        Value::ShortMessage(number) => words.put_message(out, u64::from(number)),
        Value::Pixel(number) => put_pixel(out, number),
        Value::Byte(kind) => put_operand(out, u64::from(kind)),
        Value::Source(source) => put_word(out, source_word(source)),
        Value::Cause(cause) => put_word(out, cause_word(cause)),
        Value::Code(code) => put_code(out, code),
    }
}

/// Adds the values of fields, each after a blank.
fn put_values(out: &mut Vec<u8>, words: &Words, values: &[Value]) -> Result<(), AllocError>
    ensures { OnOk result (Adds out.old.items out.new.items (flat_map (value_text words.now.script.now) values.now)) }
{
    for value in values {
        put_value(out, words, *value)?;
    }
    Ok(())
}

/// Adds any call, by the table of calls: its word and the values of its fields.
fn put_listed_call(out: &mut Vec<u8>, words: &Words, call: Call) -> Result<(), AllocError>
    ensures { OnOk result (Adds out.old.items out.new.items (call_text words.now.script.now call)) }
{
    let split = split_call(call);
    put_text(out, call_form(split.name).word)?;
    put_values(out, words, &split.values)?;
    Ok(())
}

/// Adds a call: its word and the values of its fields.
pub fn put_call(out: &mut Vec<u8>, words: &Words, call: Call) -> Result<(), AllocError>
    ensures { OnOk result (Adds out.old.items out.new.items (call_text words.now.script.now call)) }
{
    let mut line = Line::new();
    if prepend_call(&mut line, words, call) {
        return put_text(out, line.bytes());
    }
    put_listed_call(out, words, call)
}

/// Adds any answer, by the table of answers: its word and the values of its fields.
fn put_listed_answer(out: &mut Vec<u8>, words: &Words, answer: Answer) -> Result<(), AllocError>
    ensures { OnOk result (Adds out.old.items out.new.items (answer_text words.now.script.now answer)) }
{
    let split = split_answer(answer);
    put_text(out, answer_form(split.name).word)?;
    put_values(out, words, &split.values)?;
    Ok(())
}

/// Adds an answer: its word and the values of its fields.
pub fn put_answer(out: &mut Vec<u8>, words: &Words, answer: Answer) -> Result<(), AllocError>
    ensures { OnOk result (Adds out.old.items out.new.items (answer_text words.now.script.now answer)) }
{
    let mut line = Line::new();
    if prepend_answer(&mut line, words, answer) {
        return put_text(out, line.bytes());
    }
    put_listed_answer(out, words, answer)
}

/// Adds the line of any entry, piece by piece.
fn put_any_entry(out: &mut Vec<u8>, words: &Words, entry: Entry) -> Result<(), AllocError>
    ensures { OnOk result (Adds out.old.items out.new.items (entry_line words.now.script.now entry)) }
{
    put_number(out, u64::from(entry.who.0))?;
    out.push(b' ')?;
    put_call(out, words, entry.call)?;
    put_text(out, b" = ")?;
    put_answer(out, words, entry.answer)?;
    out.push(b'\n')?;
    Ok(())
}

/// Adds the line of an entry. A frequent line is made whole before it is added.
pub fn put_entry(out: &mut Vec<u8>, words: &Words, entry: Entry) -> Result<(), AllocError>
    ensures { OnOk result (Adds out.old.items out.new.items (entry_line words.now.script.now entry)) }
{
    let mut line = Line::new();
    if prepend_entry(&mut line, words, entry) {
        return put_text(out, line.bytes());
    }
    put_any_entry(out, words, entry)
}
