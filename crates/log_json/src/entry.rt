//! The line of an entry.

ghost use Rattle.std.specs.Prelude.{◌≡◌, IfOk, OnOk, string_bytes};
ghost use Rattle.user_io.specs.Text.{Adds};
ghost use Rattle.serde_json.specs.View.{view};
ghost use Rattle.log_text.specs.Entries.{call_text, answer_text};
ghost use Rattle.log_json.specs.Objects.{line, entry_object};
ghost use Rattle.log_json.specs.Texts.{AreTexts};

use crate::line::{put_line, text_of};
use log_text::{Words, put_answer, put_call};
use serde_json::{Value, json};
use std::alloc::{AllocError, Global};
use user_model::{Answer, Call, Entry};

/// The text of a call.
pub fn call_text(alloc: Global, words: &Words, call: Call) -> Result<String, AllocError>
    requires { AreTexts words.now.script.now }
    ensures { IfOk result (λ text. string_bytes text ≡ call_text words.now.script.now call) }
{
    let mut text = Vec::new(alloc);
    put_call(&mut text, words, call)?;
    Ok(text_of(text))
}

/// The text of an answer.
fn answer_text(alloc: Global, words: &Words, answer: Answer) -> Result<String, AllocError>
    requires { AreTexts words.now.script.now }
    ensures { IfOk result (λ text. string_bytes text ≡ answer_text words.now.script.now answer) }
{
    let mut text = Vec::new(alloc);
    put_answer(&mut text, words, answer)?;
    Ok(text_of(text))
}

/// The object of an entry.
fn entry_object(alloc: Global, words: &Words, entry: Entry) -> Result<Value, AllocError>
    requires { AreTexts words.now.script.now }
    ensures { IfOk result (λ value. view value ≡ entry_object words.now.script.now entry) }
{
    let answer = answer_text(alloc, words, entry.answer)?;
    let call = call_text(alloc, words, entry.call)?;
    json!(in alloc; {"answer": answer, "call": call, "who": entry.who.0})
}

/// Adds the line of an entry.
pub fn put_entry(
    alloc: Global,
    out: &mut Vec<u8>,
    words: &Words,
    entry: Entry,
) -> Result<(), AllocError>
    requires { AreTexts words.now.script.now }
    ensures { OnOk result (Adds out.old.items out.new.items (line (entry_object words.now.script.now entry))) }
{
    let object = entry_object(alloc, words, entry)?;
    put_line(alloc, out, &object)
}
