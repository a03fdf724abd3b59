//! The lines after the entries.
#![tactic(auto, using(user_io::proofs::Texts::two))]

ghost use Rattle.std.specs.Prelude.{◌≡◌, ◌<◌, ◌≤◌, length, codes, IfOk, OnOk, string_bytes};
ghost use Rattle.user_io.specs.Text.{Adds};
ghost use Rattle.serde_json.specs.View.{view};
ghost use Rattle.log_text.specs.Ends.{setup_of};
ghost use Rattle.log_json.specs.Objects.{line, end_object, waits_text, waits_object, waits_line, spent_object, counts_object, extra, extras, ending};
ghost use Rattle.log_json.specs.Texts.{AreTexts};

use crate::line::{put_line, text_of};
use log_text::{End, Words, end_word, has_ended, last_call, put_call};
use serde_json::{Value, json};
use std::alloc::{AllocError, Global};
use user_io::text::{put_number, put_text};
use user_model::{Call, Machine, SendCount};
use win_num::Thread;

/// The object of an end.
fn end_object(alloc: Global, end: End) -> Result<Value, AllocError>
    ensures { IfOk result (λ value. view value ≡ end_object end) }
{
    let word = end_word(end);
    json!(in alloc; {"end": word})
}

/// The text of a thread that waits, with its last call.
fn waits_text(alloc: Global, words: &Words, thread: u8, call: Call) -> Result<String, AllocError>
    requires { AreTexts words.now.script.now }
    ensures { IfOk result (λ text. string_bytes text ≡ waits_text words.now.script.now thread call) }
{
    let mut text = Vec::new(alloc);
    put_number(&mut text, u64::from(thread))?;
    put_text(&mut text, b" ")?;
    put_call(&mut text, words, call)?;
    Ok(text_of(text))
}

/// The object of a thread that waits, with its last call.
fn waits_object(alloc: Global, words: &Words, thread: u8, call: Call) -> Result<Value, AllocError>
    requires { AreTexts words.now.script.now }
    ensures { IfOk result (λ value. view value ≡ waits_object words.now.script.now thread call) }
{
    let text = waits_text(alloc, words, thread, call)?;
    json!(in alloc; {"waits": text})
}

/// The object of a thread that has used up its budget.
fn spent_object(alloc: Global, thread: u8) -> Result<Value, AllocError>
    ensures { IfOk result (λ value. view value ≡ spent_object thread) }
{
    json!(in alloc; {"spent": thread})
}

/// The object of the counts of sends.
fn counts_object(alloc: Global, count: SendCount) -> Result<Value, AllocError>
    ensures { IfOk result (λ value. view value ≡ counts_object count) }
{
    json!(in alloc; {"sends": [
        count.begun,
        count.entered,
        count.by_proc,
        count.by_reply,
        count.by_loss,
        count.by_timeout,
        count.unfinished
    ]})
}

/// Adds the line of a thread that waits, where it has made a call.
fn put_waits(
    alloc: Global,
    out: &mut Vec<u8>,
    words: &Words,
    thread: u8,
    call: Option<Call>,
) -> Result<(), AllocError>
    requires { AreTexts words.now.script.now }
    ensures { OnOk result (Adds out.old.items out.new.items (waits_line words.now.script.now thread call)) }
{
    let Some(call) = call else {
        return Ok(());
    };
    let object = waits_object(alloc, words, thread, call)?;
    put_line(alloc, out, &object)
}

/// Adds the line of a thread that has used up its budget.
fn put_spent(alloc: Global, out: &mut Vec<u8>, thread: u8) -> Result<(), AllocError>
    ensures { OnOk result (Adds out.old.items out.new.items (line (spent_object thread))) }
{
    let object = spent_object(alloc, thread)?;
    put_line(alloc, out, &object)
}

/// Adds the extra line of a thread, where it has one.
fn put_extra<M: Machine>(
    alloc: Global,
    out: &mut Vec<u8>,
    words: &Words,
    machine: &M,
    end: End,
    thread: u8,
) -> Result<(), AllocError>
    requires some { 0 < thread }
    requires texts { AreTexts words.now.script.now }
    requires setup { M.setup machine.now ≡ setup_of words.now.script.now }
    ensures { OnOk result (Adds out.old.items out.new.items (extra words.now.script.now (M.past machine.now) end thread)) }
{
    match end {
        End::Done | End::Cut => {}
        End::Stuck => {
            let history = machine.history();
            if !has_ended(history, thread) {
                put_waits(alloc, out, words, thread, last_call(history, thread))?;
            }
        }
        End::Spent => {
            if !machine.barred(Thread(thread)) {
                put_spent(alloc, out, thread)?;
            }
        }
    }
    Ok(())
}

/// Adds the extra lines of all threads, in order.
fn put_extras<M: Machine>(
    alloc: Global,
    out: &mut Vec<u8>,
    words: &Words,
    machine: &M,
    end: End,
) -> Result<(), AllocError>
    requires few { length words.now.script.now.threads ≤ 15 }
    requires texts { AreTexts words.now.script.now }
    requires setup { M.setup machine.now ≡ setup_of words.now.script.now }
    ensures { OnOk result (Adds out.old.items out.new.items (extras words.now.script.now (M.past machine.now) end)) }
{
    for thread in 0..words.script.thread_count() {
        put_extra(alloc, out, words, machine, end, thread + 1)?;
    }
    Ok(())
}

/// Adds the line of an end.
fn put_end(alloc: Global, out: &mut Vec<u8>, end: End) -> Result<(), AllocError>
    ensures { OnOk result (Adds out.old.items out.new.items (line (end_object end))) }
{
    let object = end_object(alloc, end)?;
    put_line(alloc, out, &object)
}

/// Adds the line of the counts of sends.
fn put_counts(alloc: Global, out: &mut Vec<u8>, count: SendCount) -> Result<(), AllocError>
    ensures { OnOk result (Adds out.old.items out.new.items (line (counts_object count))) }
{
    let object = counts_object(alloc, count)?;
    put_line(alloc, out, &object)
}

/// Adds the lines after the entries.
pub fn put_ending<M: Machine>(
    alloc: Global,
    out: &mut Vec<u8>,
    words: &Words,
    machine: &M,
    end: End,
) -> Result<(), AllocError>
    requires few { length words.now.script.now.threads ≤ 15 }
    requires texts { AreTexts words.now.script.now }
    requires setup { M.setup machine.now ≡ setup_of words.now.script.now }
    ensures { OnOk result (Adds out.old.items out.new.items (ending words.now.script.now (M.past machine.now) end)) }
{
    put_end(alloc, out, end)?;
    put_extras(alloc, out, words, machine, end)?;
    put_counts(alloc, out, machine.send_count())?;
    Ok(())
}
