//! The lines after the entries.
#![tactic(auto, using(user_io::proofs::Texts::two))]

ghost use Rattle.std.specs.Prelude.{◌≡◌, ◌<◌, ◌≤◌, length, reverse, OnOk};
ghost use Rattle.user_io.specs.Text.{Adds};
ghost use Rattle.user_model.specs.Places.{has_ended};
ghost use Rattle.log_text.specs.Ends.{setup_of};
ghost use Rattle.log_text.specs.Endings.{end_line, last_call, waits_line, spent_line, extra, extras, causes_text, counts_line, ending};

use crate::end::{End, end_word};
use crate::entry::{put_call, put_counted};
use crate::words::Words;
use std::alloc::AllocError;
use user_io::text::{put_operand, put_text};
use user_model::{Answer, Call, Entry, Machine, SendCount};
use win_num::Thread;

/// Adds the line of an end.
pub fn put_end_line(out: &mut Vec<u8>, end: End) -> Result<(), AllocError>
    ensures { OnOk result (Adds out.old.items out.new.items (end_line end)) }
{
    put_text(out, b"end ")?;
    put_text(out, end_word(end).as_bytes())?;
    put_text(out, b"\n")?;
    Ok(())
}

/// Whether a thread has ended.
pub fn has_ended(history: &[Entry], thread: u8) -> bool
    ensures { result ≡ has_ended (reverse history.now) thread }
{
    let mut ended = false;
    for entry in history {
        if matches!(entry.answer, Answer::Ended) && entry.who.0 == thread {
            ended = true;
        }
    }
    ended
}

/// The last call of a thread, if it has made one.
pub fn last_call(history: &[Entry], thread: u8) -> Option<Call>
    ensures { result ≡ last_call (reverse history.now) thread }
{
    let mut last = None;
    for entry in history {
        if entry.who.0 == thread {
            last = Some(entry.call);
        }
    }
    last
}

/// Adds the line of a thread that waits, with its last call.
pub fn put_waits(
    out: &mut Vec<u8>,
    words: &Words,
    thread: u8,
    call: Option<Call>,
) -> Result<(), AllocError>
    ensures { OnOk result (Adds out.old.items out.new.items (waits_line words.now.script.now thread call)) }
{
    let Some(call) = call else {
        return Ok(());
    };
    put_text(out, b"waits")?;
    put_operand(out, u64::from(thread))?;
    put_text(out, b" ")?;
    put_call(out, words, call)?;
    put_text(out, b"\n")?;
    Ok(())
}

/// Adds the line of a thread that has used up its budget.
pub fn put_spent(out: &mut Vec<u8>, thread: u8) -> Result<(), AllocError>
    ensures { OnOk result (Adds out.old.items out.new.items (spent_line thread)) }
{
    put_text(out, b"spent")?;
    put_operand(out, u64::from(thread))?;
    put_text(out, b"\n")?;
    Ok(())
}

/// Adds the extra line of a thread, where it has one.
fn put_extra<M: Machine>(
    out: &mut Vec<u8>,
    words: &Words,
    machine: &M,
    end: End,
    thread: u8,
) -> Result<(), AllocError>
    requires some { 0 < thread }
    requires setup { M.setup machine.now ≡ setup_of words.now.script.now }
    ensures { OnOk result (Adds out.old.items out.new.items (extra words.now.script.now (M.past machine.now) end thread)) }
{
    match end {
        End::Done | End::Cut => {}
        End::Stuck => {
            let history = machine.history();
            if !has_ended(history, thread) {
                put_waits(out, words, thread, last_call(history, thread))?;
            }
        }
        End::Spent => {
            if !machine.barred(Thread(thread)) {
                put_spent(out, thread)?;
            }
        }
    }
    Ok(())
}

/// Adds the extra lines of all threads, in order.
fn put_extras<M: Machine>(
    out: &mut Vec<u8>,
    words: &Words,
    machine: &M,
    end: End,
) -> Result<(), AllocError>
    requires few { length words.now.script.now.threads ≤ 15 }
    requires setup { M.setup machine.now ≡ setup_of words.now.script.now }
    ensures { OnOk result (Adds out.old.items out.new.items (extras words.now.script.now (M.past machine.now) end)) }
{
    for thread in 0..words.script.thread_count() {
        put_extra(out, words, machine, end, thread + 1)?;
    }
    Ok(())
}

/// Adds how many sends were answered, by cause.
fn put_causes(out: &mut Vec<u8>, count: SendCount) -> Result<(), AllocError>
    ensures { OnOk result (Adds out.old.items out.new.items (causes_text count)) }
{
    put_counted(out, b" proc", u64::from(count.by_proc))?;
    put_counted(out, b" reply", u64::from(count.by_reply))?;
    put_counted(out, b" loss", u64::from(count.by_loss))?;
    put_counted(out, b" timeout", u64::from(count.by_timeout))?;
    Ok(())
}

/// Adds the counts of sends.
pub fn put_sends_line(out: &mut Vec<u8>, count: SendCount) -> Result<(), AllocError>
    ensures { OnOk result (Adds out.old.items out.new.items (counts_line count)) }
{
    put_counted(out, b"sends begun", u64::from(count.begun))?;
    put_counted(out, b" entered", u64::from(count.entered))?;
    put_causes(out, count)?;
    put_counted(out, b" open", u64::from(count.unfinished))?;
    put_text(out, b"\n")?;
    Ok(())
}

/// Adds the lines after the entries.
pub fn put_ending<M: Machine>(
    out: &mut Vec<u8>,
    words: &Words,
    machine: &M,
    end: End,
) -> Result<(), AllocError>
    requires few { length words.now.script.now.threads ≤ 15 }
    requires setup { M.setup machine.now ≡ setup_of words.now.script.now }
    ensures { OnOk result (Adds out.old.items out.new.items (ending words.now.script.now (M.past machine.now) end)) }
{
    put_end_line(out, end)?;
    put_extras(out, words, machine, end)?;
    put_sends_line(out, machine.send_count())?;
    Ok(())
}
