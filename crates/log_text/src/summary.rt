//! The summary of a run that was made from a number.
#![tactic(auto, using(user_io::proofs::Texts::two))]

ghost use Rattle.std.specs.Prelude.{◌≡◌, ◌≤◌, length, reverse, OnOk, OnErr, IsErrOf};
ghost use Rattle.std.specs.Io.KnownBytes.{Appends};
ghost use Rattle.user_io.specs.Text.{Adds};
ghost use Rattle.user_io.specs.Outside.{Rose, AppendsPart};
ghost use Rattle.user_model.specs.Places.{clock, if_clock, time_told};
ghost use Rattle.log_text.specs.Summaries.{count_line, summary_with, summary};

use crate::end::End;
use crate::ending::{put_end_line, put_sends_line};
use crate::writer::WriteFault;
use std::alloc::{AllocError, Global};
use user_io::text::{put_operand, put_text};
use user_io::{Sink, write_all};
use user_model::{Answer, Entry, Machine, SendCount};

/// The time that an entry tells the clock, in milliseconds.
fn time_told(entry: &Entry) -> Option<u64>
    ensures { result ≡ if_clock entry.now.who.0 (time_told entry.now.answer) }
{
    match entry.answer {
        Answer::Advanced(time) | Answer::Value(time) if entry.who.0 == 0 => Some(time),
        _ => None,
    }
}

/// The time of the virtual clock after a history, in milliseconds.
fn clock(history: &[Entry]) -> u64
    ensures { result ≡ clock (reverse history.now) }
{
    let mut now = 0;
    for entry in history {
        if let Some(time) = time_told(entry) {
            now = time;
        }
    }
    now
}

/// Adds a word and a number, on a line.
fn put_count(out: &mut Vec<u8>, word: &[u8], number: u64) -> Result<(), AllocError>
    ensures { OnOk result (Adds out.old.items out.new.items (count_line word.now number)) }
{
    put_text(out, word)?;
    put_operand(out, number)?;
    put_text(out, b"\n")?;
    Ok(())
}

/// Adds the five lines.
#[tactic(auto, using(user_io::proofs::Texts::two), unfolding(crate::specs::Summaries::summary_with))]
fn put_summary(
    out: &mut Vec<u8>,
    made: u32,
    history: &[Entry],
    count: SendCount,
    end: End,
) -> Result<(), AllocError>
    ensures { OnOk result (Adds out.old.items out.new.items (summary_with made (reverse history.now) end count)) }
{
    put_count(out, b"made", u64::from(made))?;
    put_count(out, b"entries", history.len() as u64)?;
    put_count(out, b"clock", clock(history))?;
    put_end_line(out, end)?;
    put_sends_line(out, count)?;
    Ok(())
}

/// Writes the summary of a run that is over and was made from a number. Where the sink fails (`Write`,
/// only where its count of faults has risen) and where memory is wanting (`Memory`), a front of the
/// summary was written. It is written whole only where the sink never failed.
pub fn write_summary<M: Machine, K: Sink>(
    alloc: Global,
    made: u32,
    machine: &M,
    end: End,
    sink: &mut K,
) -> Result<(), WriteFault>
    ensures ok { OnOk result (Appends (K.holds sink.old) (K.holds sink.new) (summary made (M.past machine.now) end)) }
    ensures err { OnErr result (AppendsPart (K.holds sink.old) (K.holds sink.new) (summary made (M.past machine.now) end)) }
    ensures faults { K.faults sink.old ≤ K.faults sink.new }
    ensures unfailed { OnOk result (K.faults sink.new ≡ K.faults sink.old) }
    ensures failed { IsErrOf result WriteFault.Write → Rose (K.faults sink.old) (K.faults sink.new) }
{
    let mut text = Vec::new(alloc);
    put_summary(
        &mut text,
        made,
        machine.history(),
        machine.send_count(),
        end,
    )?;
    write_all(sink, &text)?;
    Ok(())
}
