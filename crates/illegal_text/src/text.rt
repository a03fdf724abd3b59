//! The three lines.
#![tactic(auto, using(user_io::proofs::Texts::two))]

ghost use Rattle.std.specs.Prelude.{◌≡◌, ◌≤◌, length, slice_get, option_copied, IfOk, OnOk, OnErr, IsErrOf};
ghost use Rattle.std.specs.Io.KnownBytes.{Appends};
ghost use Rattle.user_io.specs.Outside.{Rose, AppendsPart};
ghost use Rattle.user_io.specs.Text.{Adds};
ghost use Rattle.user_model.specs.Legal.{IsLawful};
ghost use Rattle.log_text.specs.Ends.{setup_of};
ghost use Rattle.illegal_text.specs.Texts.{reason_word, over_word, first_line, entry_text, is_clock, held_text, frame_row, found_frame_row, newest_frame, ending_text, found_text, kept_text, illegal_text};

use crate::ending::right_lines;
use crate::illegal::{Illegal, Over, Why};
use crate::lines::{EndingLine, found_lines, put_line};
use crate::rows::{put_row, row_at};
use log_read::{Log, LogEntry};
use log_text::{Words, WriteFault, frame_at, put_answer, put_call, put_entry};
use script_tree::Script;
use std::alloc::{AllocError, Global};
use user_io::text::{put_operand, put_text};
use user_io::{Sink, write_all};
use user_model::Machine;
use win_num::Thread;

/// The word of a reason.
fn reason_word(why: &Why) -> &'static str
    ensures { result.now ≡ reason_word why.now }
{
    match why {
        Why::Over(_) => "over",
        Why::Barred(_) => "barred",
        Why::Call(_) => "call",
        Why::Answer(_) => "answer",
        Why::Frame(_) => "frame",
        Why::EndLine(_) => "end",
    }
}

/// The word of what leaves no entry to an actor.
fn over_word(over: Over) -> &'static str
    ensures { result.now ≡ over_word over }
{
    match over {
        Over::Ended => "ended",
        Over::Spent => "spent",
        Over::Stop => "stop",
        Over::Absent => "none",
    }
}

/// Adds the line with the place and the reason.
fn put_first_line(out: &mut Vec<u8>, found: &Illegal) -> Result<(), AllocError>
    ensures { OnOk result (Adds out.old.items out.new.items (first_line found.now)) }
{
    put_text(out, b"illegal")?;
    put_operand(out, u64::from(found.place))?;
    put_text(out, b" ")?;
    put_text(out, reason_word(&found.why).as_bytes())?;
    put_text(out, b"\n")?;
    Ok(())
}

/// Adds the line of the entry at a place, if there is one.
fn put_entry_at(out: &mut Vec<u8>, words: &Words, log: &Log, place: u32) -> Result<(), AllocError>
    ensures { OnOk result (Adds out.old.items out.new.items (entry_text words.now.script.now (slice_get log.now.entries place))) }
{
    match log.entries().get(place as usize) {
        Some(entry) => put_entry(out, words, entry.entry()),
        None => put_text(out, b"nothing\n"),
    }
}

/// Adds a row of the frame of the entry at a place, if there is one.
fn put_found_row(
    out: &mut Vec<u8>,
    words: &Words,
    log: &Log,
    place: u32,
    row: u32,
) -> Result<(), AllocError>
    ensures { OnOk result (Adds out.old.items out.new.items (found_frame_row words.now.script.now (slice_get log.now.entries place) row)) }
{
    let Some(entry) = log.entries().get(place as usize) else {
        return put_text(out, b"nothing\n");
    };
    match entry.frame() {
        Some(colours) => put_row(out, row_at(words.script.width(), row, colours)),
        None => put_text(out, b"nothing\n"),
    }
}

/// Adds the line at a place of an ending, if there is one.
fn put_line_at(
    out: &mut Vec<u8>,
    words: &Words,
    lines: &[EndingLine],
    place: u32,
) -> Result<(), AllocError>
    ensures { OnOk result (Adds out.old.items out.new.items (ending_text words.now.script.now (slice_get lines.now place))) }
{
    match lines.get(place as usize) {
        Some(line) => put_line(out, words, *line),
        None => put_text(out, b"nothing\n"),
    }
}

/// Adds what was found at the place.
fn put_found(
    alloc: Global,
    out: &mut Vec<u8>,
    words: &Words,
    log: &Log,
    found: &Illegal,
) -> Result<(), AllocError>
    ensures { OnOk result (Adds out.old.items out.new.items (found_text words.now.script.now log.now found.now.place found.now.why)) }
{
    match found.why {
        Why::Frame(row) => put_found_row(out, words, log, found.place, row),
        Why::EndLine(line) => put_line_at(out, words, &found_lines(alloc, log)?, line),
        _ => put_entry_at(out, words, log, found.place),
    }
}

/// Whether the entry at a place is the clock's.
fn is_clock(log: &Log, place: u32) -> bool
    ensures { result ≡ is_clock (slice_get log.now.entries place) }
{
    match log.entries().get(place as usize) {
        Some(entry) => entry.entry().who.0 == 0,
        None => false,
    }
}

/// Adds what keeps the actor of the entry at a place from moving.
fn put_held(out: &mut Vec<u8>, log: &Log, place: u32, thread: Thread) -> Result<(), AllocError>
    ensures { OnOk result (Adds out.old.items out.new.items (held_text (slice_get log.now.entries place) thread)) }
{
    if !is_clock(log, place) {
        return put_text(out, b"idle\n");
    }
    put_text(out, b"busy")?;
    put_operand(out, u64::from(thread.0))?;
    put_text(out, b"\n")?;
    Ok(())
}

/// The frame that the newest entry of the machine kept, if it kept one.
fn newest_frame<M: Machine>(machine: &M) -> Option<&[u8]>
    requires lawful { IsLawful (M.setup machine.now) (M.past machine.now) }
    ensures { option_copied result ≡ newest_frame (M.setup machine.now) (M.past machine.now) }
{
    let entry = machine.history().last()?;
    frame_at(machine, *entry)
}

/// Adds a row of the frame that the newest entry of the machine kept, if it kept one.
fn put_kept_row<M: Machine>(
    out: &mut Vec<u8>,
    words: &Words,
    machine: &M,
    row: u32,
) -> Result<(), AllocError>
    requires setup { M.setup machine.now ≡ setup_of words.now.script.now }
    requires lawful { IsLawful (M.setup machine.now) (M.past machine.now) }
    ensures { OnOk result (Adds out.old.items out.new.items (frame_row words.now.script.now (newest_frame (setup_of words.now.script.now) (M.past machine.now)) row)) }
{
    match newest_frame(machine) {
        Some(colours) => put_row(out, row_at(words.script.width(), row, colours)),
        None => put_text(out, b"nothing\n"),
    }
}

/// Adds what would be right at the place.
fn put_kept<M: Machine>(
    alloc: Global,
    out: &mut Vec<u8>,
    words: &Words,
    machine: &M,
    log: &Log,
    found: &Illegal,
) -> Result<(), AllocError>
    requires few { length words.now.script.now.threads ≤ 15 }
    requires setup { M.setup machine.now ≡ setup_of words.now.script.now }
    requires lawful { IsLawful (M.setup machine.now) (M.past machine.now) }
    ensures { OnOk result (Adds out.old.items out.new.items (kept_text words.now.script.now (M.past machine.now) (slice_get log.now.entries found.now.place) found.now.why)) }
{
    match found.why {
        Why::Over(over) => put_text(out, over_word(over).as_bytes())?,
        Why::Barred(thread) => return put_held(out, log, found.place, thread),
        Why::Call(call) => put_call(out, words, call)?,
        Why::Answer(answer) => put_answer(out, words, answer)?,
        Why::Frame(row) => return put_kept_row(out, words, machine, row),
        Why::EndLine(line) => {
            let lines = right_lines(alloc, words.script, machine)?;
            return put_line_at(out, words, &lines, line);
        }
    }
    put_text(out, b"\n")
}

/// The three lines.
fn three_lines<M: Machine>(
    alloc: Global,
    script: &Script,
    machine: &M,
    log: &Log,
    found: &Illegal,
) -> Result<Vec<u8>, AllocError>
    requires few { length script.now.threads ≤ 15 }
    requires setup { M.setup machine.now ≡ setup_of script.now }
    requires lawful { IsLawful (M.setup machine.now) (M.past machine.now) }
    ensures { IfOk result (λ text. text.items ≡ illegal_text script.now (M.past machine.now) log.now found.now) }
{
    let words = Words::new(script);
    let mut text = Vec::new(alloc);
    put_first_line(&mut text, found)?;
    put_text(&mut text, b"found ")?;
    put_found(alloc, &mut text, &words, log, found)?;
    put_text(&mut text, b"kept ")?;
    put_kept(alloc, &mut text, &words, machine, log, found)?;
    Ok(text)
}

/// Writes what is wrong with a log at its first bad place, in three lines: the place and the reason, what was found
/// there, and what would be right. The machine has made the entries before the place, and for `Frame` the one there
/// too. Where the sink fails (`Write`, only where its count of faults has risen) and where memory is wanting
/// (`Memory`), a front of the text was written. It is written whole only where the sink never failed.
pub fn write_illegal<M: Machine, K: Sink>(
    alloc: Global,
    script: &Script,
    machine: &M,
    log: &Log,
    found: &Illegal,
    sink: &mut K,
) -> Result<(), WriteFault>
    requires few { length script.now.threads ≤ 15 }
    requires setup { M.setup machine.now ≡ setup_of script.now }
    requires lawful { IsLawful (M.setup machine.now) (M.past machine.now) }
    ensures ok { OnOk result (Appends (K.holds sink.old) (K.holds sink.new) (illegal_text script.now (M.past machine.now) log.now found.now)) }
    ensures err { OnErr result (AppendsPart (K.holds sink.old) (K.holds sink.new) (illegal_text script.now (M.past machine.now) log.now found.now)) }
    ensures faults { K.faults sink.old ≤ K.faults sink.new }
    ensures unfailed { OnOk result (K.faults sink.new ≡ K.faults sink.old) }
    ensures failed { IsErrOf result WriteFault.Write → Rose (K.faults sink.old) (K.faults sink.new) }
{
    let text = three_lines(alloc, script, machine, log, found)?;
    write_all(sink, &text)?;
    Ok(())
}
