//! The lines after the entries, one by one.
#![tactic(auto, using(user_io::proofs::Texts::two))]

ghost use Rattle.std.specs.Prelude.{◌≡◌, IfOk, OnOk};
ghost use Rattle.user_io.specs.Text.{Adds};
ghost use Rattle.log_read.specs.Logs.{extra_line};
ghost use Rattle.illegal_text.specs.EndingLines.{lines_of, ending_lines, line_text};

use log_read::{Extra, Log};
use log_text::{End, Words, put_end_line, put_sends_line, put_spent, put_waits};
use std::alloc::{AllocError, Global};
use user_model::SendCount;

/// A line after the entries of a log.
#[derive(Clone, Copy, Debug, PartialEq, Eq)]
pub enum EndingLine {
    /// How the run ended.
    Ends(End),
    /// What is told of a thread.
    Tells(Extra),
    /// The counts of sends.
    Counts(SendCount),
}

/// The lines of an end, of what is told of threads, and of the counts of sends, in this order. `AllocError` comes
/// only for want of memory.
pub fn lines_of(
    alloc: Global,
    end: End,
    extras: &[Extra],
    sends: SendCount,
) -> Result<Vec<EndingLine>, AllocError>
    ensures { IfOk result (λ lines. lines.items ≡ lines_of end extras.now sends) }
{
    let mut lines = Vec::new(alloc);
    lines.push(EndingLine::Ends(end))?;
    for extra in extras {
        lines.push(EndingLine::Tells(*extra))?;
    }
    lines.push(EndingLine::Counts(sends))?;
    Ok(lines)
}

/// The lines after the entries of a log. `AllocError` comes only for want of memory.
pub fn found_lines(alloc: Global, log: &Log) -> Result<Vec<EndingLine>, AllocError>
    ensures { IfOk result (λ lines. lines.items ≡ ending_lines log.now) }
{
    lines_of(alloc, log.end(), log.extras(), log.sends())
}

/// Adds what is told of a thread.
fn put_told(out: &mut Vec<u8>, words: &Words, extra: Extra) -> Result<(), AllocError>
    ensures { OnOk result (Adds out.old.items out.new.items (extra_line words.now.script.now extra)) }
{
    match extra {
        Extra::Waits(thread, call) => put_waits(out, words, thread.0, Some(call)),
        Extra::Spent(thread) => put_spent(out, thread.0),
    }
}

/// Adds the text of a line.
pub fn put_line(out: &mut Vec<u8>, words: &Words, line: EndingLine) -> Result<(), AllocError>
    ensures { OnOk result (Adds out.old.items out.new.items (line_text words.now.script.now line)) }
{
    match line {
        EndingLine::Ends(end) => put_end_line(out, end),
        EndingLine::Tells(extra) => put_told(out, words, extra),
        EndingLine::Counts(sends) => put_sends_line(out, sends),
    }
}
