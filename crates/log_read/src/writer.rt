//! The text of a log.

ghost use Rattle.std.specs.Prelude.{◌≡◌, OnOk, IfOk};
ghost use Rattle.std.specs.List.{flat_map};
ghost use Rattle.user_io.specs.Text.{Adds};
ghost use Rattle.log_read.specs.Logs.{log_entry_text, extra_line, spelling};

use crate::log::{Extra, Log, LogEntry};
use log_text::{Words, put_end_line, put_sends_line, put_spent, put_waits, put_whole_entry};
use std::alloc::{AllocError, Global};
use user_io::text::put_text;

/// Adds the line of an entry, and the lines of its frame.
fn put_log_entry(out: &mut Vec<u8>, words: &Words, entry: &LogEntry) -> Result<(), AllocError>
    ensures { OnOk result (Adds out.old.items out.new.items (log_entry_text words.now.script.now entry.now)) }
{
    put_whole_entry(out, words, entry.entry(), entry.frame())
}

/// Adds the lines of entries, and of their frames.
fn put_entries(out: &mut Vec<u8>, words: &Words, entries: &[LogEntry]) -> Result<(), AllocError>
    ensures { OnOk result (Adds out.old.items out.new.items (flat_map (log_entry_text words.now.script.now) entries.now)) }
{
    for entry in entries {
        put_log_entry(out, words, entry)?;
    }
    Ok(())
}

/// Adds an extra line.
pub fn put_extra(out: &mut Vec<u8>, words: &Words, extra: Extra) -> Result<(), AllocError>
    ensures { OnOk result (Adds out.old.items out.new.items (extra_line words.now.script.now extra)) }
{
    match extra {
        Extra::Waits(thread, call) => put_waits(out, words, thread.0, Some(call)),
        Extra::Spent(thread) => put_spent(out, thread.0),
    }
}

/// Adds the extra lines.
fn put_extras(out: &mut Vec<u8>, words: &Words, extras: &[Extra]) -> Result<(), AllocError>
    ensures { OnOk result (Adds out.old.items out.new.items (flat_map (extra_line words.now.script.now) extras.now)) }
{
    for extra in extras {
        put_extra(out, words, *extra)?;
    }
    Ok(())
}

/// The text of a log.
#[tactic(auto, using(user_io::proofs::Texts::two), unfolding(crate::specs::Logs::spelling))]
pub fn write(alloc: Global, words: &Words, log: &Log) -> Result<Vec<u8>, AllocError>
    ensures { IfOk result (λ text. text.items ≡ spelling words.now.script.now log.now) }
{
    let mut out = Vec::new(alloc);
    put_text(&mut out, b"log 1\n")?;
    put_entries(&mut out, words, log.entries())?;
    put_end_line(&mut out, log.end())?;
    put_extras(&mut out, words, log.extras())?;
    put_sends_line(&mut out, log.sends())?;
    Ok(out)
}
