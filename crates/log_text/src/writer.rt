//! Writing a log.
//!
//! The lines are made in one text, which goes into the sink where it has grown large, and is used
//! again.

ghost use Rattle.std.specs.Prelude.{◌≡◌, ◌≤◌, ◌++◌, [], length, OnOk, OnErr, IsErrOf, option_copied};
ghost use Rattle.std.specs.Io.KnownBytes.{Appends};
ghost use Rattle.user_io.specs.Outside.{Rose, AppendsPart};
ghost use Rattle.user_model.specs.Legal.{IsLawful};
ghost use Rattle.log_text.specs.declared.writer.WriteFault.TheVariants.{Memory as OutOfMemory, Write as WriteFails};
ghost use Rattle.log_text.specs.Ends.{setup_of, end_of};
ghost use Rattle.log_text.specs.Entries.{entry_line, entries_text};
ghost use Rattle.log_text.specs.Frames.{frame_lines};
ghost use Rattle.log_text.specs.Logs.{log};
ghost use Rattle.log_text.specs.Passing.{Passes};

use crate::end::End;
use crate::ending::put_ending;
use crate::frame::{frame_at, put_whole_entry};
use crate::words::Words;
use script_tree::Script;
use std::alloc::{AllocError, Global};
use user_io::text::put_text;
use user_io::{Sink, WriteFailed, write_all};
use user_model::{Entry, Machine};

/// How large the text grows, in bytes, before it goes into the sink.
const PIECE: usize = 65536;

/// Why a log was not written whole.
#[derive(Clone, Copy, Debug, PartialEq, Eq)]
pub enum WriteFault {
    /// The sink has failed.
    Write,
    /// No memory was left.
    Memory,
}

impl From<AllocError> for WriteFault {
    ghost from_gives = { λ _ e. e ≡ OutOfMemory };

    fn from(_error: AllocError) -> WriteFault {
        WriteFault::Memory
    }
}

impl From<WriteFailed> for WriteFault {
    ghost from_gives = { λ _ e. e ≡ WriteFails };

    fn from(_error: WriteFailed) -> WriteFault {
        WriteFault::Write
    }
}

/// Writes the text into the sink where it has 64 KiB or more, and empties it. Where the sink fails (`Write`,
/// only where its count of faults has risen), a front of the text was written.
pub fn pass_on<K: Sink>(sink: &mut K, text: &mut Vec<u8>) -> Result<(), WriteFault>
    ensures ok { OnOk result (Passes (K.holds sink.old) (K.holds sink.new) text.old.items text.new.items []) }
    ensures err { OnErr result (AppendsPart (K.holds sink.old) (K.holds sink.new) text.old.items) }
    ensures faults { K.faults sink.old ≤ K.faults sink.new }
    ensures unfailed { OnOk result (K.faults sink.new ≡ K.faults sink.old) }
    ensures failed { IsErrOf result WriteFault.Write → Rose (K.faults sink.old) (K.faults sink.new) }
{
    if text.len() < PIECE {
        return Ok(());
    }
    write_all(sink, text)?;
    text.clear();
    Ok(())
}

/// Adds the line of an entry and the frame that it kept, and passes the text on where it has grown large.
fn write_entry<K: Sink>(
    sink: &mut K,
    text: &mut Vec<u8>,
    words: &Words,
    entry: Entry,
    frame: Option<&[u8]>,
) -> Result<(), WriteFault>
    ensures ok { OnOk result (Passes (K.holds sink.old) (K.holds sink.new) text.old.items text.new.items (entry_line words.now.script.now entry ++ frame_lines words.now.script.now (option_copied frame.entry))) }
    ensures err { OnErr result (AppendsPart (K.holds sink.old) (K.holds sink.new) (text.old.items ++ (entry_line words.now.script.now entry ++ frame_lines words.now.script.now (option_copied frame.entry)))) }
    ensures faults { K.faults sink.old ≤ K.faults sink.new }
    ensures unfailed { OnOk result (K.faults sink.new ≡ K.faults sink.old) }
    ensures failed { IsErrOf result WriteFault.Write → Rose (K.faults sink.old) (K.faults sink.new) }
{
    put_whole_entry(text, words, entry, frame)?;
    pass_on(sink, text)
}

/// Adds the texts of the entries, from the oldest on, and passes the text on where it has grown large.
fn write_entries<M: Machine, K: Sink>(
    sink: &mut K,
    text: &mut Vec<u8>,
    words: &Words,
    machine: &M,
) -> Result<(), WriteFault>
    requires setup { M.setup machine.now ≡ setup_of words.now.script.now }
    requires lawful { IsLawful (M.setup machine.now) (M.past machine.now) }
    ensures ok { OnOk result (Passes (K.holds sink.old) (K.holds sink.new) text.old.items text.new.items (entries_text words.now.script.now (M.past machine.now))) }
    ensures err { OnErr result (AppendsPart (K.holds sink.old) (K.holds sink.new) (text.old.items ++ entries_text words.now.script.now (M.past machine.now))) }
    ensures faults { K.faults sink.old ≤ K.faults sink.new }
    ensures unfailed { OnOk result (K.faults sink.new ≡ K.faults sink.old) }
    ensures failed { IsErrOf result WriteFault.Write → Rose (K.faults sink.old) (K.faults sink.new) }
{
    let history = machine.history();
    for entry in history {
        write_entry(sink, text, words, *entry, frame_at(machine, *entry))?;
    }
    Ok(())
}

/// Writes the log of a run that is over. Where the sink fails (`Write`, only where its count of faults
/// has risen) and where memory is wanting (`Memory`), a front of the log was written. It is written whole only where the
/// sink never failed.
pub fn write_log<M: Machine, K: Sink>(
    alloc: Global,
    script: &Script,
    machine: &M,
    end: End,
    sink: &mut K,
) -> Result<(), WriteFault>
    requires few { length script.now.threads ≤ 15 }
    requires setup { M.setup machine.now ≡ setup_of script.now }
    requires lawful { IsLawful (M.setup machine.now) (M.past machine.now) }
    requires end { end ≡ end_of script.now (M.past machine.now) }
    ensures ok { OnOk result (Appends (K.holds sink.old) (K.holds sink.new) (log script.now (M.past machine.now))) }
    ensures err { OnErr result (AppendsPart (K.holds sink.old) (K.holds sink.new) (log script.now (M.past machine.now))) }
    ensures faults { K.faults sink.old ≤ K.faults sink.new }
    ensures unfailed { OnOk result (K.faults sink.new ≡ K.faults sink.old) }
    ensures failed { IsErrOf result WriteFault.Write → Rose (K.faults sink.old) (K.faults sink.new) }
{
    let words = Words::new(script);
    let mut text = Vec::new(alloc);
    put_text(&mut text, b"log 1\n")?;
    write_entries(sink, &mut text, &words, machine)?;
    put_ending(&mut text, &words, machine, end)?;
    write_all(sink, &text)?;
    Ok(())
}
