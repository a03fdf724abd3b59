//! Writing the JSON of a run.
//!
//! The lines are made in one text, which goes into the sink where it has grown large, and is used
//! again.

ghost use Rattle.std.specs.Prelude.{◌≡◌, ◌≤◌, ◌++◌, length, OnOk, OnErr, IsErrOf, option_copied};
ghost use Rattle.std.specs.Io.KnownBytes.{Appends};
ghost use Rattle.user_io.specs.Outside.{Rose, AppendsPart};
ghost use Rattle.user_model.specs.Legal.{IsLawful};
ghost use Rattle.log_text.specs.Ends.{setup_of, end_of};
ghost use Rattle.log_text.specs.Passing.{Passes};
ghost use Rattle.log_json.specs.Logs.{entries_json, json};
ghost use Rattle.log_json.specs.Objects.{line, entry_object, frame_line};
ghost use Rattle.log_json.specs.Texts.{AreTexts};

use crate::ending::put_ending;
use crate::frame::put_whole_entry;
use log_text::{End, Words, WriteFault, frame_at, pass_on};
use script_tree::Script;
use std::alloc::Global;
use user_io::{Sink, write_all};
use user_model::{Entry, Machine};

/// Adds the lines of an entry and of the frame that it kept, and passes the text on where it has grown large.
fn write_entry<K: Sink>(
    alloc: Global,
    sink: &mut K,
    text: &mut Vec<u8>,
    words: &Words,
    entry: Entry,
    frame: Option<&[u8]>,
) -> Result<(), WriteFault>
    requires { AreTexts words.now.script.now }
    ensures ok { OnOk result (Passes (K.holds sink.old) (K.holds sink.new) text.old.items text.new.items (line (entry_object words.now.script.now entry) ++ frame_line words.now.script.now (option_copied frame.entry))) }
    ensures err { OnErr result (AppendsPart (K.holds sink.old) (K.holds sink.new) (text.old.items ++ (line (entry_object words.now.script.now entry) ++ frame_line words.now.script.now (option_copied frame.entry)))) }
    ensures faults { K.faults sink.old ≤ K.faults sink.new }
    ensures unfailed { OnOk result (K.faults sink.new ≡ K.faults sink.old) }
    ensures failed { IsErrOf result WriteFault.Write → Rose (K.faults sink.old) (K.faults sink.new) }
{
    put_whole_entry(alloc, text, words, entry, frame)?;
    pass_on(sink, text)
}

/// Adds the lines of the entries, from the oldest on, and passes the text on where it has grown large.
fn write_entries<M: Machine, K: Sink>(
    alloc: Global,
    sink: &mut K,
    text: &mut Vec<u8>,
    words: &Words,
    machine: &M,
) -> Result<(), WriteFault>
    requires texts { AreTexts words.now.script.now }
    requires setup { M.setup machine.now ≡ setup_of words.now.script.now }
    requires lawful { IsLawful (M.setup machine.now) (M.past machine.now) }
    ensures ok { OnOk result (Passes (K.holds sink.old) (K.holds sink.new) text.old.items text.new.items (entries_json words.now.script.now (M.past machine.now))) }
    ensures err { OnErr result (AppendsPart (K.holds sink.old) (K.holds sink.new) (text.old.items ++ entries_json words.now.script.now (M.past machine.now))) }
    ensures faults { K.faults sink.old ≤ K.faults sink.new }
    ensures unfailed { OnOk result (K.faults sink.new ≡ K.faults sink.old) }
    ensures failed { IsErrOf result WriteFault.Write → Rose (K.faults sink.old) (K.faults sink.new) }
{
    let history = machine.history();
    for entry in history {
        write_entry(alloc, sink, text, words, *entry, frame_at(machine, *entry))?;
    }
    Ok(())
}

/// Writes the log of a run that is over as lines of JSON. Where the sink fails (`Write`, only where its
/// count of faults has risen) and where memory is wanting (`Memory`), a front of them was written. They are
/// written whole only where the sink never failed.
pub fn write_json<M: Machine, K: Sink>(
    alloc: Global,
    script: &Script,
    machine: &M,
    end: End,
    sink: &mut K,
) -> Result<(), WriteFault>
    requires few { length script.now.threads ≤ 15 }
    requires texts { AreTexts script.now }
    requires setup { M.setup machine.now ≡ setup_of script.now }
    requires lawful { IsLawful (M.setup machine.now) (M.past machine.now) }
    requires end { end ≡ end_of script.now (M.past machine.now) }
    ensures ok { OnOk result (Appends (K.holds sink.old) (K.holds sink.new) (json script.now (M.past machine.now))) }
    ensures err { OnErr result (AppendsPart (K.holds sink.old) (K.holds sink.new) (json script.now (M.past machine.now))) }
    ensures faults { K.faults sink.old ≤ K.faults sink.new }
    ensures unfailed { OnOk result (K.faults sink.new ≡ K.faults sink.old) }
    ensures failed { IsErrOf result WriteFault.Write → Rose (K.faults sink.old) (K.faults sink.new) }
{
    let words = Words::new(script);
    let mut text = Vec::new(alloc);
    write_entries(alloc, sink, &mut text, &words, machine)?;
    put_ending(alloc, &mut text, &words, machine, end)?;
    write_all(sink, &text)?;
    Ok(())
}
