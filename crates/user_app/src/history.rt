//! Writing the text of a run's history.

ghost use Rattle.std.specs.Prelude.{◌≡◌, OnOk, OnErr, IsErrOf};
ghost use Rattle.std.specs.Io.KnownBytes.{Appends};
ghost use Rattle.user_io.specs.Outside.{Rose, AppendsPart};
ghost use Rattle.user_model.specs.Legal.{IsLawful};
ghost use Rattle.script_text.specs.Limits.{IsScript};
ghost use Rattle.log_text.specs.Ends.{setup_of, end_of};
ghost use Rattle.user_app.specs.Histories.{history_text};

use crate::request::LogForm;
use log_json::{names_are_texts, write_json};
use log_text::{End, WriteFault, write_log};
use script_tree::Script;
use std::alloc::Global;
use user_io::Sink;
use user_model::Machine;

/// Writes the log of a run that is over in this form. Where the sink fails (`Write`, only where its count
/// of faults has risen) and where memory is wanting (`Memory`), a front of it was written. It is written
/// whole only where the sink never failed.
pub fn write_history<M: Machine, K: Sink>(
    alloc: Global,
    form: LogForm,
    script: &Script,
    machine: &M,
    end: End,
    sink: &mut K,
) -> Result<(), WriteFault>
    requires script { IsScript script.now }
    requires setup { M.setup machine.now ≡ setup_of script.now }
    requires lawful { IsLawful (M.setup machine.now) (M.past machine.now) }
    requires end { end ≡ end_of script.now (M.past machine.now) }
    ensures ok { OnOk result (Appends (K.holds sink.old) (K.holds sink.new) (history_text form script.now (M.past machine.now))) }
    ensures err { OnErr result (AppendsPart (K.holds sink.old) (K.holds sink.new) (history_text form script.now (M.past machine.now))) }
    ensures unfailed { OnOk result (K.faults sink.new ≡ K.faults sink.old) }
    ensures failed { IsErrOf result WriteFault.Write → Rose (K.faults sink.old) (K.faults sink.new) }
{
    match form {
        LogForm::Plain => write_log(alloc, script, machine, end, sink),
        LogForm::Json => {
            names_are_texts();
            write_json(alloc, script, machine, end, sink)
        }
    }
}
