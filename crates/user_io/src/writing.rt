//! Writing a whole text.

ghost use Rattle.std.specs.Prelude.{◌≡◌, ◌≤◌, OnOk, OnErr};
ghost use Rattle.std.specs.Io.KnownBytes.{Appends};
ghost use Rattle.user_io.specs.Outside.{Rose, AppendsPart};

use crate::traits::{Put, Sink};

/// The sink has failed: its count of faults has risen.
#[derive(Clone, Copy, Debug, PartialEq, Eq)]
pub struct WriteFailed;

/// Writes all of a text. The sink is offered what is left until it took all or failed; where it
/// fails, a front of the text was written. A text is written whole only where the sink never failed.
pub fn write_all<K: Sink>(sink: &mut K, text: &[u8]) -> Result<(), WriteFailed>
    ensures ok { OnOk result (Appends (K.holds sink.old) (K.holds sink.new) text.now) }
    ensures err { OnErr result (AppendsPart (K.holds sink.old) (K.holds sink.new) text.now) }
    ensures failed { OnErr result (Rose (K.faults sink.old) (K.faults sink.new)) }
    ensures unfailed { OnOk result (K.faults sink.new ≡ K.faults sink.old) }

    // Whatever the answer is.
    ensures faults { K.faults sink.old ≤ K.faults sink.new }
{
    let mut rest = text;
    while !rest.is_empty() {
        match sink.write(rest) {
            Put::Put(count) => {
                let (_, after) = rest.split_at(count);
                rest = after;
            }
            Put::Failed => return Err(WriteFailed),
        }
    }
    Ok(())
}
