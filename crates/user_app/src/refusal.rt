//! Saying where and why an input is refused.

ghost use Rattle.std.specs.Prelude.{◌≡◌, IfOk};
ghost use Rattle.user_app.specs.Outcomes.{IsWhole};
ghost use Rattle.user_app.specs.Refusals.{Refuses, reason_word, refusal_text};

use crate::status::Status;
use script_text::{Reason, Refusal};
use std::alloc::{AllocError, Global};
use user_io::text::{put_operand, put_text};
use user_io::{Sink, write_all};

/// The refusal of a text that is too long. It has line 0, since no line of it is looked at.
pub const TOO_LONG: Refusal = Refusal {
    line: 0,
    reason: Reason::Long,
};

/// The word of a reason. The words are this project's own.
fn reason_word(reason: Reason) -> &'static [u8]
    ensures { result.now ≡ reason_word reason }
{
    match reason {
        Reason::Bytes => b"bytes",
        Reason::Words => b"words",
        Reason::Operand => b"operand",
        Reason::Name => b"name",
        Reason::Repeated => b"repeated",
        Reason::Limit => b"limit",
        Reason::End => b"end",
        Reason::Long => b"long",
    }
}

/// The line `refused LINE REASON`. LINE is the number of the first bad line, from 1 on, or 0 where the text is too long.
#[tactic(auto, using(user_io::proofs::Texts::two))]
fn refusal_line(alloc: Global, refusal: Refusal) -> Result<Vec<u8>, AllocError>
    ensures { IfOk result (λ text. text.items ≡ refusal_text refusal) }
{
    let mut text = Vec::new(alloc);
    put_text(&mut text, b"refused")?;
    put_operand(&mut text, u64::from(refusal.line))?;
    put_text(&mut text, b" ")?;
    put_text(&mut text, reason_word(refusal.reason))?;
    put_text(&mut text, b"\n")?;
    Ok(text)
}

/// Says where and why the input is refused. After want of memory nothing was written.
pub fn refuse<K: Sink>(alloc: Global, refusal: Refusal, sink: &mut K) -> Status
    ensures written { Refuses refusal (K.holds sink.old) (K.holds sink.new) (K.faults sink.old) (K.faults sink.new) result }
    ensures whole { IsWhole result → K.faults sink.new ≡ K.faults sink.old }
{
    let Ok(text) = refusal_line(alloc, refusal) else {
        return Status::Memory;
    };
    match write_all(sink, &text) {
        Ok(()) => Status::Script,
        Err(_) => Status::WriteFault,
    }
}
