//! What a state at the clipboard is handed and what it asks for.

ghost use Rattle.std.specs.Prelude.{IsTrue};
ghost use Rattle.clip_board.specs.Traces.{MayAnswer};

use crate::entry::{ClipAnswer, ClipCall};
use win_calls::{Got, Next};

/// What a state at the clipboard asks for.
#[derive(Clone, Copy, Debug, PartialEq, Eq)]
pub enum ClipNext {
    /// This call of the clipboard is to be made.
    Clip(ClipCall),
    /// What a statement asks for of the machine, or the end. At the end `r` and `err` are what the state tells.
    User(Next),
}

/// What a state at the clipboard is handed.
#[derive(Clone, Copy, Debug, PartialEq, Eq)]
pub enum ClipGot {
    /// The clipboard's answer to the call that it asked for.
    Clip(ClipAnswer),
    /// What a statement is handed: `Start` at first, the machine's answer, or the result of a procedure.
    User(Got),
}

/// Whether the clipboard's answer may come to the call, as far as the states here ask: a `Get` is answered with a value,
/// an ask, nothing or a refusal, and an `Empty` with a window or a refusal. A clipboard gives no other answer.
pub fn may_answer(call: &ClipCall, answer: &ClipAnswer) -> bool
    ensures sound { IsTrue result → MayAnswer call.now answer.now }
    ensures complete { MayAnswer call.now answer.now → IsTrue result }
{
    match call {
        ClipCall::Get { .. } => !matches!(answer, ClipAnswer::Done | ClipAnswer::Was(_)),
        ClipCall::Empty => matches!(answer, ClipAnswer::Was(_) | ClipAnswer::Refused(_)),
        _ => false,
    }
}
