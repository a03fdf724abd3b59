//! What is handed in and asked for, step by step.

ghost use Rattle.std.specs.Prelude.{IsTrue};
ghost use Rattle.win_calls.specs.States.{Awaits};

use win_calls::{Got, Next, may_follow};

/// What is handed in at each step, and what is asked for then.
pub type Steps = &'static [(Got, Next)];

/// Whether that may be handed in where this was asked for.
pub fn awaits(next: &Next, got: &Got) -> bool
    ensures { IsTrue result → Awaits next.now got.now }
{
    match got {
        Got::Start => false,
        Got::Returned(_) => match next {
            Next::Run { .. } => true,
            _ => false,
        },
        Got::Answered(answer) => match next {
            Next::Make(call) => may_follow(call, answer),
            _ => false,
        },
    }
}
