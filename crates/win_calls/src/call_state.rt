//! The state of a statement that is one call alone.

ghost use Rattle.std.specs.Prelude.{IsTrue, ℕ, List};
ghost use Rattle.script_tree.specs.Tree.{Tree};
ghost use Rattle.script_tree.specs.Pieces.{Piece, State, Going};
ghost use Rattle.script_tree.specs.declared.variables.Variables.{Variables};
ghost use Rattle.win_calls.specs.Table.{made, Handed};
ghost use Rattle.win_calls.specs.States.{StandsAlone, StandsFor, Accepts, Awaits, Leads};

use crate::compound::{Got, Next};
use crate::stage::{Around, Stage, Turn};
use crate::state::goes_on;
use user_model::Call;

/// A statement that is one call alone in the middle of it, as a `send`: the call, the wait for its answer, and the
/// procedures that run for it (Microsoft, SendMessage function). It has a fixed size and takes no memory.
#[derive(Clone, Copy)]
pub struct CallState {
    stage: Stage,
}

impl CallState {
    /// The statement of this call before the call is made. The call is one that `stands_alone`.
    pub fn of(call: Call) -> CallState
        requires { StandsAlone call }
        ensures stands { (v : Variables) → StandsFor result.stage (made call) (Going v) }
        ensures accepts { Accepts result.stage Got.Start }
    {
        CallState {
            stage: Stage::Ready(Turn {
                call,
                place: None,
                around: Around::Nobody,
                statement: call,
            }),
        }
    }

    /// What it asks for next, where that is handed in: `Start` at first, an answer after `Make`, a result
    /// after `Run`, and nothing after `Done`. The answer is one that `may_follow` the call.
    pub fn next(&mut self, got: Got) -> Next
        requires { Accepts self.old.stage got }
        ensures follows { (s : Tree) (n : ℕ) (ps qs : List Piece) (st sq : State) → StandsFor self.old.stage ps st → Handed s n ps st got qs sq → Leads s n qs sq self.new.stage result }
        ensures accepts { (g : Got) → Awaits result g → Accepts self.new.stage g }
    {
        let step = goes_on(self.stage, got);
        self.stage = step.stage;
        step.next
    }
}

/// Whether the call can be a statement of its own: each but `leave`, which ends a procedure, and `end_thread`, which
/// ends a thread.
pub fn stands_alone(call: &Call) -> bool
    ensures sound { IsTrue result → StandsAlone call.now }
    ensures complete { StandsAlone call.now → IsTrue result }
{
    match call {
        Call::Leave(_) => false,
        Call::EndThread => false,
        _ => true,
    }
}
