//! The state of a compound statement.

ghost use Rattle.std.specs.Prelude.{ℕ, List, [], ◌∷◌};
ghost use Rattle.script_tree.specs.Tree.{Tree};
ghost use Rattle.script_tree.specs.Pieces.{Piece, Settle, State, Going};
ghost use Rattle.script_tree.specs.Steps.{begun_over};
ghost use Rattle.script_tree.specs.declared.variables.Variables.{Variables};
ghost use Rattle.win_calls.specs.Table.{begun, Handed};
ghost use Rattle.win_calls.specs.States.{StandsFor, Accepts, Awaits, Leads, IsTurn, first_turn};

use crate::compound::{Compound, Got, Next};
use crate::ends::{asks, begins};
use crate::stage::{Around, Stage, Step, Turn};
use crate::turns::{answered, left, returned};
use script_tree::Begin;
use user_model::Call;

/// A compound statement in the middle of its calls. It has a fixed size and takes no memory.
#[derive(Clone, Copy)]
pub struct CompoundState {
    stage: Stage,
}

impl CompoundState {
    ghost use Rattle.std.specs.Prelude.{ℕ, List};

    /// The statement before its first call.
    pub fn of(compound: Compound) -> CompoundState
        ensures stands { (v : Variables) → StandsFor result.stage (begun compound) (Going v) }
        ensures accepts { Accepts result.stage Got.Start }
    {
        CompoundState {
            stage: Stage::Fresh(compound),
        }
    }

    /// A statement that begins so, before its first call; its end sets `r` and `err` by that call. The crates above
    /// make theirs so.
    pub fn of_begin(begin: Begin, settling: Call) -> CompoundState
        requires { IsTurn (first_turn begin Around.Nobody settling) }
        ensures stands { (v : Variables) → StandsFor result.stage (begun_over begin (Settle settling ∷ [])) (Going v) }
        ensures accepts { Accepts result.stage Got.Start }
    {
        CompoundState {
            stage: Stage::Ready(Turn {
                call: begin.call,
                place: Some(begin.place),
                around: Around::Nobody,
                statement: settling,
            }),
        }
    }

    /// What it asks for next, where that is handed in: `Start` at first, an answer after `Make`, a result
    /// after `Run`, and nothing after `Done`. The answer is one that `may_follow` the call.
    pub fn next(&mut self, got: Got) -> Next
        requires { Accepts self.old.stage got }
        ensures follows { (s : Tree) (n : ℕ) (ps qs : List Piece) (st sq : State) → StandsFor self.old.stage ps st → Handed s n ps st got qs sq → Leads s n qs sq self.new.stage result }
        ensures accepts { (g : Got) → Awaits result g → Accepts self.new.stage g }
    {
        let step = goes_on(self.stage, got);
        self.stage = step.stage;
        step.next
    }
}

/// Where a statement at that stage is led, and what it asks for there.
pub fn goes_on(stage: Stage, got: Got) -> Step
    requires { Accepts stage got }
    ensures follows { (s : Tree) (n : ℕ) (ps qs : List Piece) (st sq : State) → StandsFor stage ps st → Handed s n ps st got qs sq → Leads s n qs sq result.stage result.next }
    ensures accepts { (g : Got) → Awaits result.next g → Accepts result.stage g }
{
    match stage {
        Stage::Fresh(compound) => begins(compound),
        Stage::Ready(turn) => asks(turn),
        Stage::Asked(turn) => match got {
            Got::Answered(answer) => answered(turn, answer),
            _ => unreachable!(),
        },
        Stage::Running(turn, then, first) => match got {
            Got::Returned(value) => returned(turn, then, first, value),
            _ => unreachable!(),
        },
        Stage::Leaving(turn, then, first, value) => match got {
            Got::Answered(answer) => left(turn, then, first, value, answer),
            _ => unreachable!(),
        },
        Stage::Over => unreachable!(),
    }
}
