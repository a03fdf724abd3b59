//! An `Empty` as a resumable state.

ghost use Rattle.std.specs.Prelude.{ℕ};
ghost use Rattle.script_tree.specs.Tree.{Tree};
ghost use Rattle.clip_board.specs.declared.errand.Errand.TheVariants.{Emptying};
ghost use Rattle.win_calls.specs.declared.compound.Got.TheVariants.{Start};
ghost use Rattle.clip_board.specs.declared.moves.ClipGot.{ClipGot as Handing};
ghost use Rattle.clip_board.specs.Traces.{Point, calling, Handed, Awaits, Accepts, StandsAt, Leads};

use crate::errand::{Errand, Stage, goes_on};
use crate::moves::{ClipGot, ClipNext};

/// The clipboard is emptied, and the window of the owner that there was is told: `Empty`, and where that owner had a
/// window the statement `send` of WM_DESTROYCLIPBOARD to it (Microsoft, EmptyClipboard function). It ends with 1 as `r`
/// and err 0, or with 0 and the number of a refusal. It has a fixed size and takes no memory.
#[derive(Clone, Copy)]
pub struct EmptyState {
    stage: Stage,
}

impl EmptyState {
    /// An `Empty` before its call.
    pub fn of() -> EmptyState
        ensures stands { StandsAt result.stage (calling Emptying) }
        ensures accepts { Accepts result.stage (ClipGot.User Start) }
    {
        EmptyState {
            stage: Stage::Fresh(Errand::Emptying),
        }
    }

    /// What it asks for next, where that is handed in: `User(Start)` at first, an answer of the clipboard that
    /// `may_answer` after its call there, and what its send asks for as of any statement. Nothing after `Done`.
    pub fn next(&mut self, got: ClipGot) -> ClipNext
        requires { Accepts self.old.stage got }
        ensures follows { (s : Tree) (n : ℕ) (p q : Point) → StandsAt self.old.stage p → Handed s n p got q → Leads s n q self.new.stage result }
        ensures accepts { (g : Handing) → Awaits result g → Accepts self.new.stage g }
    {
        let step = goes_on(self.stage, got);
        self.stage = step.stage;
        step.next
    }
}
