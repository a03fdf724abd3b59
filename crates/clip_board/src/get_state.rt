//! A get as a resumable state.

ghost use Rattle.std.specs.Prelude.{ℕ};
ghost use Rattle.script_tree.specs.Tree.{Tree};
ghost use Rattle.clip_board.specs.declared.errand.Errand.TheVariants.{Getting};
ghost use Rattle.win_calls.specs.declared.compound.Got.TheVariants.{Start};
ghost use Rattle.clip_board.specs.declared.moves.ClipGot.{ClipGot as Handing};
ghost use Rattle.clip_board.specs.Traces.{Point, calling, Handed, Awaits, Accepts, StandsAt, Leads};

use crate::errand::{Errand, Stage, goes_on};
use crate::moves::{ClipGot, ClipNext};

/// The data of a format is got, and rendered first where it is delayed: `Get`, and where that is told to ask the owner
/// the statement `send` of WM_RENDERFORMAT to its window and `Get` once more (Microsoft, GetClipboardData function). It
/// ends with the data as `r` and err 0, and else with 0 and the number of a refusal, 60003 where nothing is there, or
/// 60004 where the owner didn't render it. It has a fixed size and takes no memory.
#[derive(Clone, Copy)]
pub struct GetState {
    stage: Stage,
}

impl GetState {
    /// A get of that format before its first call.
    pub fn of(format: u32) -> GetState
        ensures stands { StandsAt result.stage (calling (Getting format)) }
        ensures accepts { Accepts result.stage (ClipGot.User Start) }
    {
        GetState {
            stage: Stage::Fresh(Errand::Getting(format)),
        }
    }

    /// What it asks for next, where that is handed in: `User(Start)` at first, an answer of the clipboard that
    /// `may_answer` after its call there, and what its send asks for as of any statement. Nothing after `Done`.
    pub fn next(&mut self, got: ClipGot) -> ClipNext
        requires { Accepts self.old.stage got }
        ensures follows { (s : Tree) (n : ℕ) (p q : Point) → StandsAt self.old.stage p → Handed s n p got q → Leads s n q self.new.stage result }
        ensures accepts { (g : Handing) → Awaits result g → Accepts self.new.stage g }
    {
        let step = goes_on(self.stage, got);
        self.stage = step.stage;
        step.next
    }
}
