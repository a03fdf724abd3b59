//! Laws of the traces.

ghost use Rattle.std.specs.Prelude.{◌≡◌, ℕ};
ghost use Rattle.script_tree.specs.Tree.{Tree};
ghost use Rattle.clip_board.specs.declared.errand.Stage.{Stage};
ghost use Rattle.clip_board.specs.declared.moves.ClipGot.{ClipGot};
ghost use Rattle.clip_board.specs.declared.moves.ClipNext.{ClipNext};
ghost use Rattle.clip_board.specs.Traces.{Point, Handed, Comes, Accepts, StandsAt};

use win_calls::{can_be_handed, one_next};

/// From its point a trace comes to one call, procedure or end.
pub fn one_clip_next()
    ensures { (s : Tree) (n : ℕ) (p q r : Point) (x y : ClipNext) → Comes s n p x q → Comes s n p y r → x ≡ y }
{
    one_next();
}

/// Whatever a state at the clipboard accepts can be handed in at the point where it stands.
pub fn clip_can_be_handed()
    ensures { (s : Tree) (n : ℕ) (stage : Stage) (p : Point) (g : ClipGot) → StandsAt stage p → Accepts stage g → (q : Point) × Handed s n p g q }
{
    can_be_handed();
}
