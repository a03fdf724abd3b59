//! Laws of the traces.

ghost use Rattle.std.specs.Prelude.{◌≡◌, ℕ, Bool, List};
ghost use Rattle.win_num.specs.declared.message.Thread.{Thread};
ghost use Rattle.user_model.specs.declared.entry.Setup.{Setup};
ghost use Rattle.user_model.specs.Past.{Past};
ghost use Rattle.user_model.specs.Legal.{IsLawful};
ghost use Rattle.script_tree.specs.Tree.{Tree};
ghost use Rattle.win_calls.specs.declared.compound.Next.{Next};
ghost use Rattle.win_calls.specs.declared.compound.Got.{Got};
ghost use Rattle.dialog_keys.specs.declared.key.DialogKey.{DialogKey};
ghost use Rattle.dialog_keys.specs.declared.stage.Stage.{Stage};
ghost use Rattle.dialog_keys.specs.Controls.{open_controls, next_control};
ghost use Rattle.dialog_keys.specs.Traces.{Point, walked, Handed, Comes};
ghost use Rattle.dialog_keys.specs.States.{Accepts, StandsAt};
ghost use Rattle.dialog_keys.specs.Walks.{Walks};

use win_calls::{can_be_handed, one_next};

/// From its point a trace comes to one call, procedure or end.
pub fn one_key_next()
    ensures { (s : Tree) (n : ℕ) (p q r : Point) (x y : Next) → Comes s n p x q → Comes s n p y r → x ≡ y }
{
    one_next();
}

/// Whatever the state of a key accepts can be handed in at the point where it stands.
pub fn key_can_be_handed()
    ensures { (s : Tree) (n : ℕ) (stage : Stage) (p : Point) (g : Got) → StandsAt stage p → Accepts stage g → (q : Point) × Handed s n p g q }
{
    can_be_handed();
}

/// Where no other entry changes the children of the dialog or their styles during the walk, the children that it found
/// open are those that are open at its end, and so the next control among them is the one as the dialog stands there.
pub fn walk_sees_the_controls()
    ensures controls { (setup : Setup) (who : Thread) (k : DialogKey) (forwards : Bool) (past : Past) (ws : List ℕ) → IsLawful setup past → Walks who k forwards past (walked k forwards ws) → ws ≡ open_controls past k.dialog.0 }
    ensures next { (setup : Setup) (who : Thread) (k : DialogKey) (forwards : Bool) (past : Past) (ws : List ℕ) → IsLawful setup past → Walks who k forwards past (walked k forwards ws) → next_control forwards k.focus.0 ws ≡ next_control forwards k.focus.0 (open_controls past k.dialog.0) }
{}
