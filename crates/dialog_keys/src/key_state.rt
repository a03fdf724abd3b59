//! A key at a dialog as a resumable state.

ghost use Rattle.std.specs.Prelude.{ℕ};
ghost use Rattle.script_tree.specs.Tree.{Tree};
ghost use Rattle.win_calls.specs.declared.compound.Got.{Got as Given};
ghost use Rattle.win_calls.specs.States.{Awaits};
ghost use Rattle.dialog_keys.specs.Traces.{Point, beginning, Handed};
ghost use Rattle.dialog_keys.specs.States.{Accepts, StandsAt, Leads};

use crate::key::DialogKey;
use crate::stage::Stage;
use crate::steps::goes_on;
use win_calls::{Got, Next};

/// A key at a dialog in the middle of its calls, as IsDialogMessage handles one (Microsoft, IsDialogMessage function;
/// the order of the controls by window number is this project's own). Tab, right and down move the focus forwards, Tab
/// with Shift, left and up backwards: `child_after` and `style_of` go over the children of the dialog, and then the
/// statement `set_focus` gives the focus to the next one that has WS_VISIBLE and not WS_DISABLED, round the end where
/// none is left. It ends with that window as `r`, or with 0 where there is none. Enter and Escape send WM_COMMAND with 1
/// or 2 and the window that has the focus to the dialog, and end with the send's result. Any other key ends with 0 and
/// no call. `err` is the number of a refused `child_after`, which ends it with 0, else that of the `set_focus` or the
/// `send`, else 0. It has a fixed size and takes no memory.
#[derive(Clone, Copy)]
pub struct KeyState {
    stage: Stage,
}

impl KeyState {
    /// The key before its first call.
    pub fn of(key: DialogKey) -> KeyState
        ensures stands { StandsAt result.stage (beginning key) }
        ensures accepts { Accepts result.stage Got.Start }
    {
        KeyState {
            stage: Stage::Fresh(key),
        }
    }

    /// What it asks for next, where that is handed in: `Start` at first, an answer after `Make`, a result
    /// after `Run`, and nothing after `Done`. The answer is one that `may_follow` the call.
    pub fn next(&mut self, got: Got) -> Next
        requires { Accepts self.old.stage got }
        ensures follows { (s : Tree) (n : ℕ) (p q : Point) → StandsAt self.old.stage p → Handed s n p got q → Leads s n q self.new.stage result }
        ensures accepts { (g : Given) → Awaits result g → Accepts self.new.stage g }
    {
        let step = goes_on(self.stage, got);
        self.stage = step.stage;
        step.next
    }
}
