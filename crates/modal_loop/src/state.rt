//! The state of a loop of messages.

ghost use Rattle.std.specs.Prelude.{ℕ, List};
ghost use Rattle.script_tree.specs.Tree.{Tree};
ghost use Rattle.script_tree.specs.Pieces.{Piece, State, Going};
ghost use Rattle.script_tree.specs.declared.variables.Variables.{Variables};
ghost use Rattle.win_calls.specs.Table.{Handed};
ghost use Rattle.win_calls.specs.States.{StandsFor, Accepts, Awaits, Leads};
ghost use Rattle.modal_loop.specs.Loops.{pump_pieces, dialog_pieces};

use script_tree::Begin;
use user_model::Call;
use win_calls::{CompoundState, Got, Next};

/// A loop of messages in the middle of its calls. It has a fixed size and takes no memory.
#[derive(Clone, Copy)]
pub struct LoopState {
    state: CompoundState,
}

impl LoopState {
    /// `pump` before its first call: it hands each message to its window's procedure until WM_QUIT comes (Microsoft,
    /// GetMessage, TranslateMessage and DispatchMessage functions).
    pub fn pump() -> LoopState
        ensures stands { (v : Variables) → StandsFor result.state.stage pump_pieces (Going v) }
        ensures accepts { Accepts result.state.stage Got.Start }
    {
        LoopState {
            state: CompoundState::of_begin(Begin::pumping(), Call::Dispatch(0, 0, 0, 0)),
        }
    }

    /// `dialog` on the window of this number, before its first call: the same until the dialog has its result, with
    /// the window's owner disabled (Microsoft, DialogBox function).
    pub fn dialog(w: u64) -> LoopState
        ensures stands { (v : Variables) → StandsFor result.state.stage (dialog_pieces w) (Going v) }
        ensures accepts { Accepts result.state.stage Got.Start }
    {
        LoopState {
            state: CompoundState::of_begin(Begin::dialog(w), Call::BeginDialog(w)),
        }
    }

    /// What it asks for next, where that is handed in: `Start` at first, an answer after `Make`, a result after
    /// `Run`, and nothing after `Done`. The answer is one that `may_follow` the call.
    pub fn next(&mut self, got: Got) -> Next
        requires { Accepts self.old.state.stage got }
        ensures follows { (s : Tree) (n : ℕ) (ps qs : List Piece) (st sq : State) → StandsFor self.old.state.stage ps st → Handed s n ps st got qs sq → Leads s n qs sq self.new.state.stage result }
        ensures accepts { (g : Got) → Awaits result g → Accepts self.new.state.stage g }
    {
        self.state.next(got)
    }
}
