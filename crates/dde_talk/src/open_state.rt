//! The opening of a conversation.

ghost use Rattle.std.specs.Prelude.{ℕ, List};
ghost use Rattle.script_tree.specs.Tree.{Tree};
ghost use Rattle.script_tree.specs.Pieces.{Piece, State, Going};
ghost use Rattle.script_tree.specs.declared.variables.Variables.{Variables};
ghost use Rattle.win_calls.specs.Table.{made, Handed};
ghost use Rattle.win_calls.specs.States.{StandsFor, Accepts, Awaits, Leads};
ghost use Rattle.dde_talk.specs.Openings.{initiate, acknowledge};

use crate::names::{WM_DDE_ACK, WM_DDE_INITIATE};
use user_model::Call;
use win_calls::{CallState, Got, Next};
use win_num::Hwnd;

/// The opening of a conversation in the middle of its calls. It has a fixed size and takes no memory.
#[derive(Clone, Copy)]
pub struct OpenState {
    state: CallState,
}

impl OpenState {
    /// The client's opening before its first call: the statement `send server WM_DDE_INITIATE client 0` (Microsoft, WM_DDE_INITIATE
    /// message).
    pub fn connect(client: Hwnd, server: Hwnd) -> OpenState
        ensures stands { (v : Variables) → StandsFor result.state.stage (made (initiate client server)) (Going v) }
        ensures accepts { Accepts result.state.stage Got.Start }
    {
        OpenState {
            state: CallState::of(Call::Send(
                u64::from(server.0),
                u64::from(WM_DDE_INITIATE),
                u64::from(client.0),
                0,
            )),
        }
    }

    /// The server's answer to it before its first call, to be made inside of the server's procedure: the statement `send client
    /// WM_DDE_ACK server 0` (Microsoft, WM_DDE_ACK message).
    pub fn accept(server: Hwnd, client: Hwnd) -> OpenState
        ensures stands { (v : Variables) → StandsFor result.state.stage (made (acknowledge server client)) (Going v) }
        ensures accepts { Accepts result.state.stage Got.Start }
    {
        OpenState {
            state: CallState::of(Call::Send(
                u64::from(client.0),
                u64::from(WM_DDE_ACK),
                u64::from(server.0),
                0,
            )),
        }
    }

    /// What it asks for next, where that is handed in: `Start` at first, an answer after `Make`, a result after `Run`, and nothing
    /// after `Done`, whose `r` is the result of the send. The answer is one that `may_follow` the call.
    pub fn next(&mut self, got: Got) -> Next
        requires { Accepts self.old.state.stage got }
        ensures follows { (s : Tree) (n : ℕ) (ps qs : List Piece) (st sq : State) → StandsFor self.old.state.stage ps st → Handed s n ps st got qs sq → Leads s n qs sq self.new.state.stage result }
        ensures accepts { (g : Got) → Awaits result g → Accepts self.new.state.stage g }
    {
        self.state.next(got)
    }
}
