//! Laws of the packing and of the opening.

ghost use Rattle.std.specs.Prelude.{◌≡◌, ℕ, Some};
ghost use Rattle.win_num.specs.declared.message.Hwnd.{Hwnd};
ghost use Rattle.script_tree.specs.Pieces.{Going, Becomes};
ghost use Rattle.script_tree.specs.Steps.{statement};
ghost use Rattle.script_tree.specs.declared.variables.Variables.{Variables};
ghost use Rattle.win_calls.specs.Table.{made};
ghost use Rattle.dde_talk.specs.declared.message.Message.{Message};
ghost use Rattle.dde_talk.specs.declared.message.Post.{Post};
ghost use Rattle.dde_talk.specs.Openings.{acknowledge, acknowledges, initiate, initiates};
ghost use Rattle.dde_talk.specs.Packing.{packed, unpacked, Fits};

/// A message is what its post tells, and a post that tells a message is that message's own, of the window in its wParam.
pub fn packed_and_unpacked()
    ensures message { (w : Hwnd) (m : Message) → Fits m → unpacked (packed w m) ≡ Some m }
    ensures post { (p : Post) (m : Message) → unpacked p ≡ Some m → p ≡ packed (record { 0 = p.wparam }) m }
{}

/// The two states of an opening begin with the pieces that the table has for `send server WM_DDE_INITIATE client 0` and for `send client
/// WM_DDE_ACK server 0`.
pub fn opens_as_its_statement()
    ensures connect { (client server : Hwnd) (v : Variables) (n : ℕ) → statement (initiates client server) v n ≡ Becomes (made (initiate client server)) (Going v) }
    ensures accept { (server client : Hwnd) (v : Variables) (n : ℕ) → statement (acknowledges server client) v n ≡ Becomes (made (acknowledge server client)) (Going v) }
{}
