//! The calls of a board's owner.

ghost use Rattle.std.specs.Prelude.{◌≡◌, false};
ghost use Rattle.status_board.specs.Owners.{is_status};
ghost use Rattle.board_examples.specs.Owners.{IsOwner};

use status_board::{BoardWriter, Published};
use std::alloc::AllocError;
use std::sync::Wait;
use user_desk::{Desk, DeskSeat};
use user_model::{Answer, Call, Machine};

/// Publishes the owner's status. The owner may publish again, whatever came of it.
pub fn publish<M: Machine, R: Wait>(
    rt: &R,
    desk: &Desk<M>,
    seat: &mut DeskSeat<M>,
    writer: &mut BoardWriter,
) -> Result<Published, AllocError>
    requires { IsOwner desk.now seat.old writer.old }
    ensures owner { IsOwner desk.now seat.new writer.new }
    ensures board { writer.new.board ≡ writer.old.board }
{
    writer.publish(rt, desk, seat)
}

/// Makes another call of the owner, who may publish afterwards.
pub fn make<M: Machine, R: Wait>(
    rt: &R,
    desk: &Desk<M>,
    seat: &mut DeskSeat<M>,
    writer: &BoardWriter,
    call: Call,
) -> Result<Answer, AllocError>
    requires owner { IsOwner desk.now seat.old writer.now }
    requires other { is_status call ≡ false }
    ensures { IsOwner desk.now seat.new writer.now }
{
    desk.call(rt, seat, call)
}
