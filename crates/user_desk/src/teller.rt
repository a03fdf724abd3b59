//! A desk and one of its seats, as the teller of that seat's actor.

ghost use Rattle.std.specs.Prelude.{◌≡◌, refl};
ghost use Rattle.std.proofs.Common.{◌∙◌};
ghost use Rattle.user_desk.specs.Tellers.{desk_view};
ghost use Rattle.user_desk.specs.Desks.{IsDeskSeat};

use crate::desk::{Desk, DeskSeat};
use std::alloc::AllocError;
use std::sync::Wait;
use user_model::{Call, Machine, Teller, Told};
use win_num::Thread;

/// Makes the calls of a seat's actor at a desk that others share. It serves that actor alone, where the seat is
/// one of the desk.
pub struct DeskTeller<'a, 's, R: Wait, M: Machine> {
    pub rt: &'a R,
    pub desk: &'a Desk<M>,
    pub seat: &'s mut DeskSeat<M>,
}

impl<'a, 's, R: Wait, M: Machine> Teller for DeskTeller<'a, 's, R, M> {
    ghost view = { λ t. desk_view (M.setup t.desk.now.opening.machine) (M.past t.desk.now.opening.machine) t.seat.now };

    ghost serves = { λ t who. IsDeskSeat t.desk.now t.seat.now × (who ≡ t.seat.now.number) };

    ghost is_still = { λ a b. (b.desk ≡ a.desk) × (b.seat.ghost_name ≡ a.seat.ghost_name) };

    ghost still_itself = { λ a. (refl, refl) };

    ghost still_along = { λ a b c first second. (second.0 ∙ first.0, second.1 ∙ first.1) };

    fn turn(&mut self, _who: Thread, call: Call) -> Result<Told, AllocError> {
        self.desk.turn(self.rt, self.seat, call)
    }
}
