//! The `yield` calls that a seat makes in a thread of its own.

ghost use Rattle.std.specs.Prelude.{◌≡◌, IfOk};
ghost use Rattle.user_desk.specs.Desks.{IsDeskSeat};

use std::alloc::AllocError;
use std::sync::Wait;
use user_desk::{Desk, DeskSeat};
use user_model::{Call, Machine};

/// How many calls each seat makes.
const CALLS: u64 = 100;

/// Makes `yield` so many times.
pub fn yield_often<M: Machine, R: Wait>(
    rt: &R,
    desk: &Desk<M>,
    mut seat: DeskSeat<M>,
) -> Result<DeskSeat<M>, AllocError>
    requires { IsDeskSeat desk.now seat }
    ensures { IfOk result (λ s. IsDeskSeat desk.now s) }
{
    for _ in 0..CALLS {
        desk.call(rt, &mut seat, Call::Yield)?;
    }
    Ok(seat)
}
