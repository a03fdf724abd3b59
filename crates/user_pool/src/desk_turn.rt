//! The turn of a thread at a desk.

ghost use Rattle.std.specs.Prelude.{◌≡◌, OnOk};
ghost use Rattle.script_proc.specs.Workers.{thread_of};
ghost use Rattle.user_pool.specs.Teams.{IsSeated, KeepsWorking};

use script_proc::{Program, Turn, Worker};
use std::alloc::AllocError;
use std::sync::Wait;
use user_desk::{Desk, DeskSeat, DeskTeller};
use user_model::Machine;

/// Gives a thread one turn at the desk, through its seat there. `AllocError` comes only for want of memory.
pub fn take_turn<R: Wait, M: Machine>(
    rt: &R,
    desk: &Desk<M>,
    program: &Program,
    worker: &mut Worker,
    seat: &mut DeskSeat<M>,
) -> Result<Turn, AllocError>
    requires seated { IsSeated desk.now worker.old seat.old }
    ensures seated { IsSeated desk.now worker.new seat.new }
    ensures thread { thread_of worker.new ≡ thread_of worker.old }
    ensures works { OnOk result (KeepsWorking program.now (M.setup desk.now.opening.machine) (M.past desk.now.opening.machine) worker.old worker.new seat.old seat.new) }
{
    let mut teller = DeskTeller { rt, desk, seat };
    let turn = worker.turn(program, &mut teller);
    let DeskTeller {
        rt: _,
        desk: _,
        seat: _,
    } = teller;
    turn
}
