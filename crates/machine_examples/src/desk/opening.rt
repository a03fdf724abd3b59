//! How a desk is opened, and its seats.

ghost use Rattle.std.specs.Prelude.{◌≡◌, ◌≤◌, length, IfOk};
ghost use Rattle.turn_lock.specs.Seats.{new_seats};
ghost use Rattle.user_desk.specs.Desks.{IsDeskSeat};
ghost use Rattle.user_model.specs.Legal.{IsLawful};

use std::alloc::Global;
use user_desk::{Desk, DeskSeat};
use user_model::Machine;

/// A desk for two threads at a machine with a legal past, with its seats.
pub fn open_for_two<M: Machine + Drop>(
    alloc: Global,
    machine: M,
) -> anyhow::Result<(Desk<M>, Vec<DeskSeat<M>>)>
    requires legal { (length (M.past machine) ≤ 2097152) × IsLawful (M.setup machine) (M.past machine) }
    ensures count { IfOk result (λ r. r.0.seats ≡ 3) }
    ensures seats { IfOk result (λ r. r.1.items ≡ new_seats r.0 3) }
{
    match Desk::new(alloc, machine, 2) {
        Ok(opened) => Ok(opened),
        Err(_) => anyhow::bail!("no memory for the desk"),
    }
}

/// A desk for fifteen threads at a machine with a legal past, with its sixteen seats.
pub fn open_for_fifteen<M: Machine + Drop>(
    alloc: Global,
    machine: M,
) -> anyhow::Result<(Desk<M>, Vec<DeskSeat<M>>)>
    requires legal { (length (M.past machine) ≤ 2097152) × IsLawful (M.setup machine) (M.past machine) }
    ensures count { IfOk result (λ r. r.0.seats ≡ 16) }
    ensures seats { IfOk result (λ r. r.1.items ≡ new_seats r.0 16) }
{
    match Desk::new(alloc, machine, 15) {
        Ok(opened) => Ok(opened),
        Err(_) => anyhow::bail!("no memory for the desk"),
    }
}

/// The seats of the clock and of two threads.
pub fn three<M: Machine>(
    desk: &Desk<M>,
    mut seats: Vec<DeskSeat<M>>,
) -> (DeskSeat<M>, DeskSeat<M>, DeskSeat<M>)
    requires seats { seats.items ≡ new_seats desk.now 3 }
    requires count { desk.now.seats ≡ 3 }
    ensures clock { IsDeskSeat desk.now result.0 }
    ensures first { IsDeskSeat desk.now result.1 }
    ensures second { IsDeskSeat desk.now result.2 }
{
    let second = seats.pop().unwrap();
    let first = seats.pop().unwrap();
    let clock = seats.pop().unwrap();
    (clock, first, second)
}
