//! How a desk is opened and closed, and its seats.

ghost use Rattle.std.specs.Prelude.{◌≡◌, ◌+◌, ◌<◌, ◌≤◌, length, All, IfOk};
ghost use Rattle.turn_lock.specs.Seats.{new_seats};
ghost use Rattle.user_desk.specs.Desks.{IsDeskSeat};
ghost use Rattle.user_model.specs.Legal.{IsLawful};

use std::alloc::Global;
use user_desk::{Desk, DeskSeat};
use user_model::Machine;

/// A desk for so many threads at a machine with a legal past, with its seats.
pub fn open<M: Machine + Drop>(
    alloc: Global,
    machine: M,
    threads: u8,
) -> anyhow::Result<(Desk<M>, Vec<DeskSeat<M>>)>
    requires legal { (length (M.past machine) ≤ 2097152) × IsLawful (M.setup machine) (M.past machine) }
    ensures count { IfOk result (λ r. r.0.seats ≡ threads + 1) }
    ensures seats { IfOk result (λ r. r.1.items ≡ new_seats r.0 (threads + 1)) }
{
    match Desk::new(alloc, machine, threads) {
        Ok(opened) => Ok(opened),
        Err(_) => anyhow::bail!("no memory for the desk"),
    }
}

/// The seats of two threads. That of the clock is let go.
pub fn two<M: Machine>(desk: &Desk<M>, mut seats: Vec<DeskSeat<M>>) -> (DeskSeat<M>, DeskSeat<M>)
    requires seats { seats.items ≡ new_seats desk.now 3 }
    requires count { desk.now.seats ≡ 3 }
    ensures first { IsDeskSeat desk.now result.0 }
    ensures second { IsDeskSeat desk.now result.1 }
{
    let second = seats.pop().unwrap();
    let first = seats.pop().unwrap();
    (first, second)
}
