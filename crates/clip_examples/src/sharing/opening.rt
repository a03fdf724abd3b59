//! How the desk and the clipboard's lock are opened, and their seats.

ghost use Rattle.std.specs.Prelude.{◌≡◌, ◌≤◌, length, IfOk};
ghost use Rattle.turn_lock.specs.Seats.{IsSeatOf, new_seats};
ghost use Rattle.user_desk.specs.Desks.{IsDeskSeat};
ghost use Rattle.user_model.specs.Legal.{IsLawful};

use crate::sharing::{ClipSeat, SharedClip};
use clip_board::Clip;
use std::alloc::Global;
use turn_lock::TurnLock;
use user_desk::{Desk, DeskSeat};
use user_model::Machine;

/// A desk for two threads at a machine with a legal past, with its seats.
pub fn open_desk<M: Machine + Drop>(
    alloc: Global,
    machine: M,
) -> anyhow::Result<(Desk<M>, Vec<DeskSeat<M>>)>
    requires legal { (length (M.past machine) ≤ 2097152) × IsLawful (M.setup machine) (M.past machine) }
    ensures count { IfOk result (λ r. r.0.seats ≡ 3) }
    ensures seats { IfOk result (λ r. r.1.items ≡ new_seats r.0 3) }
{
    match Desk::new(alloc, machine, 2) {
        Ok(opened) => Ok(opened),
        Err(_) => anyhow::bail!("no memory for the desk"),
    }
}

/// A new clipboard under a lock, with its seats.
pub fn open_clip(alloc: Global) -> anyhow::Result<(SharedClip, Vec<ClipSeat>)>
    ensures { IfOk result (λ r. r.1.items ≡ new_seats r.0 3) }
{
    match TurnLock::new(alloc, Clip::new(alloc), 3) {
        Ok(opened) => Ok(opened),
        Err(_) => anyhow::bail!("no memory for the clipboard"),
    }
}

/// The seats of the clock and of two threads at the desk.
pub fn desk_seats<M: Machine>(
    desk: &Desk<M>,
    mut seats: Vec<DeskSeat<M>>,
) -> (DeskSeat<M>, DeskSeat<M>, DeskSeat<M>)
    requires seats { seats.items ≡ new_seats desk.now 3 }
    requires count { desk.now.seats ≡ 3 }
    ensures clock { IsDeskSeat desk.now result.0 }
    ensures first { IsDeskSeat desk.now result.1 }
    ensures second { IsDeskSeat desk.now result.2 }
{
    let second = seats.pop().unwrap();
    let first = seats.pop().unwrap();
    let clock = seats.pop().unwrap();
    (clock, first, second)
}

/// The seats of nobody and of two threads at the clipboard.
pub fn clip_seats(clip: &SharedClip, mut places: Vec<ClipSeat>) -> (ClipSeat, ClipSeat, ClipSeat)
    requires { places.items ≡ new_seats clip.now 3 }
    ensures nobody { IsSeatOf clip.now result.0 }
    ensures first { IsSeatOf clip.now result.1 × (result.1.number ≡ 1) }
    ensures second { IsSeatOf clip.now result.2 × (result.2.number ≡ 2) }
{
    let second = places.pop().unwrap();
    let first = places.pop().unwrap();
    let nobody = places.pop().unwrap();
    (nobody, first, second)
}
