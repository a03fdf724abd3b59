//! Both threads beside each other, from the opening to the end.

ghost use Rattle.std.specs.Prelude.{◌≡◌, ◌≤◌, length, All, IfOk};
ghost use Rattle.std.specs.Thread.{IsSync};
ghost use Rattle.turn_lock.specs.Seats.{IsSeatOf, new_seats};
ghost use Rattle.user_desk.specs.Desks.{IsDeskSeat};
ghost use Rattle.user_model.specs.Legal.{IsLawful};

use crate::sharing::closing::{close_clip, close_desk, tell_pasted};
use crate::sharing::opening::{clip_seats, desk_seats, open_clip, open_desk};
use crate::sharing::reader::Pasted;
use crate::sharing::{ClipSeat, SharedClip, owner, reader};
use std::alloc::{AllocError, Global};
use std::io::Print;
use std::sync::Wait;
use std::thread::{Threads, join};
use user_desk::{Desk, DeskSeat};
use user_model::Machine;

/// The seats of a thread, at the desk and at the clipboard.
type Both<M> = (DeskSeat<M>, ClipSeat);

/// Both threads, each in a thread of its own. Their seats come back.
fn run_both<M: Machine + Send + Sync, R: Threads + Wait + Sync>(
    rt: &R,
    desk: &Desk<M>,
    clip: &SharedClip,
    first: Both<M>,
    second: Both<M>,
) -> Result<(Both<M>, (DeskSeat<M>, ClipSeat, Pasted)), AllocError>
    requires first { IsDeskSeat desk.now first.0 × IsSeatOf clip.now first.1 × (first.1.number ≡ 1) }
    requires second { IsDeskSeat desk.now second.0 × IsSeatOf clip.now second.1 × (second.1.number ≡ 2) }
    ensures first { IfOk result (λ r. IsDeskSeat desk.now r.0.0 × IsSeatOf clip.now r.0.1) }
    ensures second { IfOk result (λ r. IsDeskSeat desk.now r.1.0 × IsSeatOf clip.now r.1.1) }
{
    let (seat, place) = first;
    let (other_seat, other_place) = second;
    let (a, b) = join(
        rt,
        || -> Result<(DeskSeat<M>, ClipSeat), AllocError>
            requires { IsSync R.row × IsDeskSeat desk.now seat × IsSeatOf clip.now place × (place.number ≡ 1) }
            ensures { IfOk result (λ r. IsDeskSeat desk.entry.now r.0 × IsSeatOf clip.entry.now r.1) }
        { owner::run(rt, desk, clip, seat, place) },
        || -> Result<(DeskSeat<M>, ClipSeat, Pasted), AllocError>
            requires { IsSync R.row × IsDeskSeat desk.now other_seat × IsSeatOf clip.now other_place × (other_place.number ≡ 2) }
            ensures { IfOk result (λ r. IsDeskSeat desk.entry.now r.0 × IsSeatOf clip.entry.now r.1) }
        { reader::run(rt, desk, clip, other_seat, other_place) },
    );
    Ok((a?, b?))
}

/// Hands each thread its seats, and takes them back. All seats come back.
fn work<M: Machine + Send + Sync, R: Threads + Wait + Sync + Print>(
    rt: &R,
    alloc: Global,
    desk: &Desk<M>,
    clip: &SharedClip,
    seats: Vec<DeskSeat<M>>,
    places: Vec<ClipSeat>,
) -> anyhow::Result<(Vec<DeskSeat<M>>, Vec<ClipSeat>)>
    requires seats { seats.items ≡ new_seats desk.now 3 }
    requires count { desk.now.seats ≡ 3 }
    requires places { places.items ≡ new_seats clip.now 3 }
    ensures seats { IfOk result (λ r. All (IsDeskSeat desk.now) r.0.items) }
    ensures places { IfOk result (λ r. All (IsSeatOf clip.now) r.1.items) }
{
    let (clock, first, second) = desk_seats(desk, seats);
    let (nobody, owner, reader) = clip_seats(clip, places);
    let ((first, owner), (second, reader, pasted)) = run_both(
        rt,
        desk,
        clip,
        (first, owner),
        (second, reader),
    )?;
    tell_pasted(rt, pasted)?;
    let seats = vec![in alloc; clock, first, second]?;
    let places = vec![in alloc; nobody, owner, reader]?;
    Ok((seats, places))
}

/// Opens a desk at the machine and a clipboard, lets both threads run, and closes both.
pub fn run<M: Machine + Send + Sync + Drop, R: Threads + Wait + Sync + Print>(
    rt: &R,
    alloc: Global,
    machine: M,
) -> anyhow::Result<()>
    requires legal { (length (M.past machine) ≤ 2097152) × IsLawful (M.setup machine) (M.past machine) }
{
    let (desk, seats) = open_desk(alloc, machine)?;
    let (clip, places) = open_clip(alloc)?;
    let (seats, places) = work(rt, alloc, &desk, &clip, seats, places)?;
    close_desk(rt, desk, seats)?;
    close_clip(rt, clip, places)
}
