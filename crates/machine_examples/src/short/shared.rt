//! The shortest program with a desk: two threads share one machine. The first posts a message to the second, which waits for it.

ghost use Rattle.std.specs.Prelude.{◌≡◌, ◌≤◌, length, All, IfOk};
ghost use Rattle.std.specs.Thread.{IsSync};
ghost use Rattle.turn_lock.specs.Seats.{new_seats};
ghost use Rattle.user_desk.specs.Desks.{IsDeskSeat};
ghost use Rattle.user_model.specs.Legal.{IsLawful};

use std::alloc::{AllocError, Global};
use std::io::Print;
use std::sync::Wait;
use std::thread::{Threads, join};
use user_core::User;
use user_desk::{Desk, DeskSeat};
use user_model::{Answer, Call, Entry, Machine, Setup};
use win_num::Filter;

/// Every message of a thread.
const ALL: Filter = Filter {
    hwnd: 0,
    min: 0,
    max: 0,
};

/// The part of the first thread: it posts a message to thread 2.
fn post<M: Machine, R: Wait>(
    rt: &R,
    desk: &Desk<M>,
    mut seat: DeskSeat<M>,
) -> Result<DeskSeat<M>, AllocError>
    requires { IsDeskSeat desk.now seat }
    ensures { IfOk result (λ s. IsDeskSeat desk.now s) }
{
    desk.call(rt, &mut seat, Call::PostThread(2, 1024, 5, 6))?;
    Ok(seat)
}

/// The part of the second thread: it waits until there is a message.
fn get<M: Machine, R: Wait>(
    rt: &R,
    desk: &Desk<M>,
    mut seat: DeskSeat<M>,
) -> Result<DeskSeat<M>, AllocError>
    requires { IsDeskSeat desk.now seat }
    ensures { IfOk result (λ s. IsDeskSeat desk.now s) }
{
    desk.get_message(rt, &mut seat, ALL)?;
    Ok(seat)
}

/// Both parts beside each other, in threads of their own.
fn both<M: Machine + Send + Sync, R: Threads + Wait + Sync>(
    rt: &R,
    desk: &Desk<M>,
    first: DeskSeat<M>,
    second: DeskSeat<M>,
) -> Result<(DeskSeat<M>, DeskSeat<M>), AllocError>
    requires first { IsDeskSeat desk.now first }
    requires second { IsDeskSeat desk.now second }
    ensures { IfOk result (λ r. IsDeskSeat desk.now r.0 × IsDeskSeat desk.now r.1) }
{
    let (a, b) = join(
        rt,
        || -> Result<DeskSeat<M>, AllocError>
            requires { IsSync R.row × IsDeskSeat desk.now first }
            ensures { IfOk result (λ s. IsDeskSeat desk.entry.now s) }
        { post(rt, desk, first) },
        || -> Result<DeskSeat<M>, AllocError>
            requires { IsSync R.row × IsDeskSeat desk.now second }
            ensures { IfOk result (λ s. IsDeskSeat desk.entry.now s) }
        { get(rt, desk, second) },
    );
    Ok((a?, b?))
}

/// The seats of the clock and of two threads.
fn three<M: Machine>(
    desk: &Desk<M>,
    mut seats: Vec<DeskSeat<M>>,
) -> (DeskSeat<M>, DeskSeat<M>, DeskSeat<M>)
    requires seats { seats.items ≡ new_seats desk.now 3 }
    requires count { desk.now.seats ≡ 3 }
    ensures clock { IsDeskSeat desk.now result.0 }
    ensures first { IsDeskSeat desk.now result.1 }
    ensures second { IsDeskSeat desk.now result.2 }
{
    let second = seats.pop().unwrap();
    let first = seats.pop().unwrap();
    let clock = seats.pop().unwrap();
    (clock, first, second)
}

/// Hands each thread its seat, and takes them back. All seats come back.
fn work<M: Machine + Send + Sync, R: Threads + Wait + Sync>(
    rt: &R,
    alloc: Global,
    desk: &Desk<M>,
    seats: Vec<DeskSeat<M>>,
) -> anyhow::Result<Vec<DeskSeat<M>>>
    requires seats { seats.items ≡ new_seats desk.now 3 }
    requires count { desk.now.seats ≡ 3 }
    ensures { IfOk result (λ back. All (IsDeskSeat desk.now) back.items) }
{
    let (clock, first, second) = three(desk, seats);
    let (first, second) = both(rt, desk, first, second)?;
    Ok(vec![in alloc; clock, first, second]?)
}

/// A desk for two threads at a machine with a legal past, with its seats.
fn open<M: Machine + Drop>(alloc: Global, machine: M) -> anyhow::Result<(Desk<M>, Vec<DeskSeat<M>>)>
    requires legal { (length (M.past machine) ≤ 2097152) × IsLawful (M.setup machine) (M.past machine) }
    ensures count { IfOk result (λ r. r.0.seats ≡ 3) }
    ensures seats { IfOk result (λ r. r.1.items ≡ new_seats r.0 3) }
{
    match Desk::new(alloc, machine, 2) {
        Ok(opened) => Ok(opened),
        Err(_) => anyhow::bail!("no memory for the desk"),
    }
}

/// Closes the desk with all seats, and prints the one history of both threads.
fn close<M: Machine + Drop>(
    rt: &impl Print,
    desk: Desk<M>,
    seats: Vec<DeskSeat<M>>,
) -> anyhow::Result<()>
    requires { All (IsDeskSeat desk) seats.items }
{
    let Ok(machine) = desk.close(seats) else {
        anyhow::bail!("a seat is missing");
    };
    tell(rt, machine.history())
}

/// Prints the calls of a history but for those that wait: whether one did depends on who moved when.
fn tell(rt: &impl Print, history: &[Entry]) -> anyhow::Result<()> {
    for entry in history {
        if entry.answer != Answer::Wait {
            println!(rt; "{:?} = {:?}", entry.call, entry.answer)?;
        }
    }
    Ok(())
}

/// Opens a desk at a machine, lets both threads make their calls, and closes it.
fn run<M: Machine + Send + Sync + Drop, R: Threads + Wait + Sync + Print>(
    rt: &R,
    alloc: Global,
    machine: M,
) -> anyhow::Result<()>
    requires legal { (length (M.past machine) ≤ 2097152) × IsLawful (M.setup machine) (M.past machine) }
{
    let (desk, seats) = open(alloc, machine)?;
    let seats = work(rt, alloc, &desk, seats)?;
    close(rt, desk, seats)
}

/// Runs both threads at a new machine.
pub fn show<R: Threads + Wait + Sync + Print>(rt: &R, alloc: Global) -> anyhow::Result<()> {
    let machine = User::new(alloc, Setup::new(2, 8, 4))?;
    run(rt, alloc, machine)
}
