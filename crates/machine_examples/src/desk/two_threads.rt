//! A desk with two threads. First worked sequences of calls, whose answers are printed. Then the threads run beside each
//! other: each yields, posts the numbers below 100 to the other, and adds up what it gets. What is printed doesn't
//! depend on who moves when.

ghost use Rattle.std.specs.Prelude.{◌≡◌, ◌≤◌, length, All, IfOk};
ghost use Rattle.std.specs.Thread.{IsSync};
ghost use Rattle.turn_lock.specs.Seats.{new_seats};
ghost use Rattle.user_desk.specs.Desks.{IsDeskSeat};
ghost use Rattle.user_model.specs.Legal.{IsLawful};

use crate::desk::opening::{open_for_two, three};
use crate::desk::sequences;
use crate::desk::yields::yield_often;
use std::alloc::{AllocError, Global};
use std::io::Print;
use std::sync::Wait;
use std::thread::{Threads, join};
use user_desk::{Desk, DeskSeat};
use user_model::{Answer, Call, Entry, Machine};
use win_num::{Filter, Thread};

/// How many messages each thread posts to the other.
const POSTS: u64 = 100;

/// Every message of a thread.
const ALL: Filter = Filter {
    hwnd: 0,
    min: 0,
    max: 0,
};

/// Posts the numbers to another thread.
fn post_all<M: Machine, R: Wait>(
    rt: &R,
    desk: &Desk<M>,
    mut seat: DeskSeat<M>,
    to: u64,
) -> Result<DeskSeat<M>, AllocError>
    requires { IsDeskSeat desk.now seat }
    ensures { IfOk result (λ s. IsDeskSeat desk.now s) }
{
    for number in 0..POSTS {
        desk.call(rt, &mut seat, Call::PostThread(to, 1024, number, 0))?;
    }
    Ok(seat)
}

/// Gets as many messages, and adds up the numbers in them.
fn add_all<M: Machine, R: Wait>(
    rt: &R,
    desk: &Desk<M>,
    mut seat: DeskSeat<M>,
) -> Result<(DeskSeat<M>, u64), AllocError>
    requires { IsDeskSeat desk.now seat }
    ensures { IfOk result (λ r. IsDeskSeat desk.now r.0) }
{
    let mut sum = 0u64;
    for _ in 0..POSTS {
        if let Answer::Got { msg, .. } = desk.get_message(rt, &mut seat, ALL)? {
            sum = sum.saturating_add(msg.wparam);
        }
    }
    Ok((seat, sum))
}

/// The part of one thread, which ends with `end_thread`.
fn part<M: Machine, R: Wait>(
    rt: &R,
    desk: &Desk<M>,
    seat: DeskSeat<M>,
    other: u64,
) -> Result<(DeskSeat<M>, u64), AllocError>
    requires { IsDeskSeat desk.now seat }
    ensures { IfOk result (λ r. IsDeskSeat desk.now r.0) }
{
    let seat = yield_often(rt, desk, seat)?;
    let seat = post_all(rt, desk, seat, other)?;
    let (mut seat, sum) = add_all(rt, desk, seat)?;
    desk.call(rt, &mut seat, Call::EndThread)?;
    Ok((seat, sum))
}

/// How often a thread made `yield`.
fn yields(history: &[Entry], thread: u8) -> usize {
    history
        .iter()
        .filter(|entry| entry.who == Thread(thread) && entry.call == Call::Yield)
        .count()
}

/// Both threads beside each other: their seats and what each has added up.
fn both<M: Machine + Send + Sync, R: Threads + Wait + Sync>(
    rt: &R,
    desk: &Desk<M>,
    first: DeskSeat<M>,
    second: DeskSeat<M>,
) -> Result<((DeskSeat<M>, u64), (DeskSeat<M>, u64)), AllocError>
    requires first { IsDeskSeat desk.now first }
    requires second { IsDeskSeat desk.now second }
    ensures { IfOk result (λ r. IsDeskSeat desk.now r.0.0 × IsDeskSeat desk.now r.1.0) }
{
    let (a, b) = join(
        rt,
        || -> Result<(DeskSeat<M>, u64), AllocError>
            requires { IsSync R.row × IsDeskSeat desk.now first }
            ensures { IfOk result (λ r. IsDeskSeat desk.entry.now r.0) }
        { part(rt, desk, first, 2) },
        || -> Result<(DeskSeat<M>, u64), AllocError>
            requires { IsSync R.row × IsDeskSeat desk.now second }
            ensures { IfOk result (λ r. IsDeskSeat desk.entry.now r.0) }
        { part(rt, desk, second, 1) },
    );
    Ok((a?, b?))
}

/// The worked sequences, and then both threads. All seats come back.
fn work<M: Machine + Send + Sync, R: Threads + Wait + Sync + Print>(
    rt: &R,
    alloc: Global,
    desk: &Desk<M>,
    seats: Vec<DeskSeat<M>>,
) -> anyhow::Result<Vec<DeskSeat<M>>>
    requires seats { seats.items ≡ new_seats desk.now 3 }
    requires count { desk.now.seats ≡ 3 }
    ensures { IfOk result (λ back. All (IsDeskSeat desk.now) back.items) }
{
    let (clock, mut first, mut second) = three(desk, seats);
    sequences::filters(rt, desk, &mut first)?;
    sequences::sends(rt, desk, &mut first, &mut second)?;
    let ((first, first_sum), (second, second_sum)) = both(rt, desk, first, second)?;
    println!(rt; "sums {first_sum} {second_sum}")?;
    Ok(vec![in alloc; clock, first, second]?)
}

/// Closes the desk, and tells how often each thread made `yield`.
fn close<M: Machine + Drop>(
    rt: &impl Print,
    desk: Desk<M>,
    seats: Vec<DeskSeat<M>>,
) -> anyhow::Result<()>
    requires { All (IsDeskSeat desk) seats.items }
{
    let Ok(machine) = desk.close(seats) else {
        anyhow::bail!("a seat is missing");
    };
    let history = machine.history();
    println!(rt; "yields {} {}", yields(history, 1), yields(history, 2))?;
    Ok(())
}

/// A desk at a machine with a legal past, from its opening to its end.
pub fn run_desk<M: Machine + Send + Sync + Drop, R: Threads + Wait + Sync + Print>(
    rt: &R,
    alloc: Global,
    machine: M,
) -> anyhow::Result<()>
    requires legal { (length (M.past machine) ≤ 2097152) × IsLawful (M.setup machine) (M.past machine) }
{
    let (desk, seats) = open_for_two(alloc, machine)?;
    let seats = work(rt, alloc, &desk, seats)?;
    close(rt, desk, seats)
}
