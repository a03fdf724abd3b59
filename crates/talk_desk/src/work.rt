//! Both threads beside each other, from the opening of the desk to the checks of its history.

ghost use Rattle.std.specs.Prelude.{◌≡◌, ◌≤◌, length, All, IfOk};
ghost use Rattle.std.specs.Thread.{IsSync};
ghost use Rattle.turn_lock.specs.Seats.{new_seats};
ghost use Rattle.user_desk.specs.Desks.{IsDeskSeat};
ghost use Rattle.user_model.specs.Legal.{IsLawful};

use crate::check::{is_answered_again, is_conversation};
use crate::client::Talked;
use crate::conversation::ASKS;
use crate::{client, server, sides};
use dde_talk::Server;
use std::alloc::{AllocError, Global};
use std::io::Print;
use std::sync::Wait;
use std::thread::{Threads, join};
use user_desk::{Desk, DeskSeat};
use user_model::{Answer, Call, Entry, Machine};

/// A window of class 0.
const NEW_WINDOW: Call = Call::NewWindow(0, 1, 0, 0, 0, 0, 0, 8, 4);

/// A desk for two threads at a machine with a legal past, with its seats.
fn open<M: Machine + Drop>(alloc: Global, machine: M) -> anyhow::Result<(Desk<M>, Vec<DeskSeat<M>>)>
    requires legal { (length (M.past machine) ≤ 2097152) × IsLawful (M.setup machine) (M.past machine) }
    ensures count { IfOk result (λ r. r.0.seats ≡ 3) }
    ensures seats { IfOk result (λ r. r.1.items ≡ new_seats r.0 3) }
{
    match Desk::new(alloc, machine, 2) {
        Ok(opened) => Ok(opened),
        Err(_) => anyhow::bail!("no memory for the desk"),
    }
}

/// The seats of the clock and of two threads.
fn three<M: Machine>(
    desk: &Desk<M>,
    mut seats: Vec<DeskSeat<M>>,
) -> (DeskSeat<M>, DeskSeat<M>, DeskSeat<M>)
    requires seats { seats.items ≡ new_seats desk.now 3 }
    requires count { desk.now.seats ≡ 3 }
    ensures clock { IsDeskSeat desk.now result.0 }
    ensures first { IsDeskSeat desk.now result.1 }
    ensures second { IsDeskSeat desk.now result.2 }
{
    let second = seats.pop().unwrap();
    let first = seats.pop().unwrap();
    let clock = seats.pop().unwrap();
    (clock, first, second)
}

/// Both sides have a window before their threads begin, the client the first one.
fn make_windows<M: Machine, R: Wait>(
    rt: &R,
    desk: &Desk<M>,
    first: &mut DeskSeat<M>,
    second: &mut DeskSeat<M>,
) -> Result<(), AllocError>
    requires first { IsDeskSeat desk.now first.old }
    requires second { IsDeskSeat desk.now second.old }
    ensures first { IsDeskSeat desk.now first.new }
    ensures second { IsDeskSeat desk.now second.new }
{
    desk.call(rt, first, Call::Register(0, 0, 0))?;
    desk.call(rt, first, NEW_WINDOW)?;
    desk.call(rt, second, NEW_WINDOW)?;
    Ok(())
}

/// Both threads, each in a thread of its own: their seats, what the client came to, and whether the server's end was posted and the
/// client's was taken.
fn both<M: Machine + Send + Sync, R: Threads + Wait + Sync>(
    rt: &R,
    alloc: Global,
    desk: &Desk<M>,
    first: DeskSeat<M>,
    second: DeskSeat<M>,
    server: Server,
) -> Result<((DeskSeat<M>, Talked), (DeskSeat<M>, bool)), AllocError>
    requires first { IsDeskSeat desk.now first }
    requires second { IsDeskSeat desk.now second }
    ensures { IfOk result (λ r. IsDeskSeat desk.now r.0.0 × IsDeskSeat desk.now r.1.0) }
{
    let (a, b) = join(
        rt,
        || -> Result<(DeskSeat<M>, Talked), AllocError>
            requires { IsSync R.row × IsDeskSeat desk.now first }
            ensures { IfOk result (λ r. IsDeskSeat desk.entry.now r.0) }
        { client::run(rt, alloc, desk, first) },
        || -> Result<(DeskSeat<M>, bool), AllocError>
            requires { IsSync R.row × IsDeskSeat desk.now second }
            ensures { IfOk result (λ r. IsDeskSeat desk.entry.now r.0) }
        { server::run(rt, desk, second, server) },
    );
    Ok((a?, b?))
}

/// Tells what each ask came to, and whether both sides have ended.
fn tell_talk(rt: &impl Print, talked: &Talked, is_server_closed: bool) -> anyhow::Result<()> {
    println!(rt; "opened: {}", talked.opened)?;
    for (ask, event) in ASKS.iter().zip(talked.events.iter()) {
        println!(rt; "{ask:?}: {event:?}")?;
    }
    println!(rt; "closed: {} {is_server_closed}", talked.closed)?;
    Ok(())
}

/// Hands each thread its seat, and takes them back. All seats come back.
fn work<M: Machine + Send + Sync, R: Threads + Wait + Sync + Print>(
    rt: &R,
    alloc: Global,
    desk: &Desk<M>,
    seats: Vec<DeskSeat<M>>,
) -> anyhow::Result<Vec<DeskSeat<M>>>
    requires seats { seats.items ≡ new_seats desk.now 3 }
    requires count { desk.now.seats ≡ 3 }
    ensures { IfOk result (λ back. All (IsDeskSeat desk.now) back.items) }
{
    let (clock, mut first, mut second) = three(desk, seats);
    make_windows(rt, desk, &mut first, &mut second)?;
    let server = sides::server(alloc)?;
    let ((first, talked), (second, is_closed)) = both(rt, alloc, desk, first, second, server)?;
    tell_talk(rt, &talked, is_closed)?;
    Ok(vec![in alloc; clock, first, second]?)
}

/// Tells the calls of a history but for those that wait: whether one did depends on who moved when.
fn tell_history(rt: &impl Print, history: &[Entry]) -> anyhow::Result<()> {
    for entry in history {
        if entry.answer != Answer::Wait {
            println!(rt; "{}: {:?} = {:?}", entry.who.0, entry.call, entry.answer)?;
        }
    }
    Ok(())
}

/// Checks a history: another machine must answer each call in the same way, and its posts must be those of the conversation.
fn check<M: Machine>(alloc: Global, again: &mut M, history: &[Entry]) -> anyhow::Result<()> {
    if !is_answered_again(again, history)? {
        anyhow::bail!("another machine answers otherwise");
    }
    let mut world = sides::world(alloc)?;
    let is_told = is_conversation(&mut world, history);
    drop(world);
    if !is_told? {
        anyhow::bail!("the posts aren't those of the conversation");
    }
    Ok(())
}

/// Closes the desk with all seats, tells the one history of both threads and checks it.
fn close<M: Machine + Drop, N: Machine + Drop>(
    rt: &impl Print,
    alloc: Global,
    desk: Desk<M>,
    seats: Vec<DeskSeat<M>>,
    mut again: N,
) -> anyhow::Result<()>
    requires { All (IsDeskSeat desk) seats.items }
{
    let Ok(machine) = desk.close(seats) else {
        anyhow::bail!("a seat is missing");
    };
    tell_history(rt, machine.history())?;
    check(alloc, &mut again, machine.history())?;
    println!(rt; "another machine answers so too, and the posts are those of the conversation")?;
    Ok(())
}

/// Opens a desk at a machine, lets both threads talk, and closes it. The other machine is a new one like it.
pub fn run<M: Machine + Send + Sync + Drop, N: Machine + Drop, R: Threads + Wait + Sync + Print>(
    rt: &R,
    alloc: Global,
    machine: M,
    again: N,
) -> anyhow::Result<()>
    requires legal { (length (M.past machine) ≤ 2097152) × IsLawful (M.setup machine) (M.past machine) }
{
    let (desk, seats) = open(alloc, machine)?;
    let seats = work(rt, alloc, &desk, seats)?;
    close(rt, alloc, desk, seats, again)
}
