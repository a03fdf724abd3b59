//! Worked sequences of calls, made by one thread through the seats of two, at any machine.

ghost use Rattle.std.specs.Prelude.{◌≡◌};
ghost use Rattle.user_desk.specs.Desks.{IsDeskSeat};

use std::io::Print;
use std::sync::Wait;
use user_desk::{Desk, DeskSeat};
use user_model::{Call, Machine, Told};
use win_num::{Filter, SendId};

/// The message WM_USER.
const WM_USER: u64 = 1024;

/// Messages of the numbers from 1024 to 1279.
const SOME: Filter = Filter {
    hwnd: 0,
    min: 1024,
    max: 1279,
};

/// Every message of a thread.
const ALL: Filter = Filter {
    hwnd: 0,
    min: 0,
    max: 0,
};

/// The call that makes a window of the first class.
const NEW_WINDOW: Call = Call::NewWindow(0, 1, 0, 0, 0, 0, 0, 0, 0);

/// Makes the calls, and prints what each was answered.
fn make_all<M: Machine, R: Wait + Print>(
    rt: &R,
    desk: &Desk<M>,
    seat: &mut DeskSeat<M>,
    calls: &[Call],
) -> anyhow::Result<()>
    requires { IsDeskSeat desk.now seat.old }
    ensures { IsDeskSeat desk.now seat.new }
{
    for call in calls {
        let answer = desk.call(rt, seat, *call)?;
        println!(rt; "{answer:?}")?;
    }
    Ok(())
}

/// Posts messages of these numbers to the seat's own thread.
fn post_all<M: Machine, R: Wait + Print>(
    rt: &R,
    desk: &Desk<M>,
    seat: &mut DeskSeat<M>,
    numbers: &[u64],
) -> anyhow::Result<()>
    requires { IsDeskSeat desk.now seat.old }
    ensures { IsDeskSeat desk.now seat.new }
{
    for number in numbers {
        let answer = desk.post_message(rt, seat, 0, *number, 0, 0)?;
        println!(rt; "{answer:?}")?;
    }
    Ok(())
}

/// Gets a message by each of these filters.
fn get_all<M: Machine, R: Wait + Print>(
    rt: &R,
    desk: &Desk<M>,
    seat: &mut DeskSeat<M>,
    filters: &[Filter],
) -> anyhow::Result<()>
    requires { IsDeskSeat desk.now seat.old }
    ensures { IsDeskSeat desk.now seat.new }
{
    for filter in filters {
        let answer = desk.get_message(rt, seat, *filter)?;
        println!(rt; "{answer:?}")?;
    }
    Ok(())
}

/// Looks for a message by a filter, and removes it.
fn peek<M: Machine, R: Wait + Print>(
    rt: &R,
    desk: &Desk<M>,
    seat: &mut DeskSeat<M>,
    filter: Filter,
) -> anyhow::Result<()>
    requires { IsDeskSeat desk.now seat.old }
    ensures { IsDeskSeat desk.now seat.new }
{
    let answer = desk.peek_message(rt, seat, filter, 1)?;
    println!(rt; "{answer:?}")?;
    Ok(())
}

/// Messages leave in posted order within a filter, and quit comes once none is left.
pub fn filters<M: Machine, R: Wait + Print>(
    rt: &R,
    desk: &Desk<M>,
    seat: &mut DeskSeat<M>,
) -> anyhow::Result<()>
    requires { IsDeskSeat desk.now seat.old }
    ensures { IsDeskSeat desk.now seat.new }
{
    make_all(rt, desk, seat, &[Call::Register(0, 0, 0), NEW_WINDOW])?;
    post_all(rt, desk, seat, &[1280, 1025, 1026])?;
    make_all(rt, desk, seat, &[Call::PostQuit(7)])?;
    get_all(rt, desk, seat, &[SOME, SOME])?;
    peek(rt, desk, seat, SOME)?;
    get_all(rt, desk, seat, &[ALL, SOME])
}

/// Sends a message to a window.
fn send<M: Machine, R: Wait + Print>(
    rt: &R,
    desk: &Desk<M>,
    seat: &mut DeskSeat<M>,
    hwnd: u64,
    number: u64,
    wparam: u64,
) -> anyhow::Result<()>
    requires { IsDeskSeat desk.now seat.old }
    ensures { IsDeskSeat desk.now seat.new }
{
    let answer = desk.send_message(rt, seat, hwnd, number, wparam, 0)?;
    println!(rt; "{answer:?}")?;
    Ok(())
}

/// Waits for the answer of a send, which has come or is served at once.
fn await_answer<M: Machine, R: Wait + Print>(
    rt: &R,
    desk: &Desk<M>,
    seat: &mut DeskSeat<M>,
    send: u32,
) -> anyhow::Result<()>
    requires { IsDeskSeat desk.now seat.old }
    ensures { IsDeskSeat desk.now seat.new }
{
    let answer = desk.await_send(rt, seat, SendId(send))?;
    println!(rt; "{answer:?}")?;
    Ok(())
}

/// Makes a call in a turn: what it was answered, or that the actor has no call to make.
fn turn<M: Machine, R: Wait + Print>(
    rt: &R,
    desk: &Desk<M>,
    seat: &mut DeskSeat<M>,
    call: Call,
) -> anyhow::Result<()>
    requires { IsDeskSeat desk.now seat.old }
    ensures { IsDeskSeat desk.now seat.new }
{
    match desk.turn(rt, seat, call)? {
        Told::Answered(answer) => println!(rt; "{answer:?}")?,
        Told::Barred => println!(rt; "barred")?,
    }
    Ok(())
}

/// Two threads, each with a window; the first waits for the answer of its send, and meanwhile serves a send back.
pub fn sends<M: Machine, R: Wait + Print>(
    rt: &R,
    desk: &Desk<M>,
    first: &mut DeskSeat<M>,
    second: &mut DeskSeat<M>,
) -> anyhow::Result<()>
    requires first { IsDeskSeat desk.now first.old }
    requires second { IsDeskSeat desk.now second.old }
    ensures first { IsDeskSeat desk.now first.new }
    ensures second { IsDeskSeat desk.now second.new }
{
    make_all(rt, desk, second, &[NEW_WINDOW])?;
    send(rt, desk, first, 17, WM_USER, 5)?;
    turn(rt, desk, first, Call::Await(1))?;
    turn(rt, desk, first, Call::Await(1))?;
    get_all(rt, desk, second, &[ALL])?;
    send(rt, desk, second, 16, 1025, 6)?;
    make_all(rt, desk, second, &[Call::Await(2)])?;
    await_answer(rt, desk, first, 1)?;
    make_all(rt, desk, first, &[Call::Leave(9), Call::Await(1)])?;
    await_answer(rt, desk, second, 2)?;
    make_all(rt, desk, second, &[Call::Leave(10)])?;
    await_answer(rt, desk, first, 1)
}
