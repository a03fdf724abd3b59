//! The part of thread 1: its window's procedure connects; then it asks, and takes the replies.

ghost use Rattle.std.specs.Prelude.{◌≡◌, IfOk};
ghost use Rattle.user_desk.specs.Desks.{IsDeskSeat};

use crate::conversation::{ASKS, CLIENT, SERVER, get, post, post_of};
use crate::opening;
use dde_talk::{Ask, Client, Event, OpenState};
use std::alloc::{AllocError, Global};
use std::sync::Wait;
use user_desk::{Desk, DeskSeat};
use user_model::{Answer, Call, Machine};
use win_num::Filter;

/// The message by which the client's window is told to connect: WM_USER.
const WM_USER: u32 = 1024;

/// Messages of that number to the client's window.
const ORDERS: Filter = Filter {
    hwnd: 16,
    min: 1024,
    max: 1024,
};

/// What the client came to.
#[derive(Drop)]
pub struct Talked {
    /// The result of its opening: 1 where the server has acknowledged.
    pub opened: u64,
    /// What each post came to that it took.
    pub events: Vec<Event>,
    /// Whether its end was posted and the server's was taken.
    pub closed: bool,
}

/// The procedure of the client's window: told to connect, it sends WM_DDE_INITIATE to the server's window.
fn procedure<M: Machine, R: Wait>(
    rt: &R,
    desk: &Desk<M>,
    seat: &mut DeskSeat<M>,
    number: u32,
) -> Result<u64, AllocError>
    requires { IsDeskSeat desk.now seat.old }
    ensures { IsDeskSeat desk.now seat.new }
{
    if number == WM_USER {
        opening::run(rt, desk, seat, OpenState::connect(CLIENT, SERVER))
    } else {
        Ok(0)
    }
}

/// Takes the message that tells its window to connect, and hands it to the procedure.
fn connect<M: Machine, R: Wait>(
    rt: &R,
    desk: &Desk<M>,
    seat: &mut DeskSeat<M>,
) -> Result<u64, AllocError>
    requires { IsDeskSeat desk.now seat.old }
    ensures { IsDeskSeat desk.now seat.new }
{
    desk.post_message(rt, seat, 16, u64::from(WM_USER), 0, 0)?;
    desk.get_message(rt, seat, ORDERS)?;
    let order = Call::Dispatch(16, u64::from(WM_USER), 0, 0);
    let Answer::Called(_) = desk.call(rt, seat, order)? else {
        return Ok(0);
    };
    let result = procedure(rt, desk, seat, WM_USER)?;
    desk.call(rt, seat, Call::Leave(result))?;
    Ok(result)
}

/// Posts the oldest message that the client has to say.
fn tell<M: Machine, R: Wait>(
    rt: &R,
    desk: &Desk<M>,
    seat: &mut DeskSeat<M>,
    client: &mut Client,
) -> Result<(), AllocError>
    requires { IsDeskSeat desk.now seat.old }
    ensures { IsDeskSeat desk.now seat.new }
{
    if let Some(message) = client.out() {
        post(rt, desk, seat, SERVER, message)?;
        client.posted();
    }
    Ok(())
}

/// Waits for a message of the server, and takes it.
fn hear<M: Machine, R: Wait>(
    rt: &R,
    desk: &Desk<M>,
    seat: &mut DeskSeat<M>,
    client: &mut Client,
) -> Result<Event, AllocError>
    requires { IsDeskSeat desk.now seat.old }
    ensures { IsDeskSeat desk.now seat.new }
{
    match get(rt, desk, seat, CLIENT)? {
        Answer::Got { msg, .. } => client.take(post_of(&msg)),
        _ => Ok(Event::Ignored),
    }
}

/// Asks for one thing, and takes the reply.
fn ask<M: Machine, R: Wait>(
    rt: &R,
    desk: &Desk<M>,
    seat: &mut DeskSeat<M>,
    client: &mut Client,
    ask: Ask,
) -> Result<Event, AllocError>
    requires { IsDeskSeat desk.now seat.old }
    ensures { IsDeskSeat desk.now seat.new }
{
    if client.ask(ask).is_err() {
        return Ok(Event::Ignored);
    }
    tell(rt, desk, seat, client)?;
    hear(rt, desk, seat, client)
}

/// Asks for all, one after the other.
fn ask_all<M: Machine, R: Wait>(
    rt: &R,
    alloc: Global,
    desk: &Desk<M>,
    seat: &mut DeskSeat<M>,
    client: &mut Client,
) -> Result<Vec<Event>, AllocError>
    requires { IsDeskSeat desk.now seat.old }
    ensures { IsDeskSeat desk.now seat.new }
{
    let mut events = Vec::new(alloc);
    for question in ASKS {
        events.push(ask(rt, desk, seat, client, question)?)?;
    }
    Ok(events)
}

/// Ends the conversation, and takes the server's end.
fn end<M: Machine, R: Wait>(
    rt: &R,
    desk: &Desk<M>,
    seat: &mut DeskSeat<M>,
    client: &mut Client,
) -> Result<Event, AllocError>
    requires { IsDeskSeat desk.now seat.old }
    ensures { IsDeskSeat desk.now seat.new }
{
    if client.terminate().is_err() {
        return Ok(Event::Ignored);
    }
    tell(rt, desk, seat, client)?;
    hear(rt, desk, seat, client)
}

/// Opens the conversation, asks for all, and ends it.
fn talk<M: Machine, R: Wait>(
    rt: &R,
    alloc: Global,
    desk: &Desk<M>,
    seat: &mut DeskSeat<M>,
    client: &mut Client,
) -> Result<Talked, AllocError>
    requires { IsDeskSeat desk.now seat.old }
    ensures { IsDeskSeat desk.now seat.new }
{
    let opened = connect(rt, desk, seat)?;
    let mut events = ask_all(rt, alloc, desk, seat, client)?;
    events.push(end(rt, desk, seat, client)?)?;
    let closed = client.closed();
    Ok(Talked {
        opened,
        events,
        closed,
    })
}

/// All of it.
pub fn run<M: Machine, R: Wait>(
    rt: &R,
    alloc: Global,
    desk: &Desk<M>,
    mut seat: DeskSeat<M>,
) -> Result<(DeskSeat<M>, Talked), AllocError>
    requires { IsDeskSeat desk.now seat }
    ensures { IfOk result (λ r. IsDeskSeat desk.now r.0) }
{
    let mut client = Client::new(alloc, CLIENT, SERVER);
    let talked = talk(rt, alloc, desk, &mut seat, &mut client);
    drop(client);
    Ok((seat, talked?))
}
