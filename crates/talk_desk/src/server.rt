//! The part of thread 2: its window's procedure accepts; then it takes what it is asked, and answers.

ghost use Rattle.std.specs.Prelude.{◌≡◌, IfOk};
ghost use Rattle.user_desk.specs.Desks.{IsDeskSeat};

use crate::conversation::{CLIENT, SERVER, get, post, post_of};
use crate::opening;
use dde_talk::names::WM_DDE_INITIATE;
use dde_talk::{OpenState, Server};
use std::alloc::AllocError;
use std::sync::Wait;
use user_desk::{Desk, DeskSeat};
use user_model::{Answer, Call, Machine};
use win_num::Msg;

/// How many messages the server is sent or posted at most.
const MESSAGES: u32 = 100;

/// The procedure of the server's window: at WM_DDE_INITIATE it acknowledges, by a send to the client's window, and gives 1.
fn procedure<M: Machine, R: Wait>(
    rt: &R,
    desk: &Desk<M>,
    seat: &mut DeskSeat<M>,
    number: u32,
) -> Result<u64, AllocError>
    requires { IsDeskSeat desk.now seat.old }
    ensures { IsDeskSeat desk.now seat.new }
{
    if number == WM_DDE_INITIATE {
        opening::run(rt, desk, seat, OpenState::accept(SERVER, CLIENT))
    } else {
        Ok(0)
    }
}

/// Takes a message, and posts what the server has to say to it.
fn serve<M: Machine, R: Wait>(
    rt: &R,
    desk: &Desk<M>,
    seat: &mut DeskSeat<M>,
    server: &mut Server,
    msg: &Msg,
) -> Result<(), AllocError>
    requires { IsDeskSeat desk.now seat.old }
    ensures { IsDeskSeat desk.now seat.new }
{
    server.take(post_of(msg))?;
    if let Some(message) = server.out() {
        post(rt, desk, seat, CLIENT, message)?;
        server.posted();
    }
    Ok(())
}

/// Waits for what comes next, a send or a message, and does what it asks for.
fn go_on<M: Machine, R: Wait>(
    rt: &R,
    desk: &Desk<M>,
    seat: &mut DeskSeat<M>,
    server: &mut Server,
) -> Result<(), AllocError>
    requires { IsDeskSeat desk.now seat.old }
    ensures { IsDeskSeat desk.now seat.new }
{
    match get(rt, desk, seat, SERVER)? {
        Answer::Enter { number, .. } => {
            let result = procedure(rt, desk, seat, number)?;
            desk.call(rt, seat, Call::Leave(result))?;
        }
        Answer::Got { msg, .. } => serve(rt, desk, seat, server, &msg)?,
        _ => {}
    }
    Ok(())
}

/// Does what comes, up to the end of the conversation. Tells whether it has come there.
fn serve_all<M: Machine, R: Wait>(
    rt: &R,
    desk: &Desk<M>,
    seat: &mut DeskSeat<M>,
    server: &mut Server,
) -> Result<bool, AllocError>
    requires { IsDeskSeat desk.now seat.old }
    ensures { IsDeskSeat desk.now seat.new }
{
    for _ in 0..MESSAGES {
        go_on(rt, desk, seat, server)?;
        if server.closed() {
            return Ok(true);
        }
    }
    Ok(false)
}

/// All of it. Tells whether the server's end was posted and the client's was taken.
pub fn run<M: Machine, R: Wait>(
    rt: &R,
    desk: &Desk<M>,
    mut seat: DeskSeat<M>,
    mut server: Server,
) -> Result<(DeskSeat<M>, bool), AllocError>
    requires { IsDeskSeat desk.now seat }
    ensures { IfOk result (λ r. IsDeskSeat desk.now r.0) }
{
    let is_closed = serve_all(rt, desk, &mut seat, &mut server);
    drop(server);
    Ok((seat, is_closed?))
}
