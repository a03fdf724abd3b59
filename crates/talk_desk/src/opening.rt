//! The opening of the conversation, by a thread at the desk.

ghost use Rattle.std.specs.Prelude.{◌≡◌, IfOk, IfSome};
ghost use Rattle.user_desk.specs.Desks.{IsDeskSeat};
ghost use Rattle.win_calls.specs.States.{Accepts, Awaits};

use dde_talk::OpenState;
use dde_talk::names::WM_DDE_ACK;
use std::alloc::AllocError;
use std::sync::Wait;
use user_desk::{Desk, DeskSeat};
use user_model::{Answer, Call, Machine};
use win_calls::{Got, Next, may_follow};
use win_num::SendId;

/// How many steps an opening has here at most.
const STEPS: u32 = 100;

/// How a window's procedure answers a message that it is sent while its thread waits: the client's acknowledges an acknowledgement.
fn answer(number: u32) -> u64 {
    if number == WM_DDE_ACK { 1 } else { 0 }
}

/// Makes a call of the machine; a wait for the answer of a send lasts until there is one.
fn make<M: Machine, R: Wait>(
    rt: &R,
    desk: &Desk<M>,
    seat: &mut DeskSeat<M>,
    call: Call,
) -> Result<Answer, AllocError>
    requires { IsDeskSeat desk.now seat.old }
    ensures { IsDeskSeat desk.now seat.new }
{
    match call {
        Call::Await(send) => {
            let send = u32::try_from(send).unwrap_or(0);
            desk.await_send(rt, seat, SendId(send))
        }
        _ => desk.call(rt, seat, call),
    }
}

/// Makes the call that an opening asks for, and gives what it is handed then. None comes where the machine isn't lawful.
fn ask_machine<M: Machine, R: Wait>(
    rt: &R,
    desk: &Desk<M>,
    seat: &mut DeskSeat<M>,
    call: Call,
) -> Result<Option<Got>, AllocError>
    requires { IsDeskSeat desk.now seat.old }
    ensures seat { IsDeskSeat desk.now seat.new }
    ensures got { IfOk result (λ got. IfSome got (Awaits (Next.Make call))) }
{
    let answer = make(rt, desk, seat, call)?;
    if may_follow(&call, &answer) {
        Ok(Some(Got::Answered(answer)))
    } else {
        Ok(None)
    }
}

/// Does what an opening asks for, and gives what it is handed then. None comes where it has ended.
fn carry_out<M: Machine, R: Wait>(
    rt: &R,
    desk: &Desk<M>,
    seat: &mut DeskSeat<M>,
    next: Next,
) -> Result<Option<Got>, AllocError>
    requires { IsDeskSeat desk.now seat.old }
    ensures seat { IsDeskSeat desk.now seat.new }
    ensures got { IfOk result (λ got. IfSome got (Awaits next)) }
{
    match next {
        Next::Make(call) => ask_machine(rt, desk, seat, call),
        Next::Run { number, .. } => Ok(Some(Got::Returned(answer(number)))),
        Next::Done { .. } => Ok(None),
    }
}

/// The result of an opening that asks for this last: 0 where it didn't end.
fn result_of(next: Next) -> u64 {
    match next {
        Next::Done { r, .. } => r,
        _ => 0,
    }
}

/// Runs an opening from its beginning to its end. It gives its result, which is 1 where the other side has answered so.
pub fn run<M: Machine, R: Wait>(
    rt: &R,
    desk: &Desk<M>,
    seat: &mut DeskSeat<M>,
    mut state: OpenState,
) -> Result<u64, AllocError>
    requires seat { IsDeskSeat desk.now seat.old }
    requires fresh { Accepts state.state.stage Got.Start }
    ensures { IsDeskSeat desk.now seat.new }
{
    let mut next = state.next(Got::Start);
    for _ in 0..STEPS {
        let Some(got) = carry_out(rt, desk, seat, next)? else {
            break;
        };
        next = state.next(got);
    }
    Ok(result_of(next))
}
