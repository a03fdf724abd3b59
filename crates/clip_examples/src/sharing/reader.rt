//! The part of thread 2: it waits until a text is offered, and asks for it.

ghost use Rattle.std.specs.Prelude.{◌≡◌, IfOk, IfSome};
ghost use Rattle.clip_board.specs.Traces.{Awaits};
ghost use Rattle.turn_lock.specs.Seats.{IsSeatOf};
ghost use Rattle.user_desk.specs.Desks.{IsDeskSeat};

use crate::sharing::{ALL, CF_UNICODETEXT, ClipSeat, SharedClip};
use clip_board::{ClipCall, ClipGot, ClipNext, GetState, may_answer};
use std::alloc::AllocError;
use std::sync::Wait;
use user_desk::{Desk, DeskSeat};
use user_model::{Answer, Call, Machine};
use win_calls::{Got, Next, may_follow};
use win_num::{Hwnd, SendId, Thread};

/// How many steps a get has here at most.
const STEPS: u32 = 100;

/// What a get came to.
#[derive(Clone, Copy, Debug, PartialEq, Eq)]
pub enum Pasted {
    /// It ended with these values of `r` and `err`.
    Ended { r: u64, err: u16 },
    /// It didn't end: the machine or the clipboard isn't lawful.
    Unfinished,
}

/// Makes a call of the clipboard that a get asks for, and gives what the get is handed then.
fn ask_clip<R: Wait>(
    rt: &R,
    clip: &SharedClip,
    place: &mut ClipSeat,
    call: ClipCall,
) -> Result<Option<ClipGot>, AllocError>
    requires { IsSeatOf clip.now place.old × (place.old.number ≡ 2) }
    ensures place { IsSeatOf clip.now place.new × (place.new.number ≡ 2) }
    ensures got { IfOk result (λ got. IfSome got (Awaits (ClipNext.Clip call))) }
{
    let answer = clip.run(rt, place, (Thread(2), call))?;
    if !may_answer(&call, &answer) {
        return Ok(None);
    }
    Ok(Some(ClipGot::Clip(answer)))
}

/// Makes a call of the machine; a wait for the answer of a send lasts until it is there.
fn make<M: Machine, R: Wait>(
    rt: &R,
    desk: &Desk<M>,
    seat: &mut DeskSeat<M>,
    call: Call,
) -> Result<Answer, AllocError>
    requires { IsDeskSeat desk.now seat.old }
    ensures { IsDeskSeat desk.now seat.new }
{
    match call {
        Call::Await(send) => {
            let send = u32::try_from(send).unwrap_or(0);
            desk.await_send(rt, seat, SendId(send))
        }
        _ => desk.call(rt, seat, call),
    }
}

/// Does what the send of a get asks for, and gives what it is handed then. Thread 2 has no window, so no procedure has to run.
fn ask_machine<M: Machine, R: Wait>(
    rt: &R,
    desk: &Desk<M>,
    seat: &mut DeskSeat<M>,
    next: Next,
) -> Result<Option<ClipGot>, AllocError>
    requires { IsDeskSeat desk.now seat.old }
    ensures seat { IsDeskSeat desk.now seat.new }
    ensures got { IfOk result (λ got. IfSome got (Awaits (ClipNext.User next))) }
{
    let Next::Make(call) = next else {
        return Ok(None);
    };
    let answer = make(rt, desk, seat, call)?;
    if !may_follow(&call, &answer) {
        return Ok(None);
    }
    Ok(Some(ClipGot::User(Got::Answered(answer))))
}

/// Does what a get asks for, and gives what it is handed then. None comes where it has ended.
fn carry_out<M: Machine, R: Wait>(
    rt: &R,
    desk: &Desk<M>,
    clip: &SharedClip,
    seat: &mut DeskSeat<M>,
    place: &mut ClipSeat,
    next: ClipNext,
) -> Result<Option<ClipGot>, AllocError>
    requires seat { IsDeskSeat desk.now seat.old }
    requires place { IsSeatOf clip.now place.old × (place.old.number ≡ 2) }
    ensures seat { IsDeskSeat desk.now seat.new }
    ensures place { IsSeatOf clip.now place.new × (place.new.number ≡ 2) }
    ensures got { IfOk result (λ got. IfSome got (Awaits next)) }
{
    match next {
        ClipNext::Clip(call) => ask_clip(rt, clip, place, call),
        ClipNext::User(next) => ask_machine(rt, desk, seat, next),
    }
}

/// What a get came to that asks for this last.
fn end_of(next: ClipNext) -> Pasted {
    match next {
        ClipNext::User(Next::Done { r, err }) => Pasted::Ended { r, err },
        _ => Pasted::Unfinished,
    }
}

/// Gets the text.
fn get<M: Machine, R: Wait>(
    rt: &R,
    desk: &Desk<M>,
    clip: &SharedClip,
    seat: &mut DeskSeat<M>,
    place: &mut ClipSeat,
) -> Result<Pasted, AllocError>
    requires seat { IsDeskSeat desk.now seat.old }
    requires place { IsSeatOf clip.now place.old × (place.old.number ≡ 2) }
    ensures seat { IsDeskSeat desk.now seat.new }
    ensures place { IsSeatOf clip.now place.new × (place.new.number ≡ 2) }
{
    let mut state = GetState::of(CF_UNICODETEXT);
    let mut next = state.next(ClipGot::User(Got::Start));
    for _ in 0..STEPS {
        let Some(got) = carry_out(rt, desk, clip, seat, place, next)? else {
            break;
        };
        next = state.next(got);
    }
    Ok(end_of(next))
}

/// All of it, once a message says that a text is offered.
pub fn run<M: Machine, R: Wait>(
    rt: &R,
    desk: &Desk<M>,
    clip: &SharedClip,
    mut seat: DeskSeat<M>,
    mut place: ClipSeat,
) -> Result<(DeskSeat<M>, ClipSeat, Pasted), AllocError>
    requires seat { IsDeskSeat desk.now seat }
    requires place { IsSeatOf clip.now place × (place.number ≡ 2) }
    ensures { IfOk result (λ r. IsDeskSeat desk.now r.0 × IsSeatOf clip.now r.1) }
{
    desk.get_message(rt, &mut seat, ALL)?;
    clip.run(
        rt,
        &mut place,
        (Thread(2), ClipCall::Open { hwnd: Hwnd(0) }),
    )?;
    let pasted = get(rt, desk, clip, &mut seat, &mut place)?;
    clip.run(rt, &mut place, (Thread(2), ClipCall::Close))?;
    Ok((seat, place, pasted))
}
