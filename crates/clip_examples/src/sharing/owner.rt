//! The part of thread 1: it offers a text delayed, and renders it when its window is asked to.

ghost use Rattle.std.specs.Prelude.{◌≡◌, IfOk};
ghost use Rattle.turn_lock.specs.Seats.{IsSeatOf};
ghost use Rattle.user_desk.specs.Desks.{IsDeskSeat};

use crate::sharing::{ALL, CF_UNICODETEXT, ClipSeat, SharedClip};
use clip_board::{ClipCall, WM_RENDERFORMAT};
use std::alloc::AllocError;
use std::sync::Wait;
use user_desk::{Desk, DeskSeat};
use user_model::{Answer, Call, Machine};
use win_num::{Hwnd, Thread};

/// The message WM_USER.
const WM_USER: u64 = 1024;

/// The window: the first of the machine, so its number is 16.
const NEW_WINDOW: Call = Call::NewWindow(0, 1, 0, 0, 0, 0, 0, 8, 4);

/// Offers the text, for the window.
fn offer<R: Wait>(rt: &R, clip: &SharedClip, place: &mut ClipSeat) -> Result<(), AllocError>
    requires { IsSeatOf clip.now place.old × (place.old.number ≡ 1) }
    ensures { IsSeatOf clip.now place.new × (place.new.number ≡ 1) }
{
    let format = CF_UNICODETEXT;
    clip.run(rt, place, (Thread(1), ClipCall::Open { hwnd: Hwnd(16) }))?;
    clip.run(rt, place, (Thread(1), ClipCall::Empty))?;
    clip.run(rt, place, (Thread(1), ClipCall::Delay { format }))?;
    clip.run(rt, place, (Thread(1), ClipCall::Close))?;
    Ok(())
}

/// The procedure of the window: it sets the format that it is asked for, and needn't open the clipboard for that (Microsoft,
/// WM_RENDERFORMAT message).
fn procedure<R: Wait>(
    rt: &R,
    clip: &SharedClip,
    place: &mut ClipSeat,
    number: u32,
    wparam: u64,
) -> Result<u64, AllocError>
    requires { IsSeatOf clip.now place.old × (place.old.number ≡ 1) }
    ensures { IsSeatOf clip.now place.new × (place.new.number ≡ 1) }
{
    if number == WM_RENDERFORMAT {
        let format = u32::try_from(wparam).unwrap_or(0);
        clip.run(rt, place, (Thread(1), ClipCall::Set { format, value: 1 }))?;
    }
    Ok(0)
}

/// Waits until the window is sent a message, and runs its procedure.
fn serve<M: Machine, R: Wait>(
    rt: &R,
    desk: &Desk<M>,
    clip: &SharedClip,
    seat: &mut DeskSeat<M>,
    place: &mut ClipSeat,
) -> Result<(), AllocError>
    requires seat { IsDeskSeat desk.now seat.old }
    requires place { IsSeatOf clip.now place.old × (place.old.number ≡ 1) }
    ensures seat { IsDeskSeat desk.now seat.new }
    ensures place { IsSeatOf clip.now place.new × (place.new.number ≡ 1) }
{
    if let Answer::Enter { number, wparam, .. } = desk.get_message(rt, seat, ALL)? {
        let result = procedure(rt, clip, place, number, wparam)?;
        desk.call(rt, seat, Call::Leave(result))?;
    }
    Ok(())
}

/// All of it. The message to thread 2 says that the text is offered.
pub fn run<M: Machine, R: Wait>(
    rt: &R,
    desk: &Desk<M>,
    clip: &SharedClip,
    mut seat: DeskSeat<M>,
    mut place: ClipSeat,
) -> Result<(DeskSeat<M>, ClipSeat), AllocError>
    requires seat { IsDeskSeat desk.now seat }
    requires place { IsSeatOf clip.now place × (place.number ≡ 1) }
    ensures { IfOk result (λ r. IsDeskSeat desk.now r.0 × IsSeatOf clip.now r.1) }
{
    desk.call(rt, &mut seat, Call::Register(0, 0, 0))?;
    desk.call(rt, &mut seat, NEW_WINDOW)?;
    offer(rt, clip, &mut place)?;
    desk.call(rt, &mut seat, Call::PostThread(2, WM_USER, 0, 0))?;
    serve(rt, desk, clip, &mut seat, &mut place)?;
    Ok((seat, place))
}
