//! The calls on dirty pixels, painting, colours and frames: what each answers, and its entry.

ghost use Rattle.std.specs.Prelude.{◌≡◌, ◌≤◌, ◌+◌, true, IfOk, OnOk, OnErr};
ghost use Rattle.core_deliver.specs.Groups.{is_drawing};
ghost use Rattle.user_model.specs.Idle.{reply};
ghost use Rattle.user_model.specs.Machines.{after};
ghost use Rattle.user_model.specs.Replies.{row};

use crate::colours::{erase_answer, fill_answer, snap_answer};
use crate::drawing::{
    begin_paint_answer, end_paint_answer, invalidate_answer, update_rect_answer, validate_answer,
};
use core_deliver::{admit, enter};
use core_state::{CoreState, Edges};
use std::alloc::AllocError;
use user_model::{Answer, Call};
use win_num::Thread;

/// The answer of a call on dirty pixels, painting, colours or frames to a running thread, where its stack allows it.
fn drawing_row(state: &CoreState, thread: u8, call: &Call) -> Answer
    requires { is_drawing call.now ≡ true }
    ensures { result ≡ row state.now.setup state.now.past thread call.now }
{
    match *call {
        Call::Invalidate(w, l, t, r, b, erase) => {
            invalidate_answer(state, w, Edges { l, t, r, b }, erase)
        }
        Call::Validate(w, l, t, r, b) => validate_answer(state, w, Edges { l, t, r, b }),
        Call::UpdateRect(w) => update_rect_answer(state, w),
        Call::BeginPaint(w) => begin_paint_answer(state, thread, w),
        Call::EndPaint(w) => end_paint_answer(state, thread, w),
        Call::Fill(w, l, t, r, b, colour) => {
            fill_answer(state, thread, w, Edges { l, t, r, b }, colour)
        }
        Call::Erase(w) => erase_answer(state, thread, w),
        Call::Snap => snap_answer(state),
        _ => unreachable!(),
    }
}

/// What a call on dirty pixels, painting, colours or frames answers.
pub fn drawing_answer(state: &CoreState, who: Thread, call: &Call) -> Answer
    requires { is_drawing call.now ≡ true }
    ensures { result ≡ reply state.now.setup state.now.past who.0 call.now }
{
    match admit(state, who, call) {
        Some(code) => Answer::Refused(code),
        None => drawing_row(state, who.0, call),
    }
}

/// Makes a call on dirty pixels, painting, colours or frames. The answer is the reply of the definitions, and stands with the call
/// as the newest entry, unless the history is full: then it stays as it was. After want of memory nothing has
/// changed, and the call may be made again (Microsoft, InvalidateRect, BeginPaint and FillRect functions).
pub fn draw(s: &mut CoreState, who: Thread, call: &Call) -> Result<Answer, AllocError>
    requires { is_drawing call.now ≡ true }
    ensures answer { IfOk result (λ answer. answer ≡ reply s.old.setup s.old.past who.0 call.now) }
    ensures entry { OnOk result (s.new.past ≡ after s.old.setup s.old.past who call.now) }
    ensures err { OnErr result (s.new.past ≡ s.old.past) }
    ensures setup { s.new.setup ≡ s.old.setup }
    ensures spare { s.old.spare ≤ s.new.spare + 1 }
{
    let answer = drawing_answer(s, who, call);
    enter(s, who, call, answer)
}
