//! What the calls on dirty pixels and painting answer.

ghost use Rattle.std.specs.Prelude.{◌≡◌};
ghost use Rattle.user_model.specs.ReplyDrawing.{begin_paint_reply, end_paint_reply, invalidate_reply, update_rect_reply, validate_reply};

use core_deliver::codes::{ACCESS_DENIED, INVALID_PARAMETER, INVALID_WINDOW_HANDLE};
use core_deliver::{if_live, if_own, is_no_rect};
use core_state::{CoreState, Edges};
use user_model::Answer;

/// The answer where pixels of a window are to be made dirty.
pub fn invalidate_answer(state: &CoreState, w: u64, edges: Edges, erase: u64) -> Answer
    ensures { result ≡ invalidate_reply state.now.past w edges.l edges.t edges.r edges.b erase }
{
    if is_no_rect(edges) || erase > 1 {
        return Answer::Refused(INVALID_PARAMETER);
    }
    if_live(state, w)
}

/// The answer where pixels of a window are to be made clean.
pub fn validate_answer(state: &CoreState, w: u64, edges: Edges) -> Answer
    ensures { result ≡ validate_reply state.now.past w edges.l edges.t edges.r edges.b }
{
    if is_no_rect(edges) {
        return Answer::Refused(INVALID_PARAMETER);
    }
    if_live(state, w)
}

/// The kind of a window's dirty pixels, and the least rectangle around them.
pub fn update_rect_answer(state: &CoreState, w: u64) -> Answer
    ensures { result ≡ update_rect_reply state.now.setup state.now.past w }
{
    if !state.is_live(w) {
        return Answer::Refused(INVALID_WINDOW_HANDLE);
    }
    let update = state.update_box(w);
    Answer::Update {
        kind: update.kind,
        l: update.l,
        t: update.t,
        r: update.r,
        b: update.b,
    }
}

/// The answer where painting of a window is to begin: it is the caller's, and isn't being painted.
pub fn begin_paint_answer(state: &CoreState, who: u8, w: u64) -> Answer
    ensures { result ≡ begin_paint_reply state.now.setup state.now.past who w }
{
    if !state.is_live(w) {
        return Answer::Refused(INVALID_WINDOW_HANDLE);
    }
    if state.is_painting(w) {
        return Answer::Refused(INVALID_PARAMETER);
    }
    if state.thread_of(w) != who {
        return Answer::Refused(ACCESS_DENIED);
    }
    let update = state.update_box(w);
    Answer::Painting {
        erase: u8::from(state.erases(w)),
        l: update.l,
        t: update.t,
        r: update.r,
        b: update.b,
    }
}

/// The answer where painting of a window is to end: it is the caller's, and is being painted.
pub fn end_paint_answer(state: &CoreState, who: u8, w: u64) -> Answer
    ensures { result ≡ end_paint_reply state.now.past who w }
{
    if state.is_live(w) && !state.is_painting(w) {
        return Answer::Refused(INVALID_PARAMETER);
    }
    if_own(state, who, w)
}
