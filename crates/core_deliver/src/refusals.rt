//! The tests that calls of several layers share.

ghost use Rattle.std.specs.Prelude.{◌≡◌, ◌-ℤ◌, false, int_lt, pos};
ghost use Rattle.user_model.specs.Refusals.{if_live, if_own, is_no_rect, is_outside};

use crate::codes::{ACCESS_DENIED, INVALID_WINDOW_HANDLE};
use core_state::{CoreState, Edges};
use user_model::Answer;

/// How far left or up, and right or down, a rectangle may stand, and how wide and high it may be, in pixels.
const FAR: i64 = 4096;

/// Whether a left or top edge is too far away.
fn is_outside(edge: i64) -> bool
    ensures { result ≡ is_outside edge }
{
    edge < -FAR || FAR < edge
}

/// Whether the edges are no rectangle of a window.
pub fn is_no_rect(edges: Edges) -> bool
    ensures { result ≡ is_no_rect edges.l edges.t edges.r edges.b }
{
    if is_outside(edges.l) || is_outside(edges.t) {
        return true;
    }
    if edges.r < edges.l || edges.b < edges.t {
        return true;
    }
    is_longer(edges.l, edges.r) || is_longer(edges.t, edges.b)
}

/// Whether an edge is too far from the one before it.
fn is_longer(from: i64, to: i64) -> bool
    requires { is_outside from ≡ false }
    ensures { result ≡ int_lt (pos 4096) (to -ℤ from) }
{
    to > from + FAR
}

/// Ok, where it is a live window.
pub fn if_live(state: &CoreState, w: u64) -> Answer
    ensures { result ≡ if_live state.now.past w Answer.Okay }
{
    if !state.is_live(w) {
        return Answer::Refused(INVALID_WINDOW_HANDLE);
    }
    Answer::Okay
}

/// Ok, where it is a live window of the caller.
pub fn if_own(state: &CoreState, who: u8, w: u64) -> Answer
    ensures { result ≡ if_own state.now.past who w Answer.Okay }
{
    if !state.is_live(w) {
        return Answer::Refused(INVALID_WINDOW_HANDLE);
    }
    if state.thread_of(w) != who {
        return Answer::Refused(ACCESS_DENIED);
    }
    Answer::Okay
}
