//! What the calls on focus, active window, capture and attached threads answer.

ghost use Rattle.std.specs.Prelude.{◌≡◌, ◌<◌, ◌≤◌};
ghost use Rattle.group_state.specs.GroupTables.{named};
ghost use Rattle.user_model.specs.Focus.{capture};
ghost use Rattle.user_model.specs.ReplyGroups.{attach_reply, detach_reply, if_of_caller, is_no_pair, set_active_reply, set_capture_reply, set_focus_reply, value_reply, was};

use core_deliver::codes::{ACCESS_DENIED, INVALID_PARAMETER, INVALID_WINDOW_HANDLE};
use core_state::CoreState;
use input_state::Slot;
use user_model::Answer;
use win_num::Hwnd;

/// The answer where the focus is to be set: its window isn't disabled.
pub fn set_focus_answer(state: &CoreState, who: u8, w: u64) -> Answer
    requires some { 0 < who }
    requires known { who ≤ state.now.setup.threads }
    ensures { result ≡ set_focus_reply state.now.past who w }
{
    if state.is_disabled(w) {
        return Answer::Refused(INVALID_PARAMETER);
    }
    set_answer(state, who, w, Slot::Focus)
}

/// The answer where the active window is to be set: it is no child.
pub fn set_active_answer(state: &CoreState, who: u8, w: u64) -> Answer
    requires some { 0 < who }
    requires known { who ≤ state.now.setup.threads }
    ensures { result ≡ set_active_reply state.now.past who w }
{
    if state.is_live(w) && state.parent(w) != Hwnd(0) {
        return Answer::Refused(INVALID_PARAMETER);
    }
    set_answer(state, who, w, Slot::Active)
}

/// The answer where the capture is to be set: its window is the caller's.
pub fn set_capture_answer(state: &CoreState, who: u8, w: u64) -> Answer
    requires some { 0 < who }
    requires known { who ≤ state.now.setup.threads }
    ensures { result ≡ set_capture_reply state.now.past who w }
{
    if !state.is_live(w) {
        return Answer::Refused(INVALID_WINDOW_HANDLE);
    }
    if state.thread_of(w) != who {
        return Answer::Refused(ACCESS_DENIED);
    }
    was_answer(state, who, Slot::Capture)
}

/// What the slot was, where 0 or a live window of the caller's group is to be set.
fn set_answer(state: &CoreState, who: u8, w: u64, slot: Slot) -> Answer
    requires some { 0 < who }
    requires known { who ≤ state.now.setup.threads }
    ensures { result ≡ if_of_caller state.now.past who w (named slot) }
{
    if w != 0 && !state.is_live(w) {
        return Answer::Refused(INVALID_WINDOW_HANDLE);
    }
    if w != 0 && !state.is_of_group(who, w) {
        return Answer::Refused(ACCESS_DENIED);
    }
    was_answer(state, who, slot)
}

/// The window that the caller's group had.
pub fn was_answer(state: &CoreState, who: u8, slot: Slot) -> Answer
    requires some { 0 < who }
    requires known { who ≤ state.now.setup.threads }
    ensures { result ≡ was state.now.past who (named slot) }
{
    Answer::Was(state.shared_window(who, slot))
}

/// The window that the caller's group has.
pub fn value_answer(state: &CoreState, who: u8, slot: Slot) -> Answer
    requires some { 0 < who }
    requires known { who ≤ state.now.setup.threads }
    ensures { result ≡ value_reply state.now.past who (named slot) }
{
    Answer::Window(state.shared_window(who, slot))
}

/// The answer where two threads are to be attached to each other: they run, and aren't attached yet.
pub fn attach_answer(state: &CoreState, t: u64, u: u64) -> Answer
    ensures { result ≡ attach_reply state.now.setup state.now.past t u }
{
    if is_no_pair(state, t, u) {
        return Answer::Refused(INVALID_PARAMETER);
    }
    Answer::Okay
}

/// Whether the two are no two running threads that aren't attached to each other yet.
fn is_no_pair(state: &CoreState, t: u64, u: u64) -> bool
    ensures { result ≡ is_no_pair state.now.setup state.now.past t u }
{
    if t == u || !state.is_running(t) {
        return true;
    }
    !state.is_running(u) || state.are_attached(t, u)
}

/// The answer where an attachment is to be undone.
pub fn detach_answer(state: &CoreState, t: u64, u: u64) -> Answer
    ensures { result ≡ detach_reply state.now.past t u }
{
    if !state.are_attached(t, u) {
        return Answer::Refused(INVALID_PARAMETER);
    }
    Answer::Okay
}
