//! What the calls on timers answer.

ghost use Rattle.std.specs.Prelude.{◌≡◌};
ghost use Rattle.user_model.specs.ReplyClock.{kill_timer_reply, set_timer_reply};

use core_deliver::codes::{ACCESS_DENIED, INVALID_PARAMETER, INVALID_WINDOW_HANDLE};
use core_deliver::if_own;
use core_state::CoreState;
use user_model::Answer;
use win_num::Code;

/// The answer where a timer is to be set: its window is the caller's, and a timer that isn't set yet has room.
pub fn set_timer_answer(state: &CoreState, who: u8, w: u64, id: u64) -> Answer
    ensures { result ≡ set_timer_reply state.now.past who w id }
{
    if !state.is_live(w) {
        return Answer::Refused(INVALID_WINDOW_HANDLE);
    }
    if state.thread_of(w) != who {
        return Answer::Refused(ACCESS_DENIED);
    }
    if !state.has_timer(w, id) && state.timers_are_full(who) {
        return Answer::Refused(Code::Full);
    }
    Answer::Okay
}

/// The answer where a timer is to be taken back: its window has it, and is the caller's.
pub fn kill_timer_answer(state: &CoreState, who: u8, w: u64, id: u64) -> Answer
    ensures { result ≡ kill_timer_reply state.now.past who w id }
{
    if state.is_live(w) && !state.has_timer(w, id) {
        return Answer::Refused(INVALID_PARAMETER);
    }
    if_own(state, who, w)
}
