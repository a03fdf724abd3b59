//! What the calls of time answer.

ghost use Rattle.std.specs.Prelude.{◌≡◌, ◌++◌, ℕ, List, false};
ghost use Rattle.user_model.specs.Idle.{advanced, least_of, soonest, tick_reply};
ghost use Rattle.user_model.specs.Past.{is_full};
ghost use Rattle.user_model.specs.ReplyClock.{sleep_until_reply};

use core_deliver::codes::INVALID_PARAMETER;
use core_state::CoreState;
use user_model::Answer;

/// How far the clock may be moved on at once, and how far away the end of a sleep may be, in
/// milliseconds.
const LAST_TIME: u64 = 4294967295;

/// The answer of a sleep up to a time.
pub fn sleep_until_answer(state: &CoreState, time: u64) -> Answer
    ensures { result ≡ sleep_until_reply state.now.past time }
{
    let now = state.time();
    if time.saturating_sub(now) > LAST_TIME {
        return Answer::Refused(INVALID_PARAMETER);
    }
    if time <= now {
        Answer::Okay
    } else {
        Answer::Wait
    }
}

/// The answer where the clock is moved on.
pub fn tick_answer(state: &CoreState, ms: u64) -> Answer
    requires { is_full state.now.past ≡ false }
    ensures { result ≡ tick_reply state.now.past ms }
{
    if ms > LAST_TIME {
        return Answer::Refused(INVALID_PARAMETER);
    }
    Answer::Value(state.time() + ms)
}

/// The soonest of the times that threads wait for.
pub fn soonest(state: &CoreState) -> Option<u64>
    ensures { result ≡ soonest state.now.setup state.now.past }
{
    let mut least = None;
    for thread in 0..state.thread_count() {
        least = lesser(least, state.wake_time(thread + 1));
    }
    least
}

/// The least of some times and of some more.
fn lesser(first: Option<u64>, second: Option<u64>) -> Option<u64>
    ensures { (times others : List ℕ) → least_of times ≡ first → least_of others ≡ second → least_of (times ++ others) ≡ result }
{
    match (first, second) {
        (Some(a), Some(b)) => Some(a.min(b)),
        (Some(a), None) => Some(a),
        (None, b) => b,
    }
}

/// The clock goes to the time; without one all is stuck.
pub fn advanced(time: Option<u64>) -> Answer
    ensures { result ≡ advanced time }
{
    match time {
        Some(time) => Answer::Advanced(time),
        None => Answer::Stuck,
    }
}
