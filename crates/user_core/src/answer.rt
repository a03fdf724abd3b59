//! What a call answers, from the state.

ghost use Rattle.std.specs.Prelude.{◌≡◌, ◌<◌, ◌≤◌, false};
ghost use Rattle.core_deliver.specs.Groups.{is_delivery, is_drawing, is_retrieval, is_status, is_window_call};
ghost use Rattle.user_model.specs.Past.{is_full};
ghost use Rattle.user_model.specs.Replies.{row, thread_reply};
ghost use Rattle.win_num.specs.declared.code.Code.TheVariants.{Full};
ghost use Rattle.user_model.specs.Refusals.{refuse};
ghost use Rattle.user_model.specs.Idle.{is_wait, is_idle, is_barred, first_busy, have_all_ended, clock_row, reply};

use crate::actor::{Actor, actor_of};
use crate::clock::{advanced, sleep_until_answer, soonest, tick_answer};
use crate::timers::{kill_timer_answer, set_timer_answer};
use core_deliver::{
    admit, delivery_answer, is_delivery, is_drawing, is_retrieval, is_status, is_window_call,
    retrieval_answer,
};
use core_draw::drawing_answer;
use core_state::CoreState;
use core_window::window_answer;
use user_model::{Answer, Call};
use win_num::{Code, Thread};

/// The answer of a call of time or timers to a running thread, where its stack allows the call.
fn row_answer(state: &CoreState, thread: u8, call: &Call) -> Answer
    requires room { is_full state.now.past ≡ false }
    requires no_retrieval { is_retrieval call.now ≡ false }
    requires no_status { is_status call.now ≡ false }
    requires no_delivery { is_delivery call.now ≡ false }
    requires no_window { is_window_call call.now ≡ false }
    requires no_drawing { is_drawing call.now ≡ false }
    ensures { result ≡ row state.now.setup state.now.past thread call.now }
{
    match *call {
        Call::SetTimer(w, id, _) => set_timer_answer(state, thread, w, id),
        Call::KillTimer(w, id) => kill_timer_answer(state, thread, w, id),
        Call::Yield => Answer::Okay,
        Call::Clock => Answer::Value(state.time()),
        Call::SleepUntil(time) => sleep_until_answer(state, time),
        Call::Tick(_) | Call::Advance => Answer::Refused(Code::NotNow),
        _ => unreachable!(),
    }
}

/// The answer of a call of time or timers to an actor other than the clock.
fn own_answer(state: &CoreState, who: Thread, call: &Call) -> Answer
    requires no_retrieval { is_retrieval call.now ≡ false }
    requires no_status { is_status call.now ≡ false }
    requires no_delivery { is_delivery call.now ≡ false }
    requires no_window { is_window_call call.now ≡ false }
    requires no_drawing { is_drawing call.now ≡ false }
    ensures { result ≡ refuse (is_full state.now.past) Full (thread_reply state.now.setup state.now.past who.0 call.now) }
{
    match admit(state, who, call) {
        Some(code) => Answer::Refused(code),
        None => row_answer(state, who.0, call),
    }
}

/// What any call but a status answers a thread.
#[tactic(auto, unfolding(user_model::specs::Idle::reply))]
fn thread_answer(state: &CoreState, thread: u8, call: &Call) -> Answer
    requires some { 0 < thread }
    requires no_status { is_status call.now ≡ false }
    ensures { result ≡ refuse (is_full state.now.past) Full (thread_reply state.now.setup state.now.past thread call.now) }
{
    if is_retrieval(call) {
        return retrieval_answer(state, Thread(thread), call);
    }
    if is_delivery(call) {
        return delivery_answer(state, Thread(thread), call);
    }
    if is_window_call(call) {
        return window_answer(state, Thread(thread), call);
    }
    if is_drawing(call) {
        return drawing_answer(state, Thread(thread), call);
    }
    own_answer(state, Thread(thread), call)
}

/// Whether an actor other than the clock has no call to make now.
#[tactic(auto, unfolding(user_model::specs::Idle::is_barred))]
pub fn is_barred(state: &CoreState, thread: u8) -> bool
    requires { 0 < thread }
    ensures { result ≡ is_barred state.now.setup state.now.past thread }
{
    state.is_thread(thread) && is_idle(state, thread)
}

/// Whether a thread has ended, or would wait again.
fn is_idle(state: &CoreState, thread: u8) -> bool
    requires some { 0 < thread }
    requires known { thread ≤ state.now.setup.threads }
    ensures { result ≡ is_idle state.now.setup state.now.past thread }
{
    if state.has_ended(thread) {
        return true;
    }
    match state.waiting(thread) {
        Some(call) => would_wait(state, thread, &call),
        None => false,
    }
}

/// Whether a call would wait now. A status never waits.
#[inline(never)]
fn would_wait(state: &CoreState, thread: u8, call: &Call) -> bool
    requires { 0 < thread }
    ensures { result ≡ is_wait (refuse (is_full state.now.past) Full (thread_reply state.now.setup state.now.past thread call.now)) }
{
    if is_status(call) {
        return false;
    }
    matches!(thread_answer(state, thread, call), Answer::Wait)
}

/// The lowest thread that isn't idle.
fn first_busy(state: &CoreState) -> Option<u8>
    ensures { result ≡ first_busy state.now.setup state.now.past }
{
    for thread in 0..state.thread_count() {
        if !is_idle(state, thread + 1) {
            return Some(thread + 1);
        }
    }
    None
}

/// Whether all threads have ended.
pub fn have_all_ended(state: &CoreState) -> bool
    ensures { result ≡ have_all_ended state.now.setup state.now.past }
{
    for thread in 0..state.thread_count() {
        if !state.has_ended(thread + 1) {
            return false;
        }
    }
    true
}

/// Whether the clock has nothing to do: a thread isn't idle, all have ended, or nothing can go on.
#[inline(never)]
#[tactic(auto, unfolding(user_model::specs::Idle::is_barred))]
pub fn is_clock_barred(state: &CoreState) -> bool
    ensures { result ≡ is_barred state.now.setup state.now.past 0 }
{
    first_busy(state).is_some() || have_all_ended(state) || state.ends_stuck()
}

/// The answer to the clock, where the history isn't full.
fn clock_answer(state: &CoreState, call: &Call) -> Answer
    requires { is_full state.now.past ≡ false }
    ensures { result ≡ clock_row state.now.setup state.now.past call.now }
{
    match *call {
        Call::Tick(ms) => tick_answer(state, ms),
        Call::Advance => match first_busy(state) {
            Some(thread) => Answer::Busy(Thread(thread)),
            None => advanced(soonest(state)),
        },
        _ => Answer::Refused(Code::NotNow),
    }
}

/// What a call of time or timers answers.
#[tactic(auto, unfolding(user_model::specs::Idle::reply))]
pub fn answer(state: &CoreState, who: Thread, call: &Call) -> Answer
    requires no_retrieval { is_retrieval call.now ≡ false }
    requires no_status { is_status call.now ≡ false }
    requires no_delivery { is_delivery call.now ≡ false }
    requires no_window { is_window_call call.now ≡ false }
    requires no_drawing { is_drawing call.now ≡ false }
    ensures { result ≡ reply state.now.setup state.now.past who.0 call.now }
{
    match actor_of(who) {
        Actor::Numbered(_) => own_answer(state, who, call),
        Actor::Clock => answer_to_clock(state, call),
    }
}

/// The answer to the clock.
fn answer_to_clock(state: &CoreState, call: &Call) -> Answer
    ensures { result ≡ refuse (is_full state.now.past) Full (clock_row state.now.setup state.now.past call.now) }
{
    if state.is_full() {
        return Answer::Refused(Code::Full);
    }
    clock_answer(state, call)
}
