//! What posts and retrievals answer.

ghost use Rattle.std.specs.Prelude.{◌≡◌, ◌==◌, ◌&&◌, ◌<◌, ◌≤◌, ◌+◌, IfSome, None, Some, false, if◌then◌else◌, true, unwrap_or};
ghost use Rattle.core_deliver.specs.Reads.{reads_by, reads_for};
ghost use Rattle.core_deliver.specs.Groups.{is_retrieval};
ghost use Rattle.core_deliver.specs.Searches.{filter_in, filter_refusal, next_unposted, none_found};
ghost use Rattle.user_model.specs.Past.{is_full};
ghost use Rattle.user_model.specs.Filters.{is_no_filter_window};
ghost use Rattle.user_model.specs.Places.{clock, cursor};
ghost use Rattle.user_model.specs.Next.{next, next_input, next_paint, next_posted, next_quit, next_timer};
ghost use Rattle.user_model.specs.Characters.{has_character};
ghost use Rattle.user_model.specs.Posts.{message, queue_of};
ghost use Rattle.user_model.specs.Refusals.{invalid_window_handle, refuse};
ghost use Rattle.user_model.specs.Windows.{is_live, thread_of};
ghost use Rattle.user_model.specs.ReplyInput.{translate_reply};
ghost use Rattle.user_model.specs.Replies.{row};
ghost use Rattle.user_model.specs.ReplyDelivery.{is_no_post_window, post_reply, post_thread_reply, post_to};

use crate::codes::{INVALID_PARAMETER, INVALID_THREAD_ID, INVALID_WINDOW_HANDLE, NOT_ENOUGH_QUOTA};
use core_state::CoreState;
use post_queue::Steps;
use std::sync::ledger::Ledger;
use user_model::{Answer, Call, Origin};
use win_num::{Code, Filter, Hwnd, Msg, names};

/// The greatest number of a message.
const LAST_MESSAGE: u64 = 65535;

/// Whether a filter's window is neither none nor minus one nor a live window of the caller.
#[inline(always)]
fn is_no_filter_window(state: &CoreState, who: u8, w: u64) -> bool
    ensures { result ≡ is_no_filter_window state.now.past who w }
{
    if w == 0 || w == names::NO_WINDOW {
        return false;
    }
    !is_own(state, who, w)
}

/// Whether it is a live window of the caller.
#[inline(never)]
fn is_own(state: &CoreState, who: u8, w: u64) -> bool
    ensures { result ≡ (is_live state.now.past w && (thread_of state.now.past w == who)) }
{
    state.is_live(w) && state.thread_of(w) == who
}

/// Writes what is ready, else the first posted message that passes, else quit, else input, else painting, else a timer. Where none of
/// them is there the answer stays.
#[inline(always)]
fn write_next<L: Ledger>(
    state: &CoreState,
    who: u8,
    filter: Filter,
    answer: &mut Answer,
    steps: &mut Steps<L>,
)
    requires some { 0 < who }
    requires known { who ≤ state.now.setup.threads }
    ensures answer { answer.new ≡ unwrap_or (next state.now.setup state.now.past who filter) answer.old }
    ensures reads { steps.new ≤ steps.old + reads_for state.now.past who filter }
{
    if let Some(ready) = state.next_ready(who) {
        *answer = ready;
        return;
    }
    if let Some(found) = next_posted(state, who, filter, steps) {
        *answer = found;
        return;
    }
    write_unposted(state, who, filter, answer);
}

/// Writes quit, else input, else painting, else a timer. Where none of them is there the answer stays.
#[inline(never)]
fn write_unposted(state: &CoreState, who: u8, filter: Filter, answer: &mut Answer)
    requires some { 0 < who }
    requires known { who ≤ state.now.setup.threads }
    ensures { answer.new ≡ unwrap_or (next_unposted state.now.setup state.now.past who filter) answer.old }
{
    if let Some(other) = next_unposted(state, who, filter) {
        *answer = other;
    }
}

/// Quit, else input, else painting, else a timer.
fn next_unposted(state: &CoreState, who: u8, filter: Filter) -> Option<Answer>
    requires some { 0 < who }
    requires known { who ≤ state.now.setup.threads }
    ensures { result ≡ next_unposted state.now.setup state.now.past who filter }
{
    if let Some(answer) = next_quit(state, who) {
        return Some(answer);
    }
    if let Some(answer) = next_input(state, who, filter) {
        return Some(answer);
    }
    if let Some(answer) = next_paint(state, who, filter) {
        return Some(answer);
    }
    next_timer(state, who, filter)
}

/// The first posted message that passes, in one step for each that is read: those up to it, and where none passes at most all.
#[inline(always)]
fn next_posted<L: Ledger>(
    state: &CoreState,
    who: u8,
    filter: Filter,
    steps: &mut Steps<L>,
) -> Option<Answer>
    requires some { 0 < who }
    requires known { who ≤ state.now.setup.threads }
    ensures answer { result ≡ next_posted state.now.past who filter }
    ensures reads { IfSome result (λ answer. steps.new ≡ steps.old + reads_for state.now.past who filter) }
    ensures most { steps.new ≤ steps.old + reads_for state.now.past who filter }
{
    match state.first_post_counted(who, filter, steps) {
        Some((number, msg)) => Some(Answer::Got {
            origin: Origin::Posted,
            number,
            msg,
        }),
        None => None,
    }
}

/// Quit, where no posted message at all is left.
fn next_quit(state: &CoreState, who: u8) -> Option<Answer>
    requires some { 0 < who }
    requires known { who ≤ state.now.setup.threads }
    ensures { result ≡ next_quit state.now.past who }
{
    if state.queue_len(u64::from(who)) != 0 {
        return None;
    }
    match state.quit(who) {
        Some(code) => Some(got(state, Origin::Quit, Hwnd(0), names::WM_QUIT, code)),
        None => None,
    }
}

/// The first input that the thread may take and that passes, for the window that it goes to now.
fn next_input(state: &CoreState, who: u8, filter: Filter) -> Option<Answer>
    requires some { 0 < who }
    requires known { who ≤ state.now.setup.threads }
    ensures { result ≡ next_input state.now.setup state.now.past who filter }
{
    match state.next_input(who, filter) {
        Some((number, msg)) => Some(Answer::Got {
            origin: Origin::Input,
            number,
            msg,
        }),
        None => None,
    }
}

/// WM_PAINT for the first window that has a dirty pixel and passes.
fn next_paint(state: &CoreState, who: u8, filter: Filter) -> Option<Answer>
    ensures { result ≡ next_paint state.now.setup state.now.past who filter }
{
    match state.to_paint(who, filter) {
        Some(window) => Some(got(state, Origin::Paint, window, names::WM_PAINT, 0)),
        None => None,
    }
}

/// WM_TIMER of the first due timer that passes.
fn next_timer(state: &CoreState, who: u8, filter: Filter) -> Option<Answer>
    ensures { result ≡ next_timer state.now.past who filter }
{
    match state.due_timer(who, filter) {
        Some(timer) => Some(got(state, Origin::Timer, timer.hwnd, names::WM_TIMER, timer.id)),
        None => None,
    }
}

/// A message that is no post as a retrieval hands it out, with the clock and the cursor of the retrieval.
fn got(state: &CoreState, origin: Origin, hwnd: Hwnd, number: u32, wparam: u64) -> Answer
    ensures { result ≡ Answer.Got origin 0 (message hwnd.0 number wparam 0 (clock state.now.past) (cursor state.now.past)) }
{
    Answer::Got {
        origin,
        number: 0,
        msg: Msg {
            hwnd,
            number,
            wparam,
            lparam: 0,
            time: state.time(),
            point: state.cursor(),
        },
    }
}

/// What a get or a peek is refused with: flags that there aren't, or the window of its filter.
#[inline(always)]
fn filter_refusal(state: &CoreState, who: u8, call: &Call) -> Option<Code>
    requires { is_retrieval call.now ≡ true }
    ensures { result ≡ filter_refusal state.now.past who call.now }
{
    match *call {
        Call::Get(w, _, _) => window_refusal(state, who, w),
        Call::Peek(_, _, _, flags) if flags > 3 => Some(INVALID_PARAMETER),
        Call::Peek(w, _, _, _) => window_refusal(state, who, w),
        _ => unreachable!(),
    }
}

/// What a filter is refused with for its window.
#[inline(always)]
fn window_refusal(state: &CoreState, who: u8, w: u64) -> Option<Code>
    ensures { result ≡ (if is_no_filter_window state.now.past who w then Some invalid_window_handle else None) }
{
    if is_no_filter_window(state, who, w) {
        Some(INVALID_WINDOW_HANDLE)
    } else {
        None
    }
}

/// The filter of a get or a peek.
#[inline(always)]
fn filter_in(call: &Call) -> Filter
    requires { is_retrieval call.now ≡ true }
    ensures { result ≡ filter_in call.now }
{
    match *call {
        Call::Get(hwnd, min, max) => Filter { hwnd, min, max },
        Call::Peek(hwnd, min, max, _) => Filter { hwnd, min, max },
        _ => unreachable!(),
    }
}

/// The answer of a get or a peek where no message is there.
#[inline(always)]
fn none_found(call: &Call) -> Answer
    ensures { result ≡ none_found call.now }
{
    match *call {
        Call::Get(..) => Answer::Wait,
        _ => Answer::Nothing,
    }
}

/// Writes the answer of a get or a peek, in one step for each posted message that is read.
#[inline(always)]
pub fn write_found<L: Ledger>(
    state: &CoreState,
    who: u8,
    call: &Call,
    answer: &mut Answer,
    steps: &mut Steps<L>,
)
    requires group { is_retrieval call.now ≡ true }
    requires some { 0 < who }
    requires known { who ≤ state.now.setup.threads }
    ensures answer { answer.new ≡ row state.now.setup state.now.past who call.now }
    ensures reads { steps.new ≤ steps.old + reads_by state.now.past who call.now }
{
    match filter_refusal(state, who, call) {
        Some(code) => *answer = Answer::Refused(code),
        None => {
            *answer = none_found(call);
            write_next(state, who, filter_in(call), answer, steps);
        }
    }
}

/// The answer of a post to the queue of a thread.
#[inline(always)]
fn post_to(state: &CoreState, to: u64) -> Answer
    requires room { is_full state.now.past ≡ false }
    requires some { 0 < to }
    requires known { to ≤ state.now.setup.threads }
    ensures { result ≡ post_to state.now.setup state.now.past to }
{
    if state.queue_len(to) as usize >= state.post_limit(to) {
        return Answer::Refused(NOT_ENOUGH_QUOTA);
    }
    Answer::Posted(state.next_post_number())
}

/// The answer of a post to a window, or for window 0 to the caller.
pub fn post_answer(state: &CoreState, who: u8, w: u64, number: u64) -> Answer
    requires room { is_full state.now.past ≡ false }
    requires some { 0 < who }
    requires known { who ≤ state.now.setup.threads }
    ensures { result ≡ post_reply state.now.setup state.now.past who w number }
{
    if number > LAST_MESSAGE {
        return Answer::Refused(INVALID_PARAMETER);
    }
    post_to_window(state, who, w)
}

/// The answer of a post of a message to a window, or for window 0 to the caller.
fn post_to_window(state: &CoreState, who: u8, w: u64) -> Answer
    requires room { is_full state.now.past ≡ false }
    requires some { 0 < who }
    requires known { who ≤ state.now.setup.threads }
    ensures { result ≡ refuse (is_no_post_window state.now.past w) invalid_window_handle (post_to state.now.setup state.now.past (queue_of state.now.past who w)) }
{
    if w == 0 {
        return post_to(state, u64::from(who));
    }
    if !state.is_live(w) {
        return Answer::Refused(INVALID_WINDOW_HANDLE);
    }
    post_to(state, u64::from(state.thread_of(w)))
}

/// Whether the key makes a character: letters, digits and space do.
fn has_character(key: u64) -> bool
    ensures { result ≡ has_character key }
{
    (65 <= key && key <= 90) || (48 <= key && key <= 57) || key == names::VK_SPACE
}

/// The answer where the character of a key that goes down is to be posted, for a key that has one; else 0.
pub fn translate_answer(state: &CoreState, who: u8, w: u64, number: u64, key: u64) -> Answer
    requires room { is_full state.now.past ≡ false }
    requires some { 0 < who }
    requires known { who ≤ state.now.setup.threads }
    ensures { result ≡ translate_reply state.now.setup state.now.past who w number key }
{
    if number == u64::from(names::WM_KEYDOWN) && has_character(key) {
        return post_to_window(state, who, w);
    }
    Answer::Value(0)
}

/// The answer of a post to a thread.
#[inline(always)]
pub fn post_thread_answer(state: &CoreState, to: u64, number: u64) -> Answer
    requires { is_full state.now.past ≡ false }
    ensures { result ≡ post_thread_reply state.now.setup state.now.past to number }
{
    if number > LAST_MESSAGE {
        return Answer::Refused(INVALID_PARAMETER);
    }
    if !state.is_running(to) {
        return Answer::Refused(INVALID_THREAD_ID);
    }
    post_to(state, to)
}
