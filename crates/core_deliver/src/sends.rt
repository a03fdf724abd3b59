//! What dispatches, sends and the calls inside them answer.

ghost use Rattle.std.specs.Prelude.{◌≡◌, ◌<◌, ◌≤◌, Some, false};
ghost use Rattle.core_state.specs.Frames.{IsOnTop};
ghost use Rattle.user_model.specs.Past.{is_full};
ghost use Rattle.user_model.specs.ReplySends.{await_reply, dispatch_reply, has_come, in_send_reply, kind_number, leave_reply, other_send, reply_reply, send_if_room, send_other_reply, send_reply, send_timeout_reply, served, waiting_send};
ghost use Rattle.user_model.specs.Refusals.{has_beyond};
ghost use Rattle.user_model.specs.Replies.{is_barred_by};
ghost use Rattle.user_model.specs.Stacks.{top};
ghost use Rattle.user_model.specs.declared.call.Call.TheVariants.{Await as AwaitCall};

use crate::codes::{ACCESS_DENIED, INVALID_PARAMETER, INVALID_WINDOW_HANDLE, STACK_OVERFLOW};
use core_state::CoreState;
use user_model::Answer;
use win_num::{Cause, Code, Frame, Kind, SendId};

/// The greatest number of a message.
const LAST_MESSAGE: u64 = 65535;

/// The greatest time in milliseconds.
const LAST_TIME: u64 = 4294967295;

/// What `in_send` adds where the send has an answer (Microsoft, InSendMessageEx function, ISMEX_REPLIED).
const REPLIED: u64 = 8;

/// The answer of a message that is handed to the procedure of an own window.
pub fn dispatch_answer(state: &CoreState, who: u8, w: u64, number: u64) -> Answer
    requires some { 0 < who }
    requires known { who ≤ state.now.setup.threads }
    ensures { result ≡ dispatch_reply state.now.past who w number }
{
    if number > LAST_MESSAGE {
        return Answer::Refused(INVALID_PARAMETER);
    }
    if w == 0 {
        return Answer::Okay;
    }
    if !state.is_live(w) {
        return Answer::Refused(INVALID_WINDOW_HANDLE);
    }
    if state.thread_of(w) != who {
        return Answer::Refused(ACCESS_DENIED);
    }
    if !state.has_room(who) {
        return Answer::Refused(STACK_OVERFLOW);
    }
    Answer::Called(state.proc_of(w))
}

/// The answer of a send, where fewer than 1,024 are unfinished: inside, or begun.
fn send_if_room(state: &CoreState, who: u8, w: u64) -> Answer
    requires { is_full state.now.past ≡ false }
    ensures { result ≡ send_if_room state.now.past who w }
{
    if state.sends_are_full() {
        return Answer::Refused(Code::Full);
    }
    let send = state.next_send();
    if state.thread_of(w) == who {
        Answer::Inside(send, state.proc_of(w))
    } else {
        Answer::Begun(send)
    }
}

/// The answer of a send that always pushes a frame.
fn waiting_send(state: &CoreState, who: u8, w: u64) -> Answer
    requires room { is_full state.now.past ≡ false }
    requires some { 0 < who }
    requires known { who ≤ state.now.setup.threads }
    ensures { result ≡ waiting_send state.now.past who w }
{
    if !state.is_live(w) {
        return Answer::Refused(INVALID_WINDOW_HANDLE);
    }
    if !state.has_room(who) {
        return Answer::Refused(STACK_OVERFLOW);
    }
    send_if_room(state, who, w)
}

/// The answer of a send that waits.
pub fn send_answer(state: &CoreState, who: u8, w: u64, number: u64) -> Answer
    requires room { is_full state.now.past ≡ false }
    requires some { 0 < who }
    requires known { who ≤ state.now.setup.threads }
    ensures { result ≡ send_reply state.now.past who w number }
{
    if number > LAST_MESSAGE {
        return Answer::Refused(INVALID_PARAMETER);
    }
    waiting_send(state, who, w)
}

/// Whether a flag is none of these.
fn has_beyond(flags: u64, allowed: u8) -> bool
    ensures { result ≡ has_beyond flags allowed }
{
    flags & u64::from(allowed) != flags
}

/// The answer of a send that waits for a time.
pub fn send_timeout_answer(
    state: &CoreState,
    who: u8,
    w: u64,
    number: u64,
    flags: u64,
    ms: u64,
) -> Answer
    requires room { is_full state.now.past ≡ false }
    requires some { 0 < who }
    requires known { who ≤ state.now.setup.threads }
    ensures { result ≡ send_timeout_reply state.now.setup state.now.past who w number flags ms }
{
    if number > LAST_MESSAGE || has_beyond(flags, state.timeout_flags()) || ms > LAST_TIME {
        return Answer::Refused(INVALID_PARAMETER);
    }
    waiting_send(state, who, w)
}

/// The answer of a send that doesn't wait.
pub fn send_other_answer(state: &CoreState, who: u8, w: u64, number: u64) -> Answer
    requires room { is_full state.now.past ≡ false }
    requires some { 0 < who }
    requires known { who ≤ state.now.setup.threads }
    ensures { result ≡ send_other_reply state.now.past who w number }
{
    if number > LAST_MESSAGE {
        return Answer::Refused(INVALID_PARAMETER);
    }
    if !state.is_live(w) {
        return Answer::Refused(INVALID_WINDOW_HANDLE);
    }
    if state.thread_of(w) == who && !state.has_room(who) {
        return Answer::Refused(STACK_OVERFLOW);
    }
    send_if_room(state, who, w)
}

/// The answer of a wait for the send of the newest frame.
pub fn await_answer(state: &CoreState, who: u8, s: u64) -> Answer
    requires some { 0 < who }
    requires known { who ≤ state.now.setup.threads }
    requires allowed { is_barred_by (AwaitCall s) (top state.now.past who) ≡ false }
    ensures { result ≡ await_reply state.now.past who s }
{
    match state.top(who) {
        Some(Frame::Await(send)) => awaited(state, who, send),
        _ => unreachable!(),
    }
}

/// The send's answer, the end of its time, what is ready, or to wait.
fn awaited(state: &CoreState, who: u8, send: SendId) -> Answer
    requires some { 0 < who }
    requires known { who ≤ state.now.setup.threads }
    requires on_top { IsOnTop state.now.past who send.0 }
    ensures { result ≡ await_reply state.now.past who send.0 }
{
    if let Some((result, cause)) = state.answered(who, send) {
        return Answer::Done { result, cause };
    }
    if has_come(state.deadline(who, send), state.time()) {
        return Answer::Done {
            result: 0,
            cause: Cause::Timeout,
        };
    }
    served(state, who, send)
}

/// Whether there is a time and it has come.
fn has_come(deadline: Option<u64>, now: u64) -> bool
    ensures { result ≡ has_come deadline now }
{
    match deadline {
        Some(time) => time <= now,
        None => false,
    }
}

/// What a waiting sender runs meanwhile, or to wait.
fn served(state: &CoreState, who: u8, send: SendId) -> Answer
    requires some { 0 < who }
    requires known { who ≤ state.now.setup.threads }
    requires on_top { IsOnTop state.now.past who send.0 }
    ensures { result ≡ served state.now.past who send.0 }
{
    if state.blocks(who, send) {
        return Answer::Wait;
    }
    match state.next_ready(who) {
        Some(answer) => answer,
        None => Answer::Wait,
    }
}

/// The answer where the procedure on top is left.
pub fn leave_answer(state: &CoreState, who: u8, value: u64) -> Answer
    requires some { 0 < who }
    requires known { who ≤ state.now.setup.threads }
    ensures { result ≡ leave_reply state.now.past who value }
{
    match state.top(who) {
        Some(Frame::Inside(send)) => left_inside(state, who, send, value),
        Some(Frame::Entered(send)) => Answer::Left(send),
        _ => Answer::Left(SendId(0)),
    }
}

/// The answer where an inside frame is left: the callback procedure of its send runs, or it was left.
fn left_inside(state: &CoreState, who: u8, send: SendId, value: u64) -> Answer
    requires some { 0 < who }
    requires known { who ≤ state.now.setup.threads }
    requires is_top { top state.now.past who ≡ Some (Frame.Inside send) }
    ensures { result ≡ leave_reply state.now.past who value }
{
    let Some(row) = state.sent(who, send) else {
        return Answer::Left(send);
    };
    match row.kind {
        Kind::Callback { proc_no, extra } => Answer::Callback {
            send,
            proc_no,
            hwnd: row.hwnd,
            number: row.number,
            extra,
            result: value,
        },
        _ => Answer::Left(send),
    }
}

/// The answer of a reply: 1 where a send without an answer was entered on top.
pub fn reply_answer(state: &CoreState, who: u8) -> Answer
    requires some { 0 < who }
    requires known { who ≤ state.now.setup.threads }
    ensures { result ≡ reply_reply state.now.past who }
{
    match state.top(who) {
        Some(Frame::Entered(send)) => {
            Answer::Value(u64::from(state.answered(who, send).is_none()))
        }
        _ => Answer::Value(0),
    }
}

/// The number of a kind of send (Microsoft, InSendMessageEx function).
fn kind_number(kind: Kind) -> u64
    ensures number { result ≡ kind_number kind }
    ensures small { result ≤ 4 }
{
    match kind {
        Kind::Wait | Kind::Timeout { .. } => 1,
        Kind::Notify => 2,
        Kind::Callback { .. } => 4,
    }
}

/// Which kind of send the caller is in.
pub fn in_send_answer(state: &CoreState, who: u8) -> Answer
    requires some { 0 < who }
    requires known { who ≤ state.now.setup.threads }
    ensures { result ≡ in_send_reply state.now.past who }
{
    let Some(Frame::Entered(send)) = state.top(who) else {
        return Answer::Value(0);
    };
    let kind = match state.sent(who, send) {
        Some(row) => kind_number(row.kind),
        None => 0,
    };
    if state.answered(who, send).is_some() {
        Answer::Value(kind + REPLIED)
    } else {
        Answer::Value(kind)
    }
}
