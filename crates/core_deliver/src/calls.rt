//! The calls of delivery: what each answers, and its entry.

ghost use Rattle.std.specs.Prelude.{◌≡◌, ◌<◌, ◌≤◌, ◌+◌, length, true, false, IfOk, IsOk, OnOk, OnErr};
ghost use Rattle.core_deliver.specs.Groups.{is_delivery, is_retrieval};
ghost use Rattle.core_deliver.specs.Reads.{is_unfiltered, reads_by};
ghost use Rattle.core_state.specs.OnePlace.{takes_one_place};
ghost use Rattle.user_model.specs.Idle.{reply};
ghost use Rattle.user_model.specs.Machines.{after};
ghost use Rattle.user_model.specs.Past.{is_full};
ghost use Rattle.user_model.specs.Posts.{posted};
ghost use Rattle.user_model.specs.Replies.{is_barred_by, row};
ghost use Rattle.user_model.specs.Stacks.{top};

use crate::admission::admit;
use crate::delivery::{post_answer, post_thread_answer, translate_answer, write_found};
use crate::messages::message_answer;
use crate::sends::{
    await_answer, dispatch_answer, in_send_answer, leave_answer, reply_answer, send_answer,
    send_other_answer, send_timeout_answer,
};
use crate::status_words::queue_status;
use core_state::CoreState;
use post_queue::Steps;
use std::alloc::AllocError;
use std::marker::Brand;
use std::sync::ledger::{Blank, Ledger};
use user_model::{Answer, Call, Entry};
use win_num::Thread;

/// The answer of a call of delivery to a running thread, where its stack allows it.
fn delivery_row(state: &CoreState, who: u8, call: &Call) -> Answer
    requires group { is_delivery call.now ≡ true }
    requires room { is_full state.now.past ≡ false }
    requires some { 0 < who }
    requires known { who ≤ state.now.setup.threads }
    requires allowed { is_barred_by call.now (top state.now.past who) ≡ false }
    ensures { result ≡ row state.now.setup state.now.past who call.now }
{
    match *call {
        Call::Post(w, number, _, _) => post_answer(state, who, w, number),
        Call::PostThread(to, number, _, _) => post_thread_answer(state, to, number),
        Call::PostQuit(_) => Answer::Okay,
        Call::Dispatch(w, number, _, _) => dispatch_answer(state, who, w, number),
        Call::Send(w, number, _, _) => send_answer(state, who, w, number),
        Call::SendTimeout(w, number, _, _, flags, ms) => {
            send_timeout_answer(state, who, w, number, flags, ms)
        }
        Call::SendNotify(w, number, _, _) | Call::SendCallback(w, number, _, _, _, _) => {
            send_other_answer(state, who, w, number)
        }
        Call::Await(send) => await_answer(state, who, send),
        Call::Leave(value) => leave_answer(state, who, value),
        Call::Reply(_) => reply_answer(state, who),
        Call::InSend => in_send_answer(state, who),
        Call::Message(name) => message_answer(state, name),
        Call::Translate(w, number, key, _) => translate_answer(state, who, w, number, key),
        _ => unreachable!(),
    }
}

/// Writes the answer of a call of delivery to a running thread, where its stack allows it.
#[inline(always)]
fn write_delivery_row(state: &CoreState, who: u8, call: &Call, answer: &mut Answer)
    requires group { is_delivery call.now ≡ true }
    requires room { is_full state.now.past ≡ false }
    requires some { 0 < who }
    requires known { who ≤ state.now.setup.threads }
    requires allowed { is_barred_by call.now (top state.now.past who) ≡ false }
    ensures { answer.new ≡ row state.now.setup state.now.past who call.now }
{
    match *call {
        Call::PostThread(to, number, _, _) => *answer = post_thread_answer(state, to, number),
        _ => write_long_row(state, who, call, answer),
    }
}

/// Writes the same for any call of delivery.
#[inline(never)]
fn write_long_row(state: &CoreState, who: u8, call: &Call, answer: &mut Answer)
    requires group { is_delivery call.now ≡ true }
    requires room { is_full state.now.past ≡ false }
    requires some { 0 < who }
    requires known { who ≤ state.now.setup.threads }
    requires allowed { is_barred_by call.now (top state.now.past who) ≡ false }
    ensures { answer.new ≡ row state.now.setup state.now.past who call.now }
{
    *answer = delivery_row(state, who, call);
}

/// Writes what a retrieval answers, in one step for each posted message that is read.
fn write_retrieval<L: Ledger>(
    state: &CoreState,
    who: Thread,
    call: &Call,
    answer: &mut Answer,
    steps: &mut Steps<L>,
)
    requires { is_retrieval call.now ≡ true }
    ensures answer { answer.new ≡ reply state.now.setup state.now.past who.0 call.now }
    ensures reads { steps.new ≤ steps.old + reads_by state.now.past who.0 call.now }
{
    match admit(state, who, call) {
        Some(code) => *answer = Answer::Refused(code),
        None => write_found(state, who.0, call, answer, steps),
    }
}

/// What a retrieval answers, in steps that nobody counts.
fn uncounted_answer<L: Ledger>(blank: Blank, state: &CoreState, who: Thread, call: &Call) -> Answer
    requires name { blank.name ≡ L.name }
    requires parts { blank.parts ≡ L.parts }
    requires one { blank.parts ≡ 1 }
    requires group { is_retrieval call.now ≡ true }
    ensures { result ≡ reply state.now.setup state.now.past who.0 call.now }
{
    let mut steps = Steps::<L>::new(blank);
    let mut answer = Answer::Nothing;
    write_retrieval(state, who, call, &mut answer, &mut steps);
    answer
}

/// What a retrieval answers.
pub fn retrieval_answer(state: &CoreState, who: Thread, call: &Call) -> Answer
    requires { is_retrieval call.now ≡ true }
    ensures { result ≡ reply state.now.setup state.now.past who.0 call.now }
{
    uncounted_answer::<Brand>(Blank::new(1), state, who, call)
}

/// Writes what a call of delivery answers.
fn write_delivery(state: &CoreState, who: Thread, call: &Call, answer: &mut Answer)
    requires { is_delivery call.now ≡ true }
    ensures { answer.new ≡ reply state.now.setup state.now.past who.0 call.now }
{
    match admit(state, who, call) {
        Some(code) => *answer = Answer::Refused(code),
        None => write_delivery_row(state, who.0, call, answer),
    }
}

/// What a call of delivery answers.
pub fn delivery_answer(state: &CoreState, who: Thread, call: &Call) -> Answer
    requires { is_delivery call.now ≡ true }
    ensures { result ≡ reply state.now.setup state.now.past who.0 call.now }
{
    let mut answer = Answer::Nothing;
    write_delivery(state, who, call, &mut answer);
    answer
}

/// What a status with these flags answers. Want of memory is the only error.
fn status_answer(state: &CoreState, who: Thread, flags: u64) -> Result<Answer, AllocError>
    ensures { IfOk result (λ answer. answer ≡ reply state.now.setup state.now.past who.0 (Call.Status flags)) }
{
    match admit(state, who, &Call::Status(flags)) {
        Some(code) => Ok(Answer::Refused(code)),
        None => {
            let answer = queue_status(state, who.0, flags)?;
            Ok(answer)
        }
    }
}

/// Adds an entry whose call was answered, where the history has room: else it stays as it was. After want of memory nothing
/// has changed.
#[inline(always)]
fn keep(s: &mut CoreState, entry: &Entry) -> Result<(), AllocError>
    requires { entry.now.answer ≡ reply s.old.setup s.old.past entry.now.who.0 entry.now.call }
    ensures entry { OnOk result (s.new.past ≡ after s.old.setup s.old.past entry.now.who entry.now.call) }
    ensures err { OnErr result (s.new.past ≡ s.old.past) }
    ensures setup { s.new.setup ≡ s.old.setup }
    ensures spare { s.old.spare ≤ s.new.spare + 1 }
    ensures with_room { takes_one_place entry.now.call ≡ true → 1 ≤ s.old.spare → IsOk result }
{
    if s.is_full() {
        return Ok(());
    }
    s.append(entry)
}

/// Adds the entry of a call that was answered, where the history has room: else it stays as it was. After
/// want of memory nothing has changed.
#[inline(always)]
pub fn enter(
    s: &mut CoreState,
    who: Thread,
    call: &Call,
    answer: Answer,
) -> Result<Answer, AllocError>
    requires { answer ≡ reply s.old.setup s.old.past who.0 call.now }
    ensures answer { IfOk result (λ told. told ≡ answer) }
    ensures entry { OnOk result (s.new.past ≡ after s.old.setup s.old.past who call.now) }
    ensures err { OnErr result (s.new.past ≡ s.old.past) }
    ensures setup { s.new.setup ≡ s.old.setup }
    ensures spare { s.old.spare ≤ s.new.spare + 1 }
    ensures with_room { takes_one_place call.now ≡ true → 1 ≤ s.old.spare → IsOk result }
{
    let entry = Entry {
        who,
        call: *call,
        answer,
    };
    keep(s, &entry)?;
    Ok(answer)
}

/// Makes the get or the peek of an entry, as `retrieve` does, and writes what it answers into the entry.
#[inline(always)]
pub fn retrieve_in<L: Ledger>(
    s: &mut CoreState,
    entry: &mut Entry,
    steps: &mut Steps<L>,
) -> Result<(), AllocError>
    requires { is_retrieval entry.old.call ≡ true }
    ensures answer { OnOk result (entry.new.answer ≡ reply s.old.setup s.old.past entry.old.who.0 entry.old.call) }
    ensures entry { OnOk result (s.new.past ≡ after s.old.setup s.old.past entry.old.who entry.old.call) }
    ensures err { OnErr result (s.new.past ≡ s.old.past) }
    ensures setup { s.new.setup ≡ s.old.setup }
    ensures spare { s.old.spare ≤ s.new.spare + 1 }
    ensures reads { steps.new ≤ steps.old + reads_by s.old.past entry.old.who.0 entry.old.call }
    ensures same { (entry.new.who ≡ entry.old.who) × (entry.new.call ≡ entry.old.call) }
{
    write_retrieval(s, entry.who, &entry.call, &mut entry.answer, steps);
    keep(s, entry)
}

/// Makes a get or a peek. The answer is the reply of the definitions, and stands with the call as the
/// newest entry, unless the history is full: then it stays as it was. After want of memory nothing
/// has changed, and the call may be made again (Microsoft, GetMessage and PeekMessage functions). The messages posted
/// to the thread are read up to the first that the filter lets pass, in one step each: with the filter 0, 0, 0 one at
/// most, and never more than are posted. A caller that counts nothing hands in `Steps` from `Blank::new(1)`.
pub fn retrieve<L: Ledger>(
    s: &mut CoreState,
    who: Thread,
    call: &Call,
    steps: &mut Steps<L>,
) -> Result<Answer, AllocError>
    requires { is_retrieval call.now ≡ true }
    ensures answer { IfOk result (λ answer. answer ≡ reply s.old.setup s.old.past who.0 call.now) }
    ensures entry { OnOk result (s.new.past ≡ after s.old.setup s.old.past who call.now) }
    ensures err { OnErr result (s.new.past ≡ s.old.past) }
    ensures setup { s.new.setup ≡ s.old.setup }
    ensures spare { s.old.spare ≤ s.new.spare + 1 }
    ensures reads { steps.new ≤ steps.old + reads_by s.old.past who.0 call.now }
    ensures unfiltered { is_unfiltered call.now ≡ true → steps.new ≤ steps.old + 1 }
    ensures most { steps.new ≤ steps.old + length (posted s.old.past who.0) }
{
    let mut entry = Entry {
        who,
        call: *call,
        answer: Answer::Nothing,
    };
    retrieve_in(s, &mut entry, steps)?;
    Ok(entry.answer)
}

/// Makes the call of delivery of an entry, as `deliver` does, and writes what it answers into the entry.
#[inline(always)]
pub fn deliver_in(s: &mut CoreState, entry: &mut Entry) -> Result<(), AllocError>
    requires { is_delivery entry.old.call ≡ true }
    ensures answer { OnOk result (entry.new.answer ≡ reply s.old.setup s.old.past entry.old.who.0 entry.old.call) }
    ensures entry { OnOk result (s.new.past ≡ after s.old.setup s.old.past entry.old.who entry.old.call) }
    ensures err { OnErr result (s.new.past ≡ s.old.past) }
    ensures setup { s.new.setup ≡ s.old.setup }
    ensures spare { s.old.spare ≤ s.new.spare + 1 }
    ensures with_room { takes_one_place entry.old.call ≡ true → 1 ≤ s.old.spare → IsOk result }
    ensures same { (entry.new.who ≡ entry.old.who) × (entry.new.call ≡ entry.old.call) }
{
    write_delivery(s, entry.who, &entry.call, &mut entry.answer);
    keep(s, entry)
}

/// Makes a call of delivery. The answer is the reply of the definitions, and stands with the call as the
/// newest entry, unless the history is full: then it stays as it was. After want of memory nothing
/// has changed, and the call may be made again (Microsoft, SendMessage and PostMessage functions).
pub fn deliver(s: &mut CoreState, who: Thread, call: &Call) -> Result<Answer, AllocError>
    requires { is_delivery call.now ≡ true }
    ensures answer { IfOk result (λ answer. answer ≡ reply s.old.setup s.old.past who.0 call.now) }
    ensures entry { OnOk result (s.new.past ≡ after s.old.setup s.old.past who call.now) }
    ensures err { OnErr result (s.new.past ≡ s.old.past) }
    ensures setup { s.new.setup ≡ s.old.setup }
    ensures spare { s.old.spare ≤ s.new.spare + 1 }
    ensures with_room { takes_one_place call.now ≡ true → 1 ≤ s.old.spare → IsOk result }
{
    let mut entry = Entry {
        who,
        call: *call,
        answer: Answer::Nothing,
    };
    deliver_in(s, &mut entry)?;
    Ok(entry.answer)
}

/// Asks which kinds of messages are there, and which of them came since the thread looked last. The answer is the reply of the
/// definitions, and stands with the call as the newest entry, unless the history is full: then it stays as it was. After want of memory
/// nothing has changed, and the call may be made again (Microsoft, GetQueueStatus function). No posted message is read.
pub fn status<L: Ledger>(
    s: &mut CoreState,
    who: Thread,
    flags: u64,
    steps: &mut Steps<L>,
) -> Result<Answer, AllocError>
    ensures answer { IfOk result (λ answer. answer ≡ reply s.old.setup s.old.past who.0 (Call.Status flags)) }
    ensures entry { OnOk result (s.new.past ≡ after s.old.setup s.old.past who (Call.Status flags)) }
    ensures err { OnErr result (s.new.past ≡ s.old.past) }
    ensures setup { s.new.setup ≡ s.old.setup }
    ensures spare { s.old.spare ≤ s.new.spare + 1 }
    ensures steps { steps.new ≡ steps.old }
{
    let answer = status_answer(s, who, flags)?;
    enter(s, who, &Call::Status(flags), answer)
}
