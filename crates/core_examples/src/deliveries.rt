//! What the calls of delivery answer to a thread and to the clock.

ghost use Rattle.std.specs.Prelude.{◌≡◌};

use crate::told::tell;
use core_deliver::{
    admit, deliver, delivery_answer, is_delivery, is_retrieval, retrieval_answer, retrieve, status,
};
use core_state::CoreState;
use post_queue::Steps;
use std::alloc::AllocError;
use std::io::Print;
use std::sync::ledger::{Blank, Ledger};
use user_model::{Answer, Call};
use win_num::Thread;

/// A message to the thread itself.
const POST: Call = Call::Post(0, 1024, 7, 0);

/// Every message of the thread.
const GET: Call = Call::Get(0, 0, 0);

/// A message to a window that isn't there.
const SEND: Call = Call::Send(16, 1024, 0, 0);

/// The thread of the examples.
const SELF: Thread = Thread(1);

fn post(state: &mut CoreState) -> Result<Answer, AllocError> {
    deliver(state, SELF, &POST)
}

fn send(state: &mut CoreState) -> Result<Answer, AllocError> {
    deliver(state, SELF, &SEND)
}

fn get<L: Ledger>(state: &mut CoreState, steps: &mut Steps<L>) -> Result<Answer, AllocError> {
    retrieve(state, SELF, &GET, steps)
}

fn status_of_all<L: Ledger>(
    state: &mut CoreState,
    steps: &mut Steps<L>,
) -> Result<Answer, AllocError> {
    status(state, SELF, 127, steps)
}

/// A post, which is retrieved.
fn tell_post<L: Ledger>(
    rt: &impl Print,
    state: &mut CoreState,
    steps: &mut Steps<L>,
) -> anyhow::Result<()> {
    tell(rt, "post", post(state)?)?;
    tell(rt, "status", status_of_all(state, steps)?)?;
    tell(rt, "get", get(state, steps)?)?;
    tell(rt, "get again", retrieval_answer(state, SELF, &GET))?;
    println!(rt; "history {}", state.history().len())?;
    Ok(())
}

/// What the clock is answered, which makes no call of delivery.
fn tell_clock(rt: &impl Print, state: &CoreState) -> anyhow::Result<()> {
    println!(rt; "admit: {:?}", admit(state, Thread(0), &SEND))?;
    let answer = delivery_answer(state, Thread(0), &SEND);
    tell(rt, "send by the clock", answer)
}

/// A send to no window, and by the clock.
fn tell_refusals(rt: &impl Print, state: &mut CoreState) -> anyhow::Result<()> {
    println!(rt;
        "is_delivery {} is_retrieval {}",
        is_delivery(&SEND),
        is_retrieval(&SEND)
    )?;
    tell(rt, "send", send(state)?)?;
    tell_clock(rt, state)
}

/// Both, one after the other.
pub fn tell_deliveries<L: Ledger>(
    blank: Blank,
    rt: &impl Print,
    state: &mut CoreState,
) -> anyhow::Result<()>
    requires name { blank.name ≡ L.name }
    requires parts { blank.parts ≡ L.parts }
    requires one { blank.parts ≡ 1 }
{
    let mut steps = Steps::<L>::new(blank);
    tell_post(rt, state, &mut steps)?;
    tell_refusals(rt, state)
}
