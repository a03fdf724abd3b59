//! How many posted messages a status and a retrieval read.

ghost use Rattle.std.specs.Prelude.{◌≡◌, ◌≤◌, ◌+◌};

use crate::told::tell;
use core_deliver::{deliver, retrieve, status};
use core_state::CoreState;
use post_queue::Steps;
use std::alloc::AllocError;
use std::io::Print;
use std::sync::ledger::{Blank, Ledger};
use user_model::{Answer, Call, QUEUE_LIMIT};
use win_num::Thread;

/// The thread of the examples.
const SELF: Thread = Thread(1);

/// A status of all kinds, which reads no message.
fn status_of_all<L: Ledger>(
    state: &mut CoreState,
    steps: &mut Steps<L>,
) -> Result<Answer, AllocError>
    ensures { steps.new ≡ steps.old }
{
    status(state, SELF, 127, steps)
}

/// The first message there is, for which no more than one is read.
fn get_any<L: Ledger>(state: &mut CoreState, steps: &mut Steps<L>) -> Result<Answer, AllocError>
    ensures { steps.new ≤ steps.old + 1 }
{
    retrieve(state, SELF, &Call::Get(0, 0, 0), steps)
}

/// The first message of number 1027, where no more than three are there: then no more than three are read.
fn get_among_three<L: Ledger>(
    state: &mut CoreState,
    steps: &mut Steps<L>,
) -> Result<Option<Answer>, AllocError>
    ensures { steps.new ≤ steps.old + 3 }
{
    if !state.is_thread(SELF.0) || state.queue_len(u64::from(SELF.0)) > 3 {
        return Ok(None);
    }
    let answer = retrieve(state, SELF, &Call::Get(0, 1027, 1027), steps)?;
    Ok(Some(answer))
}

/// A message of the thread's to itself, of this number.
fn post(state: &mut CoreState, number: u64) -> Result<Answer, AllocError> {
    deliver(state, SELF, &Call::Post(0, number, 0, 0))
}

/// As many messages as a queue holds.
fn fill(state: &mut CoreState) -> Result<(), AllocError> {
    for _ in 0..QUEUE_LIMIT {
        post(state, 1025)?;
    }
    Ok(())
}

/// One message more, a status and a retrieval.
fn tell_calls<L: Ledger>(
    rt: &impl Print,
    state: &mut CoreState,
    steps: &mut Steps<L>,
) -> anyhow::Result<()> {
    tell(rt, "one more", post(state, 1025)?)?;
    tell(rt, "status", status_of_all(state, steps)?)?;
    tell(rt, "get", get_any(state, steps)?)
}

/// A status and a retrieval with as many messages as a queue holds.
pub fn tell_full<L: Ledger>(
    blank: Blank,
    rt: &impl Print,
    state: &mut CoreState,
) -> anyhow::Result<()>
    requires name { blank.name ≡ L.name }
    requires parts { blank.parts ≡ L.parts }
    requires one { blank.parts ≡ 1 }
{
    fill(state)?;
    tell_calls(rt, state, &mut Steps::<L>::new(blank))
}

/// Three messages, of the numbers 1025 to 1027.
fn post_three(state: &mut CoreState) -> Result<(), AllocError> {
    post(state, 1025)?;
    post(state, 1026)?;
    post(state, 1027)?;
    Ok(())
}

/// A retrieval behind two messages that its filter doesn't let pass.
pub fn tell_three<L: Ledger>(
    blank: Blank,
    rt: &impl Print,
    state: &mut CoreState,
) -> anyhow::Result<()>
    requires name { blank.name ≡ L.name }
    requires parts { blank.parts ≡ L.parts }
    requires one { blank.parts ≡ 1 }
{
    post_three(state)?;
    let answer = get_among_three(state, &mut Steps::<L>::new(blank))?;
    println!(rt; "get of 1027: {answer:?}")?;
    Ok(())
}
