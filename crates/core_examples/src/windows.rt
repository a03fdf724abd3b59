//! What calls on classes and windows answer to a thread and to the clock.

use crate::told::tell;
use core_deliver::is_window_call;
use core_state::CoreState;
use core_window::{window, window_answer};
use std::alloc::AllocError;
use std::io::Print;
use user_model::{Answer, Call};
use win_num::Thread;

/// A class, number 1.
const REGISTER: Call = Call::Register(1, 0, 0);

/// A window of the class, with the title of number 2.
const NEW_WINDOW: Call = Call::NewWindow(1, 2, 0, 0, 0, 0, 0, 4, 4);

/// The highest window of the title.
const FIND: Call = Call::Find(2);

/// The thread of the examples.
const SELF: Thread = Thread(1);

fn find(state: &mut CoreState) -> Result<Answer, AllocError> {
    window(state, SELF, &FIND)
}

fn register(state: &mut CoreState) -> Result<Answer, AllocError> {
    window(state, SELF, &REGISTER)
}

fn new_window(state: &mut CoreState) -> Result<Answer, AllocError> {
    window(state, SELF, &NEW_WINDOW)
}

/// What is answered without an entry, to the thread and to the clock.
fn tell_answers(rt: &impl Print, state: &CoreState) -> anyhow::Result<()> {
    tell(rt, "find", window_answer(state, SELF, &FIND))?;
    let answer = window_answer(state, Thread(0), &NEW_WINDOW);
    tell(rt, "new_window by the clock", answer)
}

/// A window that is made and found, and a window by the clock, which makes none.
pub fn tell_window(rt: &impl Print, state: &mut CoreState) -> anyhow::Result<()> {
    println!(rt; "is_window_call {}", is_window_call(&FIND))?;
    tell(rt, "find", find(state)?)?;
    tell(rt, "register", register(state)?)?;
    tell(rt, "new_window", new_window(state)?)?;
    tell_answers(rt, state)?;
    println!(rt; "history {}", state.history().len())?;
    Ok(())
}
