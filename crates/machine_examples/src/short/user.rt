//! The shortest program with a machine: thread 1 makes a window and waits for a message, and thread 2 posts one to it.

use std::alloc::Global;
use std::io::Print;
use user_core::User;
use user_model::{Call, Machine, Setup};
use win_num::Thread;

/// The calls, one after another, each with the thread that makes it. Class 0, title 1 and procedure 0 are the program's own
/// numbers; windows are counted from 16; 1024 is WM_USER.
const CALLS: [(Thread, Call); 5] = [
    (Thread(1), Call::Register(0, 0, 0)),
    (Thread(1), Call::NewWindow(0, 1, 0, 0, 0, 0, 0, 8, 4)),
    (Thread(1), Call::Get(0, 0, 0)),
    (Thread(2), Call::Post(16, 1024, 5, 6)),
    (Thread(1), Call::Get(0, 0, 0)),
];

/// Makes the calls, and prints what each was answered.
fn run(rt: &impl Print, machine: &mut User) -> anyhow::Result<()> {
    for (thread, call) in CALLS {
        let answer = machine.step(thread, call)?;
        println!(rt; "{call:?} = {answer:?}")?;
    }
    Ok(())
}

/// Makes the calls at a new machine for two threads, with a screen of 8 by 4 pixels.
pub fn show(rt: &impl Print, alloc: Global) -> anyhow::Result<()> {
    let mut machine = User::new(alloc, Setup::new(2, 8, 4))?;
    let told = run(rt, &mut machine);
    drop(machine);
    told
}
