//! Turns of a thread, at a machine of its own.

use crate::texts::lines_of;
use crate::wanting::Wanting;
use script_proc::{Program, Worker};
use script_text::{Script, read};
use std::alloc::Global;
use std::io::Print;
use user_core::User;
use user_model::{Alone, Machine, Setup};

/// Tells what a turn comes to, and how many entries the machine has then.
fn tell_turn<M: Machine>(
    rt: &impl Print,
    program: &Program,
    worker: &mut Worker,
    teller: &mut Alone<M>,
) -> anyhow::Result<()> {
    let turn = worker.turn(program, teller);
    println!(rt; "  {turn:?}, {} entries", teller.machine.history().len())?;
    Ok(())
}

/// Three turns of a worker.
fn tell_three<M: Machine>(
    rt: &impl Print,
    program: &Program,
    worker: &mut Worker,
    teller: &mut Alone<M>,
) -> anyhow::Result<()> {
    for _ in 0..3u8 {
        tell_turn(rt, program, worker, teller)?;
    }
    Ok(())
}

/// Three turns at a machine of its own; memory is wanted after so many calls.
fn tell_turns(
    rt: &impl Print,
    alloc: Global,
    program: &Program,
    left: Option<u64>,
) -> anyhow::Result<()> {
    let mut worker = Worker::new(alloc, program, 1)?;
    let machine = User::new(alloc, Setup::new(2, 8, 4))?;
    let mut teller = Alone {
        machine: Wanting { machine, left },
    };
    let told = tell_three(rt, program, &mut worker, &mut teller);
    drop(teller);
    told
}

/// Turns of the first thread of a script, with memory and where it is wanted once.
fn tell_script(rt: &impl Print, alloc: Global, script: &Script) -> anyhow::Result<()> {
    let program = Program::new(alloc, script)?;
    tell_turns(rt, alloc, &program, None)?;
    println!(rt; "  where memory is wanting once:")?;
    tell_turns(rt, alloc, &program, Some(0))
}

/// Turns of the first thread of the script that a line has.
pub fn tell(rt: &impl Print, alloc: Global, line: &str) -> anyhow::Result<()> {
    let text = lines_of(alloc, line)?;
    match read(alloc, text.as_bytes()) {
        Ok(script) => tell_script(rt, alloc, &script),
        Err(fault) => anyhow::bail!("{fault:?}"),
    }
}
