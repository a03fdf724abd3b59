//! Turns of a thread that are tried again after want of memory.

ghost use Rattle.script_text.specs.Limits.{IsScript};

use crate::texts::lines_of;
use crate::wanting::Wanting;
use script_proc::{Program, Turn, Worker};
use script_text::{Script, read};
use std::alloc::Global;
use std::io::Print;
use user_core::User;
use user_model::{Alone, Entry, Machine, Setup};

/// The most turns that a thread is given.
const TURNS: u32 = 1000;

/// Makes the turns of a thread until it has none to make, and a turn that finds no memory once more. Tells whether there was such a one.
fn make_turns<M: Machine>(program: &Program, worker: &mut Worker, teller: &mut Alone<M>) -> bool {
    let mut wanted = false;
    for _ in 0..TURNS {
        match worker.turn(program, teller) {
            Ok(Turn::Went) => {}
            Ok(_) => return wanted,
            Err(_) => wanted = true,
        }
    }
    wanted
}

/// The entries of the first thread at a machine of its own that wants memory once after so many calls, and whether it did.
fn entries(
    alloc: Global,
    script: &Script,
    program: &Program,
    left: Option<u64>,
) -> anyhow::Result<(Vec<Entry>, bool)>
    requires { IsScript script.now }
{
    let setup = Setup::new(script.thread_count(), script.width(), script.height());
    let mut worker = Worker::new(alloc, program, 1)?;
    let machine = User::new(alloc, setup)?;
    let mut teller = Alone {
        machine: Wanting { machine, left },
    };
    let wanted = make_turns(program, &mut worker, &mut teller);
    let made = Vec::from_slice(alloc, teller.machine.history())?;
    drop(teller);
    Ok((made, wanted))
}

/// Makes the turns with memory, and then once for each entry with memory wanted before it.
fn tell_script(rt: &impl Print, alloc: Global, script: &Script) -> anyhow::Result<()>
    requires { IsScript script.now }
{
    let program = Program::new(alloc, script)?;
    let (whole, _) = entries(alloc, script, &program, None)?;
    for left in 0..whole.len() {
        let (made, wanted) = entries(alloc, script, &program, Some(left as u64))?;
        if !wanted || made != whole {
            anyhow::bail!("other entries where memory was wanted before entry {left}");
        }
    }
    println!(rt;
        "  {} entries, and the same where memory is wanted before any one of them and the turn is made again",
        whole.len()
    )?;
    Ok(())
}

/// The turns of the first thread of the script that a line has.
pub fn tell(rt: &impl Print, alloc: Global, line: &str) -> anyhow::Result<()> {
    let text = lines_of(alloc, line)?;
    match read(alloc, text.as_bytes()) {
        Ok(script) => tell_script(rt, alloc, &script),
        Err(fault) => anyhow::bail!("{fault:?}"),
    }
}
