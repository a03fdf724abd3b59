//! The shortest program with a worker: the thread of a script, run by hand. Its worker tells the next call, the machine makes it, and
//! the worker takes the answer, until the thread has ended.

ghost use Rattle.script_text.specs.Limits.{IsScript};

use script_proc::{Program, Worker};
use script_text::{Script, read};
use std::alloc::Global;
use std::io::Print;
use user_core::User;
use user_model::{Machine, Setup};

/// A script of one thread: it makes a window, posts a message to it, gets that again and dispatches it.
const SCRIPT: &str = "\
user 1
screen 8 4
budget 100
order
proc echo
if msg = WM_USER
return wp
end
end
thread
register box echo 0
create box first 0 0 0 0 0 8 4
post r WM_USER 5 0
get 0 0 0
dispatch
post_quit r
end
";

/// Makes the calls of a thread up to its end, or as many as the script allows it, and prints what each was answered.
fn run(
    rt: &impl Print,
    program: &Program,
    worker: &mut Worker,
    machine: &mut User,
) -> anyhow::Result<()> {
    while worker.used() < program.budget() {
        let Some(call) = worker.next_call(program)? else {
            break;
        };
        let answer = machine.step(worker.thread(), call)?;
        worker.take(&call, &answer);
        println!(rt; "{call:?} = {answer:?}")?;
    }
    Ok(())
}

/// Runs the first thread of a script at a machine of its own.
fn run_first(rt: &impl Print, alloc: Global, script: &Script) -> anyhow::Result<()>
    requires { IsScript script.now }
{
    let program = Program::new(alloc, script)?;
    let mut worker = Worker::new(alloc, &program, 1)?;
    let setup = Setup::new(script.thread_count(), script.width(), script.height());
    let mut machine = User::new(alloc, setup)?;
    let told = run(rt, &program, &mut worker, &mut machine);
    drop(machine);
    told
}

/// Reads the script, and runs its thread at a new machine.
pub fn show(rt: &impl Print, alloc: Global) -> anyhow::Result<()> {
    match read(alloc, SCRIPT.as_bytes()) {
        Ok(script) => run_first(rt, alloc, &script),
        Err(fault) => anyhow::bail!("{fault:?}"),
    }
}
