//! The shortest program with compound calls: `create`, `set_focus` and `destroy` at a machine, step by step. The state of a compound tells which
//! call is to be made or which procedure is to run, and is handed what came of it, until it is done.

ghost use Rattle.std.specs.Prelude.{IfOk, IfSome};
ghost use Rattle.win_calls.specs.States.{Awaits, MayFollow};

use std::alloc::Global;
use std::io::Print;
use user_core::User;
use user_model::{Answer, Call, Machine, Setup};
use win_calls::{Compound, CompoundState, Got, Next, may_follow};
use win_num::Thread;

/// How many steps a compound has here at most.
const STEPS: u32 = 100;

/// A window is being made (Microsoft, WM_NCCREATE message).
const WM_NCCREATE: u32 = 129;

/// A window of class 0 with title 1, which is the first and gets number 16.
const CREATE: Compound = Compound::Create(0, 1, 0, 0, 0, 0, 0, 8, 4);

/// The procedure of the class: it takes the window at WM_NCCREATE, and has 0 for any other message.
fn procedure(number: u32) -> u64 {
    if number == WM_NCCREATE { 1 } else { 0 }
}

/// Makes a call of thread 1, and prints what it was answered.
fn make(rt: &impl Print, machine: &mut User, call: Call) -> anyhow::Result<Answer>
    ensures { IfOk result (MayFollow call) }
{
    let answer = machine.step(Thread(1), call)?;
    println!(rt; "{call:?} = {answer:?}")?;
    if !may_follow(&call, &answer) {
        anyhow::bail!("a machine that isn't lawful");
    }
    Ok(answer)
}

/// Does what a compound asks for, and gives what it is handed then. None comes where it is done.
fn carry_out(rt: &impl Print, machine: &mut User, next: Next) -> anyhow::Result<Option<Got>>
    ensures { IfOk result (λ got. IfSome got (Awaits next)) }
{
    match next {
        Next::Make(call) => {
            let answer = make(rt, machine, call)?;
            Ok(Some(Got::Answered(answer)))
        }
        Next::Run { number, .. } => {
            let value = procedure(number);
            println!(rt; "  message {number} runs the procedure, which returns {value}")?;
            Ok(Some(Got::Returned(value)))
        }
        Next::Done { r, err } => {
            println!(rt; "  done: r {r}, err {err}")?;
            Ok(None)
        }
    }
}

/// Makes a compound call from its beginning to its end.
fn run(rt: &impl Print, machine: &mut User, compound: Compound) -> anyhow::Result<()> {
    let mut state = CompoundState::of(compound);
    let mut next = state.next(Got::Start);
    for _ in 0..STEPS {
        let Some(got) = carry_out(rt, machine, next)? else {
            return Ok(());
        };
        next = state.next(got);
    }
    anyhow::bail!("more than {STEPS} steps")
}

/// A window is made, gets the focus and is destroyed.
fn run_all(rt: &impl Print, machine: &mut User) -> anyhow::Result<()> {
    make(rt, machine, Call::Register(0, 0, 0))?;
    run(rt, machine, CREATE)?;
    run(rt, machine, Compound::SetFocus(16))?;
    run(rt, machine, Compound::Destroy(16))
}

/// Makes the compound calls at a new machine for one thread.
pub fn show(rt: &impl Print, alloc: Global) -> anyhow::Result<()> {
    let mut machine = User::new(alloc, Setup::new(1, 8, 4))?;
    let told = run_all(rt, &mut machine);
    drop(machine);
    told
}
