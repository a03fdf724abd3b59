//! The shortest program with loops of messages: `dialog` and `pump` at a machine, step by step. The state of a loop tells which call is to
//! be made or which procedure is to run, and is handed what came of it, until it is done.

ghost use Rattle.std.specs.Prelude.{IfOk, IfSome};
ghost use Rattle.win_calls.specs.States.{Accepts, Awaits, MayFollow};

use modal_loop::{Got, LoopState, Next, may_follow};
use std::alloc::Global;
use std::io::Print;
use user_core::User;
use user_model::{Answer, Call, Machine, Setup};
use win_num::Thread;

/// How many steps a loop has here at most.
const STEPS: u32 = 100;

/// A command of the user (Microsoft, WM_COMMAND message).
const WM_COMMAND: u32 = 273;

/// A window of class 0 with title 1, which is the first and gets number 16.
const OWNER: Call = Call::NewWindow(0, 1, 0, 0, 0, 0, 0, 8, 4);

/// A window that it owns, which gets number 17.
const OWNED: Call = Call::NewWindow(0, 2, 16, 0, 0, 1, 1, 5, 3);

/// Makes a call of thread 1, and prints what it was answered.
fn make(rt: &impl Print, machine: &mut User, call: Call) -> anyhow::Result<Answer>
    ensures { IfOk result (MayFollow call) }
{
    let answer = machine.step(Thread(1), call)?;
    println!(rt; "{call:?} = {answer:?}")?;
    if !may_follow(&call, &answer) {
        anyhow::bail!("a machine that isn't lawful");
    }
    Ok(answer)
}

/// The procedure of the class: at a command it ends the dialog on its window, with the number of the command.
fn procedure(
    rt: &impl Print,
    machine: &mut User,
    window: u32,
    number: u32,
    wparam: u64,
) -> anyhow::Result<u64> {
    println!(rt; "  message {number} runs the procedure of window {window}")?;
    if number == WM_COMMAND {
        make(rt, machine, Call::EndDialog(u64::from(window), wparam))?;
    }
    Ok(0)
}

/// Does what a loop asks for, and gives what it is handed then. None comes where it is done.
fn carry_out(rt: &impl Print, machine: &mut User, next: Next) -> anyhow::Result<Option<Got>>
    ensures { IfOk result (λ got. IfSome got (Awaits next)) }
{
    match next {
        Next::Make(call) => {
            let answer = make(rt, machine, call)?;
            Ok(Some(Got::Answered(answer)))
        }
        Next::Run {
            hwnd,
            number,
            wparam,
            ..
        } => {
            let value = procedure(rt, machine, hwnd.0, number, wparam)?;
            Ok(Some(Got::Returned(value)))
        }
        Next::Done { r, err } => {
            println!(rt; "  done: r {r}, err {err}")?;
            Ok(None)
        }
    }
}

/// Runs a loop from its beginning to its end.
fn run(rt: &impl Print, machine: &mut User, mut state: LoopState) -> anyhow::Result<()>
    requires { Accepts state.state.stage Got.Start }
{
    let mut next = state.next(Got::Start);
    for _ in 0..STEPS {
        let Some(got) = carry_out(rt, machine, next)? else {
            return Ok(());
        };
        next = state.next(got);
    }
    anyhow::bail!("more than {STEPS} steps")
}

/// A dialog that ends by a command, and then a loop of messages that ends by WM_QUIT.
fn run_all(rt: &impl Print, machine: &mut User) -> anyhow::Result<()> {
    make(rt, machine, Call::Register(0, 0, 0))?;
    make(rt, machine, OWNER)?;
    make(rt, machine, OWNED)?;
    make(rt, machine, Call::Post(17, u64::from(WM_COMMAND), 5, 0))?;
    run(rt, machine, LoopState::dialog(17))?;
    make(rt, machine, Call::Post(16, 1024, 1, 2))?;
    make(rt, machine, Call::PostQuit(3))?;
    run(rt, machine, LoopState::pump())
}

/// Runs both loops at a new machine for one thread.
pub fn show(rt: &impl Print, alloc: Global) -> anyhow::Result<()> {
    let mut machine = User::new(alloc, Setup::new(1, 8, 4))?;
    let told = run_all(rt, &mut machine);
    drop(machine);
    told
}
