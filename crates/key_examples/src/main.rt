//! A dialog whose keys move the focus: a loop of messages that hands each key of the dialog's controls to a `KeyState`
//! before it translates and dispatches, as a Win32 program calls IsDialogMessage. Thread 1 has the dialog with three
//! controls, of which one is disabled; thread 2 injects the keys. Both are played by this one thread.
#![tactic(auto)]

ghost use Rattle.std.specs.Prelude.{IfOk, IfSome};
ghost use Rattle.win_calls.specs.States.{Awaits, MayFollow};

use dialog_keys::{
    DialogKey, Got, IDCANCEL, KeyState, Next, VK_ESCAPE, VK_RETURN, VK_TAB, WM_COMMAND, may_follow,
};
use std::alloc::Global;
use std::io::Print;
use user_core::User;
use user_model::{Answer, Call, Machine, Setup};
use win_num::names::{VK_SHIFT, WM_KEYDOWN, WM_QUIT, WS_CHILD, WS_DISABLED, WS_VISIBLE};
use win_num::{Hwnd, Msg, Thread};

/// How many steps a key and how many messages the loop has here at most.
const STEPS: u32 = 100;

/// The dialog has this number.
const DIALOG: u32 = 16;

/// The style of a control that is shown.
const SHOWN: u64 = WS_CHILD + WS_VISIBLE;

/// The style of one that is shown and disabled.
const DISABLED: u64 = SHOWN + WS_DISABLED;

/// The class, the dialog 16 with its controls 17, 18 and 19, and the focus at 17.
static OPENING: [Call; 7] = [
    Call::Register(0, 0, 0),
    Call::NewWindow(0, 1, 0, 0, 0, 0, 0, 0, 0),
    Call::NewWindow(0, 2, 16, SHOWN, 0, 0, 0, 0, 0),
    Call::NewWindow(0, 3, 16, DISABLED, 0, 0, 0, 0, 0),
    Call::NewWindow(0, 4, 16, SHOWN, 0, 0, 0, 0, 0),
    Call::SetActive(16),
    Call::SetFocus(17),
];

/// Tab twice, Tab with Shift, Enter and Escape.
static KEYS: [Call; 7] = [
    Call::Key(1, VK_TAB as u64),
    Call::Key(1, VK_TAB as u64),
    Call::Key(1, VK_SHIFT),
    Call::Key(1, VK_TAB as u64),
    Call::Key(0, VK_SHIFT),
    Call::Key(1, VK_RETURN as u64),
    Call::Key(1, VK_ESCAPE as u64),
];

/// Makes a call of a thread, and prints what it was answered.
fn make(rt: &impl Print, machine: &mut User, who: Thread, call: Call) -> anyhow::Result<Answer>
    ensures { IfOk result (MayFollow call) }
{
    let answer = machine.step(who, call)?;
    println!(rt; "{}: {call:?} = {answer:?}", who.0)?;
    if !may_follow(&call, &answer) {
        anyhow::bail!("a machine that isn't lawful");
    }
    Ok(answer)
}

/// Makes these calls of a thread.
fn make_all(
    rt: &impl Print,
    machine: &mut User,
    who: Thread,
    calls: &[Call],
) -> anyhow::Result<()> {
    for call in calls {
        make(rt, machine, who, *call)?;
    }
    Ok(())
}

/// The procedure of the class: a command gives its number, and that of Escape ends the loop of messages.
fn procedure(
    rt: &impl Print,
    machine: &mut User,
    window: u32,
    number: u32,
    wparam: u64,
) -> anyhow::Result<u64> {
    println!(rt; "  message {number} runs the procedure of window {window}")?;
    if u64::from(number) != WM_COMMAND {
        return Ok(0);
    }
    if wparam == IDCANCEL {
        make(rt, machine, Thread(1), Call::PostQuit(0))?;
    }
    Ok(wparam)
}

/// Does what a key asks for, and gives what it is handed then. None comes where it is done.
fn carry_out(rt: &impl Print, machine: &mut User, next: Next) -> anyhow::Result<Option<Got>>
    ensures { IfOk result (λ got. IfSome got (Awaits next)) }
{
    match next {
        Next::Make(call) => {
            let answer = make(rt, machine, Thread(1), call)?;
            Ok(Some(Got::Answered(answer)))
        }
        Next::Run {
            hwnd,
            number,
            wparam,
            ..
        } => {
            let value = procedure(rt, machine, hwnd.0, number, wparam)?;
            Ok(Some(Got::Returned(value)))
        }
        Next::Done { r, err } => {
            println!(rt; "  done: r {r}, err {err}")?;
            Ok(None)
        }
    }
}

/// Hands the key to a `KeyState`, and tells whether that made a call: then the key was the dialog's.
fn handle(rt: &impl Print, machine: &mut User, key: DialogKey) -> anyhow::Result<bool> {
    let mut state = KeyState::of(key);
    let mut next = state.next(Got::Start);
    let is_taken = matches!(next, Next::Make(_));
    for _ in 0..STEPS {
        let Some(got) = carry_out(rt, machine, next)? else {
            return Ok(is_taken);
        };
        next = state.next(got);
    }
    anyhow::bail!("more than {STEPS} steps")
}

/// Whether the message is a key of the dialog's controls, and the dialog did what it is for.
fn is_dialog_message(rt: &impl Print, machine: &mut User, msg: &Msg) -> anyhow::Result<bool> {
    if msg.number != WM_KEYDOWN || msg.hwnd.0 <= DIALOG {
        return Ok(false);
    }
    let shift = make(rt, machine, Thread(1), Call::KeyState(VK_SHIFT))?;
    let Ok(vk) = u8::try_from(msg.wparam) else {
        return Ok(false);
    };
    let key = DialogKey {
        dialog: Hwnd(DIALOG),
        focus: msg.hwnd,
        vk,
        shift: shift != Answer::Value(0),
    };
    handle(rt, machine, key)
}

/// The message goes to the procedure of its window.
fn dispatch(rt: &impl Print, machine: &mut User, msg: &Msg) -> anyhow::Result<()> {
    let window = u64::from(msg.hwnd.0);
    let number = u64::from(msg.number);
    let who = Thread(1);
    make(
        rt,
        machine,
        who,
        Call::Translate(window, number, msg.wparam, msg.lparam),
    )?;
    let call = Call::Dispatch(window, number, msg.wparam, msg.lparam);
    if let Answer::Called(_) = make(rt, machine, who, call)? {
        let value = procedure(rt, machine, msg.hwnd.0, msg.number, msg.wparam)?;
        make(rt, machine, who, Call::Leave(value))?;
    }
    Ok(())
}

/// The loop of messages of thread 1, until WM_QUIT comes.
fn pump(rt: &impl Print, machine: &mut User) -> anyhow::Result<()> {
    for _ in 0..STEPS {
        let answer = make(rt, machine, Thread(1), Call::Get(0, 0, 0))?;
        let Answer::Got { msg, .. } = answer else {
            anyhow::bail!("no message");
        };
        if msg.number == WM_QUIT {
            return Ok(());
        }
        if !is_dialog_message(rt, machine, &msg)? {
            dispatch(rt, machine, &msg)?;
        }
    }
    anyhow::bail!("more than {STEPS} messages")
}

/// The dialog is made, the keys are injected, and the loop runs.
fn run_all(rt: &impl Print, machine: &mut User) -> anyhow::Result<()> {
    make_all(rt, machine, Thread(1), &OPENING)?;
    make_all(rt, machine, Thread(2), &KEYS)?;
    pump(rt, machine)
}

/// Runs it at a new machine for two threads.
fn show(rt: &impl Print, alloc: Global) -> anyhow::Result<()> {
    let mut machine = User::new(alloc, Setup::new(2, 8, 4))?;
    let told = run_all(rt, &mut machine);
    drop(machine);
    told
}

fn main(rt: HostRuntime) -> anyhow::Result<()> {
    let alloc = rt.alloc();
    show(&rt, alloc)
}
