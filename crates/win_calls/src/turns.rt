//! What follows the answers to a compound's calls, and the procedures that run for them.

ghost use Rattle.std.specs.Prelude.{◌≡◌, ◌<◌, ◌^◌, ◌++◌, ◌∷◌, false, ℕ, List, IfSome, IsTrue};
ghost use Rattle.user_model.specs.Stacks.{waits as waits_of};
ghost use Rattle.script_tree.specs.Tree.{Tree};
ghost use Rattle.script_tree.specs.Pieces.{Piece, Leaving, Restore, Returning};
ghost use Rattle.script_tree.specs.Steps.{follows, following, answered as answered_by, parameters_of};
ghost use Rattle.script_tree.specs.declared.variables.Variables.{Variables};
ghost use Rattle.script_tree.specs.declared.variables.Parameters.{Parameters};
ghost use Rattle.script_tree.specs.declared.frame.Run.{Run};
ghost use Rattle.win_calls.specs.declared.compound.Got.{Got};
ghost use Rattle.win_calls.specs.Table.{run_asked, runs_first};
ghost use Rattle.win_calls.specs.States.{IsTurn, AreNarrow, LeavesNot, MayFollow, Accepts, Awaits, Leads, Below, Hands, IsRun, behind, then_piece, then_of};

use crate::compound::Next;
use crate::ends::{asks, gives};
use crate::stage::{Stage, Step, Then, Turn};
use script_tree::{Parameters, result_of};
use user_model::{Answer, Call};
use win_num::Hwnd;

/// A number of 32 bits, and 0 for one beyond.
fn narrowed(number: u64) -> u32
    ensures { number < 2 ^ 32 → result ≡ number }
{
    u32::try_from(number).unwrap_or(0)
}

fn waits(call: &Call) -> bool
    ensures { result ≡ waits_of call.now }
{
    match call {
        Call::Send(_, _, _, _) => true,
        Call::SendTimeout(_, _, _, _, _, _) => true,
        _ => false,
    }
}

/// Parameters from their numbers.
fn with(hwnd: u64, number: u64, wparam: u64, lparam: u64) -> Parameters
    ensures { result ≡ record { hwnd = hwnd; number = number; wparam = wparam; lparam = lparam } }
{
    Parameters {
        hwnd,
        number,
        wparam,
        lparam,
    }
}

/// The parameters of the procedure that a call runs.
fn parameters(call: &Call) -> Parameters
    ensures { result ≡ parameters_of call.now }
{
    match call {
        Call::Dispatch(w, m, p, q) => with(*w, *m, *p, *q),
        Call::Send(w, m, p, q) => with(*w, *m, *p, *q),
        Call::SendTimeout(w, m, p, q, _, _) => with(*w, *m, *p, *q),
        Call::SendNotify(w, m, p, q) => with(*w, *m, *p, *q),
        Call::SendCallback(w, m, p, q, _, _) => with(*w, *m, *p, *q),
        _ => Parameters::none(),
    }
}

/// Whether the answer may follow the call, as far as `CompoundState::next` asks: none enters a send where the call
/// is a `leave`, and a procedure runs for the call itself only where its window and its message are numbers of 32
/// bits. A lawful machine gives no other answer.
pub fn may_follow(call: &Call, answer: &Answer) -> bool
    ensures sound { IsTrue result → MayFollow call.now answer.now }
    ensures complete { MayFollow call.now answer.now → IsTrue result }
{
    match answer {
        Answer::Enter { .. } => leaves_not(call),
        Answer::Inside(_, _) => is_narrow(&parameters(call)),
        Answer::Called(_) => is_narrow(&parameters(call)),
        _ => true,
    }
}

fn leaves_not(call: &Call) -> bool
    ensures sound { IsTrue result → LeavesNot call.now }
    ensures complete { LeavesNot call.now → IsTrue result }
{
    match call {
        Call::Leave(_) => false,
        _ => true,
    }
}

fn is_narrow(parameters: &Parameters) -> bool
    ensures sound { IsTrue result → AreNarrow parameters.now }
    ensures complete { AreNarrow parameters.now → IsTrue result }
{
    parameters.hwnd < 4294967296 && parameters.number < 4294967296
}

/// The procedure that a call runs is to run.
fn inside(call: &Call, proc_no: u32) -> Next
    requires { AreNarrow (parameters_of call.now) }
    ensures run { IsRun result }
    ensures asked { result ≡ run_asked proc_no (parameters_of call.now) false }
{
    let parameters = parameters(call);
    Next::Run {
        proc_no,
        hwnd: Hwnd(narrowed(parameters.hwnd)),
        number: narrowed(parameters.number),
        wparam: parameters.wparam,
        lparam: parameters.lparam,
        callback: false,
    }
}

/// The procedure on top is to be left.
fn leaves(turn: Turn, then: Then, first: u64, value: u64) -> Step
    ensures step { result ≡ record { stage = Stage.Leaving turn then first value; next = Next.Make (Call.Leave value) } }
    ensures accepts { (g : Got) → Awaits result.next g → Accepts result.stage g }
{
    Step {
        stage: Stage::Leaving(turn, then, first, value),
        next: Next::Make(Call::Leave(value)),
    }
}

/// A procedure is to run.
fn runs(turn: Turn, then: Then, first: Option<u64>, next: Next) -> Step
    requires { IsRun next }
    ensures step { result ≡ record { stage = Stage.Running turn then first; next = next } }
    ensures accepts { (g : Got) → Awaits result.next g → Accepts result.stage g }
{
    Step {
        stage: Stage::Running(turn, then, first),
        next,
    }
}

/// The procedure that ran has given this result.
pub fn returned(turn: Turn, then: Then, first: Option<u64>, value: u64) -> Step
    ensures follows { (s : Tree) (n : ℕ) (run : Run) (p : Parameters) (qs : List Piece) (v : Variables) → IsTurn turn → Below (then_piece turn.call then ∷ behind turn) first qs → Leads s n (Leaving run ∷ Restore p ∷ qs) (Returning v value) result.stage result.next }
    ensures accepts { (g : Got) → Awaits result.next g → Accepts result.stage g }
{
    match first {
        None => leaves(turn, then, value, value),
        Some(earlier) => leaves(turn, then, earlier, value),
    }
}

/// The procedure that an answer runs, if it runs one.
fn procedure(call: &Call, answer: &Answer) -> Option<Next>
    requires { MayFollow call.now answer.now }
    ensures run { IfSome result IsRun }
    ensures first { result ≡ runs_first (following call.now answer.now) }
{
    match answer {
        Answer::Enter {
            proc_no,
            hwnd,
            number,
            wparam,
            lparam,
            ..
        } => Some(Next::Run {
            proc_no: *proc_no,
            hwnd: *hwnd,
            number: *number,
            wparam: *wparam,
            lparam: *lparam,
            callback: false,
        }),
        Answer::Callback {
            proc_no,
            hwnd,
            number,
            extra,
            result,
            ..
        } => Some(Next::Run {
            proc_no: *proc_no,
            hwnd: *hwnd,
            number: *number,
            wparam: *extra,
            lparam: *result,
            callback: true,
        }),
        Answer::Inside(_, proc_no) => Some(inside(call, *proc_no)),
        Answer::Called(proc_no) => Some(inside(call, *proc_no)),
        _ => None,
    }
}

/// What comes when the procedure that runs for a call after this answer has been left.
fn after_run(answer: Answer) -> Then
    ensures { result ≡ then_of answer }
{
    match answer {
        Answer::Enter { .. } => Then::Again,
        Answer::Callback { .. } => Then::Again,
        _ => Then::Giving(answer),
    }
}

/// Its call was answered, and no procedure runs for it.
fn stays(turn: Turn, answer: Answer) -> Step
    ensures follows { (s : Tree) (n : ℕ) (v : Variables) → IsTurn turn → None ≡ runs_first (following turn.call answer) → Leads s n (follows turn.call answer ++ behind turn) (answered_by turn.call answer v) result.stage result.next }
    ensures accepts { (g : Got) → Awaits result.next g → Accepts result.stage g }
{
    match answer {
        Answer::Wait => asks(turn),
        Answer::Begun(send) => {
            if waits(&turn.call) {
                let call = Call::Await(u64::from(send.0));
                asks(Turn { call, ..turn })
            } else {
                gives(turn, answer, 0)
            }
        }
        _ => gives(turn, answer, result_of(&answer)),
    }
}

/// Its call was answered.
pub fn answered(turn: Turn, answer: Answer) -> Step
    requires { MayFollow turn.call answer }
    ensures follows { (s : Tree) (n : ℕ) (v : Variables) → IsTurn turn → Leads s n (follows turn.call answer ++ behind turn) (answered_by turn.call answer v) result.stage result.next }
    ensures accepts { (g : Got) → Awaits result.next g → Accepts result.stage g }
{
    match procedure(&turn.call, &answer) {
        Some(next) => runs(turn, after_run(answer), None, next),
        None => stays(turn, answer),
    }
}

/// The procedures that ran for its call have been left, the first with this result.
fn resumed(turn: Turn, then: Then, first: u64) -> Step
    ensures follows { (s : Tree) (n : ℕ) (v : Variables) → IsTurn turn → Leads s n (then_piece turn.call then ∷ behind turn) (Returning v first) result.stage result.next }
    ensures accepts { (g : Got) → Awaits result.next g → Accepts result.stage g }
{
    match then {
        Then::Again => asks(turn),
        Then::Giving(answer) => gives(turn, answer, first),
    }
}

/// The `leave` of the procedure on top was answered.
pub fn left(turn: Turn, then: Then, first: u64, value: u64, answer: Answer) -> Step
    requires { MayFollow (Call.Leave value) answer }
    ensures follows { (s : Tree) (n : ℕ) (qs : List Piece) (v : Variables) → IsTurn turn → Hands first (then_piece turn.call then ∷ behind turn) qs → Leads s n (follows (Call.Leave value) answer ++ qs) (answered_by (Call.Leave value) answer v) result.stage result.next }
    ensures accepts { (g : Got) → Awaits result.next g → Accepts result.stage g }
{
    match answer {
        Answer::Wait => leaves(turn, then, first, value),
        _ => match procedure(&Call::Leave(value), &answer) {
            Some(next) => runs(turn, then, Some(first), next),
            None => resumed(turn, then, first),
        },
    }
}
