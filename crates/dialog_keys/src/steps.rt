//! What the state of a key asks for next.

ghost use Rattle.std.specs.Prelude.{◌≡◌, ℕ, Bool, List, Some, None};
ghost use Rattle.script_tree.specs.Tree.{Tree};
ghost use Rattle.script_tree.specs.Pieces.{Piece, State as TableState};
ghost use Rattle.win_calls.specs.declared.compound.Got.{Got as Given};
ghost use Rattle.win_calls.specs.States.{Leads as LeadsIn, Awaits, Accepts as AcceptsIn};
ghost use Rattle.dialog_keys.specs.declared.key.DialogKey.{DialogKey as Key};
ghost use Rattle.dialog_keys.specs.Traces.{Point, beginning, walking, looking, walked, stating, child_told as child_told_of, style_told, Handed};
ghost use Rattle.dialog_keys.specs.States.{Sums, Accepts, StandsAt, Leads};

use crate::key::{DialogKey, Errand, WM_COMMAND};
use crate::stage::{Stage, Step};
use crate::walk::{Walk, child_of, error_of};
use user_model::{Answer, Call};
use win_calls::{CallState, Compound, CompoundState, Got, Next};

/// It has ended.
fn over(r: u64, err: u16) -> Step
    ensures { result ≡ record { stage = Stage.Over; next = Next.Done r err } }
{
    Step {
        stage: Stage::Over,
        next: Next::Done { r, err },
    }
}

/// It asks for the next child.
fn asks_child(walk: Walk) -> Step
    ensures { result ≡ record { stage = Stage.Walking walk; next = Next.Make (Call.ChildAfter walk.dialog walk.child) } }
{
    Step {
        stage: Stage::Walking(walk),
        next: Next::Make(Call::ChildAfter(walk.dialog, walk.child)),
    }
}

/// It asks for the style of the child.
fn asks_style(walk: Walk) -> Step
    ensures { result ≡ record { stage = Stage.Looking walk; next = Next.Make (Call.StyleOf walk.child) } }
{
    Step {
        stage: Stage::Looking(walk),
        next: Next::Make(Call::StyleOf(walk.child)),
    }
}

/// The `set_focus` of that window asks for that.
fn focuses(window: u64, focus: CompoundState, next: Next) -> Step
    requires { (g : Given) → Awaits next g → AcceptsIn focus.stage g }
    ensures follows { (s : Tree) (n : ℕ) (ps : List Piece) (st : TableState) → LeadsIn s n ps st focus.stage next → Leads s n (stating (Some window) ps st) result.stage result.next }
    ensures accepts { (g : Given) → Awaits result.next g → Accepts result.stage g }
{
    match next {
        Next::Done { err, .. } => over(window, err),
        _ => Step {
            stage: Stage::Focusing(window, focus),
            next,
        },
    }
}

/// The `send` of the command asks for that.
fn sends(send: CallState, next: Next) -> Step
    requires { (g : Given) → Awaits next g → AcceptsIn send.stage g }
    ensures follows { (s : Tree) (n : ℕ) (ps : List Piece) (st : TableState) → LeadsIn s n ps st send.stage next → Leads s n (stating None ps st) result.stage result.next }
    ensures accepts { (g : Given) → Awaits result.next g → Accepts result.stage g }
{
    match next {
        Next::Done { r, err } => over(r, err),
        _ => Step {
            stage: Stage::Sending(send),
            next,
        },
    }
}

/// The walk is over.
fn chooses(walk: Walk) -> Step
    ensures follows { (s : Tree) (n : ℕ) (k : Key) (forwards : Bool) (ws : List ℕ) (v : ℕ) → Sums walk k forwards ws v → Leads s n (walked k forwards ws) result.stage result.next }
    ensures accepts { (g : Given) → Awaits result.next g → Accepts result.stage g }
{
    match walk.next_control() {
        Some(window) => {
            let mut focus = CompoundState::of(Compound::SetFocus(window));
            let next = focus.next(Got::Start);
            focuses(window, focus, next)
        }
        None => over(0, 0),
    }
}

/// The call for the next child is answered.
fn child_told(walk: Walk, answer: Answer) -> Step
    ensures follows { (s : Tree) (n : ℕ) (k : Key) (forwards : Bool) (ws : List ℕ) (v : ℕ) → Sums walk k forwards ws v → Leads s n (child_told_of k forwards ws answer) result.stage result.next }
    ensures accepts { (g : Given) → Awaits result.next g → Accepts result.stage g }
{
    if let Some(err) = error_of(&answer) {
        return over(0, err);
    }
    match child_of(&answer) {
        Some(child) => asks_style(walk.at(child)),
        None => chooses(walk),
    }
}

/// It begins.
fn begins(key: DialogKey) -> Step
    ensures follows { (s : Tree) (n : ℕ) → Leads s n (beginning key) result.stage result.next }
    ensures accepts { (g : Given) → Awaits result.next g → Accepts result.stage g }
{
    match key.errand() {
        Errand::Moves(forwards) => asks_child(Walk::new(key, forwards)),
        Errand::Commands(id) => {
            let mut send = CallState::of(Call::Send(
                u64::from(key.dialog.0),
                WM_COMMAND,
                id,
                u64::from(key.focus.0),
            ));
            let next = send.next(Got::Start);
            sends(send, next)
        }
        Errand::Nothing => over(0, 0),
    }
}

/// Where a state at that stage is led, and what it asks for there.
pub fn goes_on(stage: Stage, got: Got) -> Step
    requires { Accepts stage got }
    ensures follows { (s : Tree) (n : ℕ) (p q : Point) → StandsAt stage p → Handed s n p got q → Leads s n q result.stage result.next }
    ensures accepts { (g : Given) → Awaits result.next g → Accepts result.stage g }
{
    match stage {
        Stage::Fresh(key) => begins(key),
        Stage::Walking(walk) => match got {
            Got::Answered(answer) => child_told(walk, answer),
            _ => unreachable!(),
        },
        Stage::Looking(walk) => match got {
            Got::Answered(answer) => asks_child(walk.seen(&answer)),
            _ => unreachable!(),
        },
        Stage::Focusing(window, focus) => {
            let mut focus = focus;
            let next = focus.next(got);
            focuses(window, focus, next)
        }
        Stage::Sending(send) => {
            let mut send = send;
            let next = send.next(got);
            sends(send, next)
        }
        Stage::Over => unreachable!(),
    }
}
