//! What the states at the clipboard have in common: a call there, a send where its answer leads to one, and for a get
//! a second call.

ghost use Rattle.std.specs.Prelude.{◌≡◌, ℕ, List, Some};
ghost use Rattle.script_tree.specs.Tree.{Tree};
ghost use Rattle.script_tree.specs.Pieces.{Piece, State as TableState};
ghost use Rattle.win_calls.specs.States.{Leads as LeadsIn, Awaits as AwaitsOf, Accepts as AcceptsIn};
ghost use Rattle.win_calls.specs.declared.compound.Got.{Got as Given};
ghost use Rattle.clip_board.specs.declared.moves.ClipGot.{ClipGot as Handing};
ghost use Rattle.clip_board.specs.Traces.{Point, sending, called, Handed, Awaits, Accepts, StandsAt, Leads, call_of, send_after as send_after_of, send_to as send_to_of, end_of, get_end as get_end_of, empty_end as empty_end_of, done as done_of, behind_of};

use crate::entry::{ClipAnswer, ClipCall, WM_DESTROYCLIPBOARD, WM_RENDERFORMAT};
use crate::moves::{ClipGot, ClipNext};
use user_model::Call;
use win_calls::{CallState, Got, Next};
use win_num::Hwnd;

/// What a state does at the clipboard.
#[derive(Clone, Copy)]
pub enum Errand {
    /// It gets the data of a format.
    Getting(u32),
    Emptying,
}

/// How far a state has come.
#[derive(Clone, Copy)]
pub enum Stage {
    /// It hasn't begun.
    Fresh(Errand),
    /// Its first call is made.
    First(Errand),
    /// Its send is at work.
    Sending(Errand, CallState),
    /// Its second `Get` of the format is made.
    Again(u32),
    /// It has ended.
    Over,
}

/// How far a state has come, and what it asks for there.
#[derive(Clone, Copy)]
pub struct Move {
    pub stage: Stage,
    pub next: ClipNext,
}

/// It has ended.
fn over(next: ClipNext) -> Move
    ensures { result ≡ record { stage = Stage.Over; next = next } }
{
    Move {
        stage: Stage::Over,
        next,
    }
}

/// The end, with these values of r and err.
fn done(r: u64, err: u16) -> ClipNext
    ensures { result ≡ done_of r err }
{
    ClipNext::User(Next::Done { r, err })
}

/// How a get ends with the answer to its last call.
fn get_end(answer: ClipAnswer) -> ClipNext
    ensures { result ≡ get_end_of answer }
{
    match answer {
        ClipAnswer::Value(value) => done(value, 0),
        ClipAnswer::Refused(code) => done(0, code.number()),
        ClipAnswer::Ask(_) => done(0, 60004),
        _ => done(0, 60003),
    }
}

/// How an `Empty` ends.
fn empty_end(answer: ClipAnswer) -> ClipNext
    ensures { result ≡ empty_end_of answer }
{
    match answer {
        ClipAnswer::Refused(code) => done(0, code.number()),
        _ => done(1, 0),
    }
}

/// The send that brings the message to a window.
fn send_to(window: Hwnd, number: u32, format: u32) -> Call
    ensures { result ≡ send_to_of window number format }
{
    Call::Send(u64::from(window.0), u64::from(number), u64::from(format), 0)
}

impl Errand {
    /// Its call at the clipboard.
    fn call(self) -> ClipCall
        ensures { result ≡ call_of self }
    {
        match self {
            Errand::Getting(format) => ClipCall::Get { format },
            Errand::Emptying => ClipCall::Empty,
        }
    }

    /// The send that the answer to its first call leads to.
    fn send_after(self, answer: ClipAnswer) -> Option<Call>
        ensures { result ≡ send_after_of self answer }
    {
        match self {
            Errand::Getting(format) => match answer {
                ClipAnswer::Ask(owner) => Some(send_to(owner, WM_RENDERFORMAT, format)),
                _ => None,
            },
            Errand::Emptying => match answer {
                ClipAnswer::Was(owner) => {
                    if owner.0 == 0 {
                        None
                    } else {
                        Some(send_to(owner, WM_DESTROYCLIPBOARD, 0))
                    }
                }
                _ => None,
            },
        }
    }

    /// How it ends with the answer to its last call.
    fn end(self, answer: ClipAnswer) -> ClipNext
        ensures { result ≡ end_of self answer }
    {
        match self {
            Errand::Getting(_) => get_end(answer),
            Errand::Emptying => empty_end(answer),
        }
    }
}

/// The answer to its first call is handed in.
fn first(errand: Errand, answer: ClipAnswer) -> Move
    ensures follows { (s : Tree) (n : ℕ) → Leads s n (called errand answer) result.stage result.next }
    ensures accepts { (g : Handing) → Awaits result.next g → Accepts result.stage g }
{
    match errand.send_after(answer) {
        Some(call) => {
            let mut send = CallState::of(call);
            let next = send.next(Got::Start);
            sends(errand, send, next)
        }
        None => over(errand.end(answer)),
    }
}

/// Its send asks for that.
fn sends(errand: Errand, send: CallState, next: Next) -> Move
    requires { (g : Given) → AwaitsOf next g → AcceptsIn send.stage g }
    ensures follows { (s : Tree) (n : ℕ) (ps : List Piece) (st : TableState) → LeadsIn s n ps st send.stage next → Leads s n (sending errand ps st) result.stage result.next }
    ensures accepts { (g : Handing) → Awaits result.next g → Accepts result.stage g }
{
    match next {
        Next::Done { .. } => behind_send(errand),
        _ => Move {
            stage: Stage::Sending(errand, send),
            next: ClipNext::User(next),
        },
    }
}

/// Its send is over.
fn behind_send(errand: Errand) -> Move
    ensures { result ≡ behind_of errand }
{
    match errand {
        Errand::Getting(format) => Move {
            stage: Stage::Again(format),
            next: ClipNext::Clip(ClipCall::Get { format }),
        },
        Errand::Emptying => over(done(1, 0)),
    }
}

/// Where a state at that stage is led, and what it asks for there.
pub fn goes_on(stage: Stage, got: ClipGot) -> Move
    requires { Accepts stage got }
    ensures follows { (s : Tree) (n : ℕ) (p q : Point) → StandsAt stage p → Handed s n p got q → Leads s n q result.stage result.next }
    ensures accepts { (g : Handing) → Awaits result.next g → Accepts result.stage g }
{
    match stage {
        Stage::Fresh(errand) => Move {
            stage: Stage::First(errand),
            next: ClipNext::Clip(errand.call()),
        },
        Stage::First(errand) => match got {
            ClipGot::Clip(answer) => first(errand, answer),
            ClipGot::User(_) => unreachable!(),
        },
        Stage::Sending(errand, send) => match got {
            ClipGot::User(got) => {
                let mut send = send;
                let next = send.next(got);
                sends(errand, send, next)
            }
            ClipGot::Clip(_) => unreachable!(),
        },
        Stage::Again(_) => match got {
            ClipGot::Clip(answer) => over(get_end(answer)),
            ClipGot::User(_) => unreachable!(),
        },
        Stage::Over => unreachable!(),
    }
}
