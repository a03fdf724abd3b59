//! The opening of a conversation, by both sides, step by step.

ghost use Rattle.std.specs.Prelude.{IsTrue};
ghost use Rattle.win_calls.specs.States.{Accepts, Awaits};
ghost use Rattle.win_calls.specs.declared.compound.Got.{Got};

use crate::making::{CLIENT, SERVER};
use dde_talk::OpenState;
use std::process::Abort;
use user_model::{Answer, Call};
use win_calls::{Got, Next, may_follow};
use win_num::{Cause, SendId};

/// What is handed in at each step, and what is asked for then.
type Steps = &'static [(Got, Next)];

/// Whether that may be handed in where this was asked for.
fn awaits(next: &Next, got: &Got) -> bool
    ensures { IsTrue result → Awaits next.now got.now }
{
    match got {
        Got::Start => false,
        Got::Returned(_) => match next {
            Next::Run { .. } => true,
            _ => false,
        },
        Got::Answered(answer) => match next {
            Next::Make(call) => may_follow(call, answer),
            _ => false,
        },
    }
}

/// The opening makes this call, and then asks for exactly these things where that is handed in.
fn asks(rt: &impl Abort, mut state: OpenState, call: Call, wanted: Steps)
    requires { Accepts state.state.stage Got.Start }
{
    let mut next = state.next(Got::Start);
    assert!(rt; next == Next::Make(call));
    for (got, then) in wanted {
        assert!(rt; awaits(&next, got));
        next = state.next(*got);
        assert!(rt; next == *then);
    }
}

/// The client sends WM_DDE_INITIATE to the server's window and waits for the result.
static CONNECTING: [(Got, Next); 2] = [
    (
        Got::Answered(Answer::Begun(SendId(1))),
        Next::Make(Call::Await(1)),
    ),
    (
        Got::Answered(Answer::Done {
            result: 5,
            cause: Cause::Proc,
        }),
        Next::Done { r: 5, err: 0 },
    ),
];

#[test]
fn connect(rt: HostRuntime) {
    let state = OpenState::connect(CLIENT, SERVER);
    asks(&rt, state, Call::Send(17, 992, 16, 0), &CONNECTING);
}

/// The server sends WM_DDE_ACK to the client's window and waits for the result.
static ACCEPTING: [(Got, Next); 2] = [
    (
        Got::Answered(Answer::Begun(SendId(2))),
        Next::Make(Call::Await(2)),
    ),
    (
        Got::Answered(Answer::Done {
            result: 1,
            cause: Cause::Proc,
        }),
        Next::Done { r: 1, err: 0 },
    ),
];

#[test]
fn accept(rt: HostRuntime) {
    let state = OpenState::accept(SERVER, CLIENT);
    asks(&rt, state, Call::Send(16, 996, 17, 0), &ACCEPTING);
}
