//! Statements that are one call alone, step by step.

use crate::steps::{Steps, awaits};
use std::process::Abort;
use user_model::{Answer, Call};
use win_calls::Got::{Answered, Returned};
use win_calls::Next::Make;
use win_calls::{CallState, Got, Next, stands_alone};
use win_num::{Cause, Code, Hwnd, SendId};

/// A call, and its steps once it is asked for.
type Case = (Call, Steps);

/// The window's procedure runs for a message of number 1024 with 3 and 4.
const RUN: Next = Next::Run {
    proc_no: 7,
    hwnd: Hwnd(16),
    number: 1024,
    wparam: 3,
    lparam: 4,
    callback: false,
};

/// The call asks for exactly these things where that is handed in.
fn asks(rt: &impl Abort, call: Call, wanted: &[(Got, Next)]) {
    assert!(rt; stands_alone(&call));
    let mut state = CallState::of(call);
    let mut next = state.next(Got::Start);
    assert!(rt; next == Make(call));
    for (got, then) in wanted {
        assert!(rt; awaits(&next, got));
        next = state.next(*got);
        assert!(rt; next == *then);
    }
}

/// A send to an own window gives what the procedure returns, one to another thread's is awaited, one to no window is
/// refused, and one that is over by then tells why. A message is dispatched.
static CASES: [Case; 5] = [
    (
        Call::Send(16, 1024, 3, 4),
        &[
            (Answered(Answer::Inside(SendId(1), 7)), RUN),
            (Returned(30), Make(Call::Leave(30))),
            (
                Answered(Answer::Left(SendId(1))),
                Next::Done { r: 30, err: 0 },
            ),
        ],
    ),
    (
        Call::Send(17, 1024, 0, 0),
        &[
            (Answered(Answer::Begun(SendId(2))), Make(Call::Await(2))),
            (
                Answered(Answer::Enter {
                    send: SendId(3),
                    proc_no: 7,
                    hwnd: Hwnd(16),
                    number: 1024,
                    wparam: 3,
                    lparam: 4,
                }),
                RUN,
            ),
            (Returned(5), Make(Call::Leave(5))),
            (Answered(Answer::Left(SendId(3))), Make(Call::Await(2))),
            (Answered(Answer::Wait), Make(Call::Await(2))),
            (
                Answered(Answer::Done {
                    result: 9,
                    cause: Cause::Proc,
                }),
                Next::Done { r: 9, err: 0 },
            ),
        ],
    ),
    (
        Call::Send(15, 1024, 0, 0),
        &[(
            Answered(Answer::Refused(Code::Win(1400))),
            Next::Done { r: 0, err: 1400 },
        )],
    ),
    (
        Call::SendTimeout(17, 1024, 0, 0, 0, 100),
        &[
            (Answered(Answer::Begun(SendId(4))), Make(Call::Await(4))),
            (
                Answered(Answer::Done {
                    result: 0,
                    cause: Cause::Timeout,
                }),
                Next::Done { r: 0, err: 1460 },
            ),
        ],
    ),
    (
        Call::Dispatch(16, 1024, 3, 4),
        &[
            (Answered(Answer::Called(7)), RUN),
            (Returned(8), Make(Call::Leave(8))),
            (
                Answered(Answer::Left(SendId(0))),
                Next::Done { r: 8, err: 0 },
            ),
        ],
    ),
];

#[test]
fn calls_alone(rt: HostRuntime) {
    for (call, wanted) in &CASES {
        asks(&rt, *call, wanted);
    }
}
