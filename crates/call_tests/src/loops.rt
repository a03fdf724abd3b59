//! Loops of messages, step by step.

ghost use Rattle.win_calls.specs.declared.compound.Got.{Got};
ghost use Rattle.win_calls.specs.States.{Accepts};

use crate::steps::{Steps, awaits};
use modal_loop::Got::{Answered, Returned};
use modal_loop::Next::Make;
use modal_loop::{Got, LoopState, Next};
use std::process::Abort;
use user_model::{Answer, Call, Origin};
use win_num::{Code, Hwnd, Msg, Point, SendId};

/// A loop of messages.
#[derive(Clone, Copy)]
enum Loop {
    Pump,
    /// `dialog` on the window of this number.
    Dialog(u64),
}

/// A loop, the call that it asks for first, and its steps from then on.
type Case = (Loop, Call, Steps);

/// A posted message comes to window 16.
macro_rules! message {
    ($number:expr, $wparam:expr) => {
        Got::Answered(Answer::Got {
            origin: Origin::Posted,
            number: 1,
            msg: Msg {
                hwnd: Hwnd(16),
                number: $number,
                wparam: $wparam,
                lparam: 5,
                time: 0,
                point: Point { x: 0, y: 0 },
            },
        })
    };
}

/// The procedure of a window runs for a message.
macro_rules! run {
    ($window:expr, $number:expr, $wparam:expr, $lparam:expr) => {
        Next::Run {
            proc_no: 7,
            hwnd: Hwnd($window),
            number: $number,
            wparam: $wparam,
            lparam: $lparam,
            callback: false,
        }
    };
}

/// It has ended, with these values of r and err.
macro_rules! done {
    ($r:expr, $err:expr) => {
        Next::Done { r: $r, err: $err }
    };
}

/// The call is refused with an error of Windows.
macro_rules! refused {
    ($number:expr) => {
        Got::Answered(Answer::Refused(Code::Win($number)))
    };
}

const GET: Call = Call::Get(0, 0, 0);

const STATE: Call = Call::DialogState(16);

/// The loop before its first call.
fn begun(which: Loop) -> LoopState
    ensures { Accepts result.state.stage Got.Start }
{
    match which {
        Loop::Pump => LoopState::pump(),
        Loop::Dialog(w) => LoopState::dialog(w),
    }
}

/// The loop asks for exactly these things where that is handed in.
fn asks(rt: &impl Abort, which: Loop, first: Call, wanted: &[(Got, Next)]) {
    let mut state = begun(which);
    let mut next = state.next(Got::Start);
    assert!(rt; next == Next::Make(first));
    for (got, then) in wanted {
        assert!(rt; awaits(&next, got));
        next = state.next(*got);
        assert!(rt; next == *then);
    }
}

/// Each of these loops does.
fn all_ask(rt: &impl Abort, cases: &[Case]) {
    for (which, first, wanted) in cases {
        asks(rt, *which, *first, wanted);
    }
}

/// A message, a key that goes down, one for no window; WM_QUIT with a code; a `get` that is refused.
static PUMPS: [Case; 2] = [
    (
        Loop::Pump,
        GET,
        &[
            (Answered(Answer::Wait), Make(GET)),
            (message!(1024, 3), Make(Call::Dispatch(16, 1024, 3, 5))),
            (Answered(Answer::Called(7)), run!(16, 1024, 3, 5)),
            (Returned(9), Make(Call::Leave(9))),
            (Answered(Answer::Left(SendId(0))), Make(GET)),
            (message!(256, 65), Make(Call::Translate(16, 256, 65, 5))),
            (refused!(1816), Make(Call::Dispatch(16, 256, 65, 5))),
            (refused!(1400), Make(GET)),
            (message!(258, 97), Make(Call::Dispatch(16, 258, 97, 5))),
            (Answered(Answer::Okay), Make(GET)),
            (message!(18, 4), done!(4, 0)),
        ],
    ),
    (
        Loop::Pump,
        GET,
        &[(Answered(Answer::Refused(Code::Full)), done!(0, 60000))],
    ),
];

#[test]
fn pumps(rt: HostRuntime) {
    all_ask(&rt, &PUMPS);
}

/// A dialog without an owner: its procedure ends it; its window goes; it can't begin.
static DIALOGS_WITHOUT_AN_OWNER: [Case; 3] = [
    (
        Loop::Dialog(16),
        Call::BeginDialog(16),
        &[
            (Answered(Answer::Window(Hwnd(0))), Make(STATE)),
            (Answered(Answer::Running), Make(GET)),
            (message!(275, 1), Make(Call::Dispatch(16, 275, 1, 5))),
            (Answered(Answer::Called(7)), run!(16, 275, 1, 5)),
            (Returned(0), Make(Call::Leave(0))),
            (Answered(Answer::Left(SendId(0))), Make(STATE)),
            (Answered(Answer::Finished(6)), done!(6, 0)),
        ],
    ),
    (
        Loop::Dialog(16),
        Call::BeginDialog(16),
        &[
            (Answered(Answer::Window(Hwnd(0))), Make(STATE)),
            (Answered(Answer::Gone), done!(0, 0)),
        ],
    ),
    (
        Loop::Dialog(16),
        Call::BeginDialog(16),
        &[(refused!(87), done!(0, 87))],
    ),
];

#[test]
fn dialogs_without_an_owner(rt: HostRuntime) {
    all_ask(&rt, &DIALOGS_WITHOUT_AN_OWNER);
}

/// A dialog whose owner is disabled and enabled again, and whose thread gets WM_QUIT in it.
static DIALOGS_WITH_AN_OWNER: [Case; 1] = [(
    Loop::Dialog(16),
    Call::BeginDialog(16),
    &[
        (
            Answered(Answer::Window(Hwnd(17))),
            Make(Call::Enable(17, 0)),
        ),
        (Answered(Answer::Value(0)), Make(Call::Send(17, 31, 0, 0))),
        (refused!(1400), Make(Call::Send(17, 10, 0, 0))),
        (refused!(1400), Make(STATE)),
        (Answered(Answer::Running), Make(GET)),
        (message!(18, 4), Make(Call::PostQuit(4))),
        (Answered(Answer::Okay), Make(Call::EndDialog(16, 0))),
        (Answered(Answer::Okay), Make(STATE)),
        (Answered(Answer::Finished(0)), Make(Call::Enable(17, 1))),
        (Answered(Answer::Value(1)), Make(Call::Send(17, 10, 1, 0))),
        (refused!(1400), done!(0, 0)),
    ],
)];

#[test]
fn dialogs_with_an_owner(rt: HostRuntime) {
    all_ask(&rt, &DIALOGS_WITH_AN_OWNER);
}

/// An owner that was disabled already stays so; one that is gone at the end changes nothing; a refused `get` ends
/// the loop, and the owner is enabled then too.
static OWNERS_THAT_CHANGE: [Case; 2] = [
    (
        Loop::Dialog(16),
        Call::BeginDialog(16),
        &[
            (
                Answered(Answer::Window(Hwnd(17))),
                Make(Call::Enable(17, 0)),
            ),
            (Answered(Answer::Value(1)), Make(STATE)),
            (Answered(Answer::Finished(3)), done!(3, 0)),
        ],
    ),
    (
        Loop::Dialog(16),
        Call::BeginDialog(16),
        &[
            (
                Answered(Answer::Window(Hwnd(17))),
                Make(Call::Enable(17, 0)),
            ),
            (Answered(Answer::Value(0)), Make(Call::Send(17, 31, 0, 0))),
            (refused!(1400), Make(Call::Send(17, 10, 0, 0))),
            (refused!(1400), Make(STATE)),
            (Answered(Answer::Running), Make(GET)),
            (
                Answered(Answer::Refused(Code::Full)),
                Make(Call::Enable(17, 1)),
            ),
            (refused!(1400), done!(0, 60000)),
        ],
    ),
];

#[test]
fn owners_that_change(rt: HostRuntime) {
    all_ask(&rt, &OWNERS_THAT_CHANGE);
}
