//! Keys at a dialog, step by step.

ghost use Rattle.std.specs.Prelude.{IsTrue};
ghost use Rattle.win_calls.specs.States.{Awaits};

use dialog_keys::Got::{Answered, Returned};
use dialog_keys::Next::Make;
use dialog_keys::{
    DialogKey, Got, KeyState, Next, VK_DOWN, VK_ESCAPE, VK_LEFT, VK_RETURN, VK_RIGHT, VK_TAB,
    VK_UP, may_follow,
};
use std::process::Abort;
use user_model::{Answer, Call};
use win_num::{Code, Hwnd, SendId};

/// What is handed in at each step, and what is asked for then.
type Steps = &'static [(Got, Next)];

/// A key, what it asks for first, and its steps from then on.
type Case = (DialogKey, Next, Steps);

/// The style of a child that is shown: WS_CHILD and WS_VISIBLE.
const OPEN: Answer = Answer::Value(1_342_177_280);

/// The style of one that is shown and disabled: WS_CHILD, WS_VISIBLE and WS_DISABLED.
const DISABLED: Answer = Answer::Value(1_476_395_008);

/// The style of one that isn't shown: WS_CHILD.
const HIDDEN: Answer = Answer::Value(1_073_741_824);

/// The child is gone.
const GONE: Answer = Answer::Refused(Code::Win(1400));

/// What a key that moves the focus asks for first.
const FIRST: Next = Make(Call::ChildAfter(16, 0));

/// A key at dialog 16, where that window has the focus.
macro_rules! key {
    ($focus:expr, $vk:expr, $shift:expr) => {
        DialogKey {
            dialog: Hwnd(16),
            focus: Hwnd($focus),
            vk: $vk,
            shift: $shift,
        }
    };
}

/// A window is answered.
macro_rules! window {
    ($number:expr) => {
        Answered(Answer::Window(Hwnd($number)))
    };
}

/// The call was refused.
macro_rules! refused {
    ($number:expr) => {
        Answered(Answer::Refused(Code::Win($number)))
    };
}

/// It has ended, with these values of r and err.
macro_rules! done {
    ($r:expr, $err:expr) => {
        Next::Done { r: $r, err: $err }
    };
}

/// The steps of a walk over the children 17, 18 and 19 that have these styles, and what comes behind it.
macro_rules! walk {
    ($first:expr, $second:expr, $third:expr, $($behind:expr),+) => {
        &[
            (window!(17), Make(Call::StyleOf(17))),
            (Answered($first), Make(Call::ChildAfter(16, 17))),
            (window!(18), Make(Call::StyleOf(18))),
            (Answered($second), Make(Call::ChildAfter(16, 18))),
            (window!(19), Make(Call::StyleOf(19))),
            (Answered($third), Make(Call::ChildAfter(16, 19))),
            $($behind),+
        ]
    };
}

/// The walk is over, and that window is to get the focus.
macro_rules! focus {
    ($window:expr) => {
        (window!(0), Make(Call::SetFocus($window)))
    };
}

/// The window had the focus by then, so nobody is told.
macro_rules! was {
    ($window:expr) => {
        Answered(Answer::Was(Hwnd($window)))
    };
}

/// All three children are open, and that window gets the focus.
macro_rules! moves {
    ($focus:expr, $vk:expr, $shift:expr, $window:expr) => {
        (
            key!($focus, $vk, $shift),
            FIRST,
            walk!(
                OPEN,
                OPEN,
                OPEN,
                focus!($window),
                (was!($window), done!($window, 0))
            ),
        )
    };
}

/// Whether that may be handed in where this was asked for.
fn awaits(next: &Next, got: &Got) -> bool
    ensures { IsTrue result → Awaits next.now got.now }
{
    match got {
        Got::Start => false,
        Got::Returned(_) => match next {
            Next::Run { .. } => true,
            _ => false,
        },
        Got::Answered(answer) => match next {
            Next::Make(call) => may_follow(call, answer),
            _ => false,
        },
    }
}

/// The key asks for exactly these things where that is handed in, and for the first of them at its start.
fn asks(rt: &impl Abort, key: DialogKey, first: Next, wanted: &[(Got, Next)]) {
    let mut state = KeyState::of(key);
    let mut next = state.next(Got::Start);
    assert!(rt; next == first);
    for (got, then) in wanted {
        assert!(rt; awaits(&next, got));
        next = state.next(*got);
        assert!(rt; next == *then);
    }
}

/// All of these keys.
fn all_ask(rt: &impl Abort, cases: &[Case]) {
    for (key, first, wanted) in cases {
        asks(rt, *key, *first, wanted);
    }
}

/// Tab where 17 and 19 are open and 18 is disabled: from 17 to 19, and from 19 round to 17, with Shift too.
static GOES_ROUND: [Case; 3] = [
    (
        key!(17, VK_TAB, false),
        FIRST,
        walk!(
            OPEN,
            DISABLED,
            OPEN,
            focus!(19),
            (
                Answered(Answer::Was(Hwnd(17))),
                Make(Call::Send(17, 8, 19, 0)),
            ),
            (refused!(1400), Make(Call::Send(19, 7, 17, 0))),
            (refused!(1400), done!(19, 0))
        ),
    ),
    (
        key!(19, VK_TAB, false),
        FIRST,
        walk!(OPEN, DISABLED, OPEN, focus!(17), (was!(17), done!(17, 0))),
    ),
    (
        key!(19, VK_TAB, true),
        FIRST,
        walk!(OPEN, DISABLED, OPEN, focus!(17), (was!(17), done!(17, 0))),
    ),
];

#[test]
fn goes_round(rt: HostRuntime) {
    all_ask(&rt, &GOES_ROUND);
}

/// Where all are open each key moves to the neighbour of 18, and to the other end behind the last; where nobody has the
/// focus, to the first or to the last.
static MOVES: [Case; 10] = [
    moves!(18, VK_TAB, false, 19),
    moves!(18, VK_RIGHT, false, 19),
    moves!(18, VK_DOWN, true, 19),
    moves!(18, VK_TAB, true, 17),
    moves!(18, VK_LEFT, false, 17),
    moves!(18, VK_UP, true, 17),
    moves!(17, VK_TAB, true, 19),
    moves!(19, VK_RIGHT, false, 17),
    moves!(0, VK_TAB, false, 17),
    moves!(0, VK_TAB, true, 19),
];

#[test]
fn moves(rt: HostRuntime) {
    all_ask(&rt, &MOVES);
}

/// Children that are hidden, disabled or gone don't get the focus; where none is left nobody gets it; and a window that
/// can't get it is told with the number of the refusal.
static PASSES_OVER: [Case; 5] = [
    (
        key!(17, VK_TAB, false),
        FIRST,
        walk!(OPEN, HIDDEN, OPEN, focus!(19), (was!(19), done!(19, 0))),
    ),
    (
        key!(17, VK_TAB, false),
        FIRST,
        walk!(OPEN, GONE, OPEN, focus!(19), (was!(19), done!(19, 0))),
    ),
    (
        key!(17, VK_TAB, false),
        FIRST,
        walk!(OPEN, HIDDEN, DISABLED, (window!(0), done!(0, 0))),
    ),
    (
        key!(17, VK_TAB, true),
        FIRST,
        walk!(
            DISABLED,
            OPEN,
            OPEN,
            focus!(19),
            (refused!(87), done!(19, 87))
        ),
    ),
    (key!(17, VK_TAB, false), FIRST, &[(window!(0), done!(0, 0))]),
];

#[test]
fn passes_over(rt: HostRuntime) {
    all_ask(&rt, &PASSES_OVER);
}

/// A refused `child_after` ends the key, though a child was open.
static STOPS: [Case; 2] = [
    (
        key!(17, VK_TAB, false),
        FIRST,
        &[(refused!(1400), done!(0, 1400))],
    ),
    (
        key!(17, VK_TAB, false),
        FIRST,
        walk!(OPEN, OPEN, OPEN, (refused!(1400), done!(0, 1400))),
    ),
];

#[test]
fn stops(rt: HostRuntime) {
    all_ask(&rt, &STOPS);
}

/// Enter and Escape send their command with the window that has the focus, and give what the procedure returns, or the
/// number of a refusal. A letter does nothing.
static COMMANDS: [Case; 3] = [
    (
        key!(19, VK_RETURN, false),
        Make(Call::Send(16, 273, 1, 19)),
        &[
            (
                Answered(Answer::Inside(SendId(1), 7)),
                Next::Run {
                    proc_no: 7,
                    hwnd: Hwnd(16),
                    number: 273,
                    wparam: 1,
                    lparam: 19,
                    callback: false,
                },
            ),
            (Returned(30), Make(Call::Leave(30))),
            (Answered(Answer::Left(SendId(1))), done!(30, 0)),
        ],
    ),
    (
        key!(19, VK_ESCAPE, true),
        Make(Call::Send(16, 273, 2, 19)),
        &[(refused!(1400), done!(0, 1400))],
    ),
    (key!(19, 65, false), done!(0, 0), &[]),
];

#[test]
fn commands(rt: HostRuntime) {
    all_ask(&rt, &COMMANDS);
}
