//! Compound statements, step by step.

use crate::steps::{Steps, awaits};
use std::process::Abort;
use user_model::{Answer, Call};
use win_calls::Got::{Answered, Returned};
use win_calls::Next::{Make, Run};
use win_calls::{Compound, CompoundState, Got, Next};
use win_num::{Cause, Code, Hwnd, SendId};

/// A compound, what it asks for first, and its steps from then on.
type Case = (Compound, Next, Steps);

/// The procedure of a window runs for a message.
macro_rules! run {
    ($window:expr, $number:expr, $wparam:expr, $lparam:expr) => {
        Next::Run {
            proc_no: 7,
            hwnd: Hwnd($window),
            number: $number,
            wparam: $wparam,
            lparam: $lparam,
            callback: false,
        }
    };
}

/// It has ended, with these values of r and err.
macro_rules! done {
    ($r:expr, $err:expr) => {
        Next::Done { r: $r, err: $err }
    };
}

/// The call is refused with an error of Windows.
macro_rules! refused {
    ($number:expr) => {
        Got::Answered(Answer::Refused(Code::Win($number)))
    };
}

/// The compound asks for exactly these things where that is handed in.
fn asks(rt: &impl Abort, compound: Compound, first: Next, wanted: &[(Got, Next)]) {
    let mut state = CompoundState::of(compound);
    let mut next = state.next(Got::Start);
    assert!(rt; next == first);
    for (got, then) in wanted {
        assert!(rt; awaits(&next, got));
        next = state.next(*got);
        assert!(rt; next == *then);
    }
}

/// Each of these compounds does.
fn all_ask(rt: &impl Abort, cases: &[Case]) {
    for (compound, first, wanted) in cases {
        asks(rt, *compound, *first, wanted);
    }
}

/// WM_NCCREATE gives 1 and WM_CREATE 0.
static CREATES: [Case; 1] = [(
    Compound::Create(0, 1, 0, 0, 0, 0, 0, 10, 10),
    Make(Call::NewWindow(0, 1, 0, 0, 0, 0, 0, 10, 10)),
    &[
        (
            Answered(Answer::Window(Hwnd(16))),
            Make(Call::Send(16, 129, 0, 0)),
        ),
        (Answered(Answer::Inside(SendId(1), 7)), run!(16, 129, 0, 0)),
        (Returned(1), Make(Call::Leave(1))),
        (
            Answered(Answer::Left(SendId(1))),
            Make(Call::Send(16, 1, 0, 0)),
        ),
        (Answered(Answer::Inside(SendId(2), 7)), run!(16, 1, 0, 0)),
        (Returned(0), Make(Call::Leave(0))),
        (Answered(Answer::Left(SendId(2))), done!(16, 0)),
    ],
)];

#[test]
fn creates(rt: HostRuntime) {
    all_ask(&rt, &CREATES);
}

/// WM_NCCREATE gives 0; the class is no class.
static IS_NOT_CREATED: [Case; 2] = [
    (
        Compound::Create(0, 1, 0, 0, 0, 0, 0, 10, 10),
        Make(Call::NewWindow(0, 1, 0, 0, 0, 0, 0, 10, 10)),
        &[
            (
                Answered(Answer::Window(Hwnd(16))),
                Make(Call::Send(16, 129, 0, 0)),
            ),
            (Answered(Answer::Inside(SendId(1), 7)), run!(16, 129, 0, 0)),
            (Returned(0), Make(Call::Leave(0))),
            (Answered(Answer::Left(SendId(1))), Make(Call::Doom(16))),
            (Answered(Answer::Okay), Make(Call::Unmake(16))),
            (
                Answered(Answer::Tell(Hwnd(16))),
                Make(Call::Send(16, 2, 0, 0)),
            ),
            (refused!(1400), Make(Call::Unmake(16))),
            (
                Answered(Answer::Last(Hwnd(16))),
                Make(Call::Send(16, 130, 0, 0)),
            ),
            (refused!(1400), Make(Call::Drop(16))),
            (Answered(Answer::Okay), Make(Call::Unmake(16))),
            (Answered(Answer::Gone), done!(0, 0)),
        ],
    ),
    (
        Compound::Create(0, 1, 0, 0, 0, 0, 0, 10, 10),
        Make(Call::NewWindow(0, 1, 0, 0, 0, 0, 0, 10, 10)),
        &[(refused!(1407), done!(0, 1407))],
    ),
];

#[test]
fn is_not_created(rt: HostRuntime) {
    all_ask(&rt, &IS_NOT_CREATED);
}

/// Window 17 is a child of window 16, of another thread, whose procedure is awaited.
static DESTROYS_A_WINDOW_WITH_A_CHILD: [Case; 1] = [(
    Compound::Destroy(16),
    Make(Call::Doom(16)),
    &[
        (Answered(Answer::Okay), Make(Call::Unmake(16))),
        (
            Answered(Answer::Tell(Hwnd(16))),
            Make(Call::Send(16, 2, 0, 0)),
        ),
        (Answered(Answer::Inside(SendId(1), 7)), run!(16, 2, 0, 0)),
        (Returned(0), Make(Call::Leave(0))),
        (Answered(Answer::Left(SendId(1))), Make(Call::Unmake(16))),
        (
            Answered(Answer::Tell(Hwnd(17))),
            Make(Call::Send(17, 2, 0, 0)),
        ),
        (Answered(Answer::Begun(SendId(2))), Make(Call::Await(2))),
        (Answered(Answer::Wait), Make(Call::Await(2))),
        (
            Answered(Answer::Done {
                result: 0,
                cause: Cause::Proc,
            }),
            Make(Call::Unmake(16)),
        ),
        (
            Answered(Answer::Last(Hwnd(17))),
            Make(Call::Send(17, 130, 0, 0)),
        ),
        (refused!(1400), Make(Call::Drop(17))),
        (Answered(Answer::Okay), Make(Call::Unmake(16))),
        (
            Answered(Answer::Last(Hwnd(16))),
            Make(Call::Send(16, 130, 0, 0)),
        ),
        (refused!(1400), Make(Call::Drop(16))),
        (Answered(Answer::Okay), Make(Call::Unmake(16))),
        (Answered(Answer::Gone), done!(1, 0)),
    ],
)];

#[test]
fn destroys_a_window_with_a_child(rt: HostRuntime) {
    all_ask(&rt, &DESTROYS_A_WINDOW_WITH_A_CHILD);
}

/// A window that is destroyed, one that is gone, and one that goes to another thread meanwhile.
static CLOSES_BY_DEFAULT: [Case; 3] = [
    (
        Compound::Default(16, 16, 0, 0),
        Make(Call::Doom(16)),
        &[
            (Answered(Answer::Okay), Make(Call::Unmake(16))),
            (Answered(Answer::Gone), done!(0, 0)),
        ],
    ),
    (
        Compound::Default(16, 16, 0, 0),
        Make(Call::Doom(16)),
        &[(refused!(1400), done!(0, 1400))],
    ),
    (
        Compound::Default(16, 16, 0, 0),
        Make(Call::Doom(16)),
        &[
            (Answered(Answer::Okay), Make(Call::Unmake(16))),
            (refused!(5), done!(0, 5)),
        ],
    ),
];

#[test]
fn closes_by_default(rt: HostRuntime) {
    all_ask(&rt, &CLOSES_BY_DEFAULT);
}

/// A window that is to paint, one whose background is to be painted, and each where it is another
/// thread's or gone; and messages that the default procedure makes no call for.
static PAINTS_BY_DEFAULT: [Case; 6] = [
    (
        Compound::Default(16, 15, 0, 0),
        Make(Call::Validate(16, 0, 0, 4096, 4096)),
        &[(Answered(Answer::Okay), done!(0, 0))],
    ),
    (
        Compound::Default(16, 15, 0, 0),
        Make(Call::Validate(16, 0, 0, 4096, 4096)),
        &[(refused!(1400), done!(0, 1400))],
    ),
    (
        Compound::Default(16, 20, 0, 0),
        Make(Call::Erase(16)),
        &[(Answered(Answer::Okay), done!(1, 0))],
    ),
    (
        Compound::Default(16, 20, 0, 0),
        Make(Call::Erase(16)),
        &[(refused!(5), done!(0, 5))],
    ),
    (Compound::Default(16, 129, 0, 0), done!(1, 0), &[]),
    (Compound::Default(16, 1024, 0, 0), done!(0, 0), &[]),
];

#[test]
fn paints_by_default(rt: HostRuntime) {
    all_ask(&rt, &PAINTS_BY_DEFAULT);
}

/// Sends 4 and 5 come in while send 3 is awaited, and a callback comes when 4 is left: what `await`
/// answers is the result of send 3.
static SERVES_WHILE_IT_AWAITS: [Case; 1] = [(
    Compound::Create(0, 1, 0, 0, 0, 0, 0, 10, 10),
    Make(Call::NewWindow(0, 1, 0, 0, 0, 0, 0, 10, 10)),
    &[
        (
            Answered(Answer::Window(Hwnd(16))),
            Make(Call::Send(16, 129, 0, 0)),
        ),
        (Answered(Answer::Begun(SendId(3))), Make(Call::Await(3))),
        (
            Answered(Answer::Enter {
                send: SendId(4),
                proc_no: 2,
                hwnd: Hwnd(18),
                number: 1024,
                wparam: 5,
                lparam: 6,
            }),
            Run {
                proc_no: 2,
                hwnd: Hwnd(18),
                number: 1024,
                wparam: 5,
                lparam: 6,
                callback: false,
            },
        ),
        (Returned(9), Make(Call::Leave(9))),
        (
            Answered(Answer::Callback {
                send: SendId(5),
                proc_no: 3,
                hwnd: Hwnd(18),
                number: 1025,
                extra: 7,
                result: 8,
            }),
            Run {
                proc_no: 3,
                hwnd: Hwnd(18),
                number: 1025,
                wparam: 7,
                lparam: 8,
                callback: true,
            },
        ),
        (Returned(0), Make(Call::Leave(0))),
        (Answered(Answer::Left(SendId(0))), Make(Call::Await(3))),
        (
            Answered(Answer::Done {
                result: 1,
                cause: Cause::Proc,
            }),
            Make(Call::Send(16, 1, 0, 0)),
        ),
        (Answered(Answer::Inside(SendId(6), 7)), run!(16, 1, 0, 0)),
        (Returned(4), Make(Call::Leave(4))),
        (
            Answered(Answer::Callback {
                send: SendId(5),
                proc_no: 3,
                hwnd: Hwnd(18),
                number: 1025,
                extra: 7,
                result: 8,
            }),
            Run {
                proc_no: 3,
                hwnd: Hwnd(18),
                number: 1025,
                wparam: 7,
                lparam: 8,
                callback: true,
            },
        ),
        (
            Returned(18446744073709551615),
            Make(Call::Leave(18446744073709551615)),
        ),
        (Answered(Answer::Left(SendId(0))), done!(16, 0)),
    ],
)];

#[test]
fn serves_while_it_awaits(rt: HostRuntime) {
    all_ask(&rt, &SERVES_WHILE_IT_AWAITS);
}

/// A window that is shown, one that was shown already, one that is gone; one that is disabled, one that is enabled,
/// and one that was so already.
static SHOWS_AND_ENABLES: [Case; 7] = [
    (
        Compound::ShowWindow(16, 1),
        Make(Call::Show(16, 1)),
        &[
            (Answered(Answer::Value(0)), Make(Call::Send(16, 24, 1, 0))),
            (refused!(1001), done!(0, 0)),
        ],
    ),
    (
        Compound::ShowWindow(16, 1),
        Make(Call::Show(16, 1)),
        &[(Answered(Answer::Value(1)), done!(1, 0))],
    ),
    (
        Compound::ShowWindow(16, 1),
        Make(Call::Show(16, 1)),
        &[(refused!(1400), done!(0, 1400))],
    ),
    (
        Compound::EnableWindow(16, 0),
        Make(Call::Enable(16, 0)),
        &[
            (Answered(Answer::Value(0)), Make(Call::Send(16, 31, 0, 0))),
            (refused!(1400), Make(Call::Send(16, 10, 0, 0))),
            (refused!(1400), done!(0, 0)),
        ],
    ),
    (
        Compound::EnableWindow(16, 0),
        Make(Call::Enable(16, 0)),
        &[(Answered(Answer::Value(1)), done!(1, 0))],
    ),
    (
        Compound::EnableWindow(16, 1),
        Make(Call::Enable(16, 1)),
        &[
            (Answered(Answer::Value(1)), Make(Call::Send(16, 10, 1, 0))),
            (Answered(Answer::Inside(SendId(1), 7)), run!(16, 10, 1, 0)),
            (Returned(5), Make(Call::Leave(5))),
            (Answered(Answer::Left(SendId(1))), done!(1, 0)),
        ],
    ),
    (
        Compound::EnableWindow(16, 1),
        Make(Call::Enable(16, 1)),
        &[(Answered(Answer::Value(0)), done!(0, 0))],
    ),
];

#[test]
fn shows_and_enables(rt: HostRuntime) {
    all_ask(&rt, &SHOWS_AND_ENABLES);
}

/// All that can change, with corners left of and above the screen's; the corner alone; nothing.
static PLACES: [Case; 5] = [
    (
        Compound::SetWindowPos(16, -1, -1, -2, 9, 10, 128),
        Make(Call::Place(16, -1, -1, -2, 9, 10, 128)),
        &[
            (
                Answered(Answer::Value(7)),
                Make(Call::Send(16, 3, 0, 4294901759)),
            ),
            (refused!(1400), Make(Call::Send(16, 5, 0, 786442))),
            (refused!(1400), Make(Call::Send(16, 24, 0, 0))),
            (refused!(1400), done!(1, 0)),
        ],
    ),
    (
        Compound::SetWindowPos(16, -1, -1, -2, 9, 10, 128),
        Make(Call::Place(16, -1, -1, -2, 9, 10, 128)),
        &[
            (
                Answered(Answer::Value(1)),
                Make(Call::Send(16, 3, 0, 4294901759)),
            ),
            (refused!(1400), done!(1, 0)),
        ],
    ),
    (
        Compound::SetWindowPos(16, -1, -1, -2, 9, 10, 128),
        Make(Call::Place(16, -1, -1, -2, 9, 10, 128)),
        &[(Answered(Answer::Value(0)), done!(1, 0))],
    ),
    (
        Compound::SetWindowPos(16, -1, -1, -2, 9, 10, 128),
        Make(Call::Place(16, -1, -1, -2, 9, 10, 128)),
        &[(refused!(87), done!(0, 87))],
    ),
    (
        Compound::SetWindowPos(16, 0, 0, 0, 0, 0, 67),
        Make(Call::Place(16, 0, 0, 0, 0, 0, 67)),
        &[
            (Answered(Answer::Value(4)), Make(Call::Send(16, 24, 1, 0))),
            (refused!(1400), done!(1, 0)),
        ],
    ),
];

#[test]
fn places(rt: HostRuntime) {
    all_ask(&rt, &PLACES);
}

/// The focus from one window to another, from and to none, to the window that has it; the same for the active window.
static SETS_FOCUS_AND_ACTIVE: [Case; 6] = [
    (
        Compound::SetFocus(17),
        Make(Call::SetFocus(17)),
        &[
            (
                Answered(Answer::Was(Hwnd(16))),
                Make(Call::Send(16, 8, 17, 0)),
            ),
            (refused!(1400), Make(Call::Send(17, 7, 16, 0))),
            (refused!(1400), done!(16, 0)),
        ],
    ),
    (
        Compound::SetFocus(17),
        Make(Call::SetFocus(17)),
        &[
            (
                Answered(Answer::Was(Hwnd(0))),
                Make(Call::Send(17, 7, 0, 0)),
            ),
            (refused!(1400), done!(0, 0)),
        ],
    ),
    (
        Compound::SetFocus(17),
        Make(Call::SetFocus(17)),
        &[(Answered(Answer::Was(Hwnd(17))), done!(17, 0))],
    ),
    (
        Compound::SetFocus(17),
        Make(Call::SetFocus(17)),
        &[(refused!(87), done!(0, 87))],
    ),
    (
        Compound::SetFocus(0),
        Make(Call::SetFocus(0)),
        &[
            (
                Answered(Answer::Was(Hwnd(16))),
                Make(Call::Send(16, 8, 0, 0)),
            ),
            (refused!(1400), done!(16, 0)),
        ],
    ),
    (
        Compound::SetActive(17),
        Make(Call::SetActive(17)),
        &[
            (
                Answered(Answer::Was(Hwnd(16))),
                Make(Call::Send(16, 6, 0, 17)),
            ),
            (refused!(1400), Make(Call::Send(17, 6, 1, 16))),
            (refused!(1400), done!(16, 0)),
        ],
    ),
];

#[test]
fn sets_focus_and_active(rt: HostRuntime) {
    all_ask(&rt, &SETS_FOCUS_AND_ACTIVE);
}

/// The capture from another window, from none, from the same; taken away; each time who loses it is told.
static SETS_CAPTURE: [Case; 5] = [
    (
        Compound::SetCapture(17),
        Make(Call::SetCapture(17)),
        &[
            (
                Answered(Answer::Was(Hwnd(16))),
                Make(Call::Send(16, 533, 0, 17)),
            ),
            (refused!(1400), done!(16, 0)),
        ],
    ),
    (
        Compound::SetCapture(17),
        Make(Call::SetCapture(17)),
        &[(Answered(Answer::Was(Hwnd(0))), done!(0, 0))],
    ),
    (
        Compound::SetCapture(17),
        Make(Call::SetCapture(17)),
        &[(Answered(Answer::Was(Hwnd(17))), done!(17, 0))],
    ),
    (
        Compound::ReleaseCapture,
        Make(Call::ReleaseCapture),
        &[
            (
                Answered(Answer::Was(Hwnd(16))),
                Make(Call::Send(16, 533, 0, 0)),
            ),
            (refused!(1400), done!(16, 0)),
        ],
    ),
    (
        Compound::ReleaseCapture,
        Make(Call::ReleaseCapture),
        &[(Answered(Answer::Was(Hwnd(0))), done!(0, 0))],
    ),
];

#[test]
fn sets_capture(rt: HostRuntime) {
    all_ask(&rt, &SETS_CAPTURE);
}

/// A background that is to be erased, and one that isn't; something to paint, and nothing.
static PAINTS: [Case; 5] = [
    (
        Compound::BeginPaint(16),
        Make(Call::BeginPaint(16)),
        &[
            (
                Answered(Answer::Painting {
                    erase: 1,
                    l: 0,
                    t: 0,
                    r: 0,
                    b: 0,
                }),
                Make(Call::Send(16, 20, 0, 0)),
            ),
            (refused!(1001), done!(1, 0)),
        ],
    ),
    (
        Compound::BeginPaint(16),
        Make(Call::BeginPaint(16)),
        &[(
            Answered(Answer::Painting {
                erase: 0,
                l: 0,
                t: 0,
                r: 0,
                b: 0,
            }),
            done!(1, 0),
        )],
    ),
    (
        Compound::BeginPaint(16),
        Make(Call::BeginPaint(16)),
        &[(refused!(87), done!(0, 87))],
    ),
    (
        Compound::UpdateWindow(16),
        Make(Call::UpdateRect(16)),
        &[
            (
                Answered(Answer::Update {
                    kind: 3,
                    l: 0,
                    t: 0,
                    r: 0,
                    b: 0,
                }),
                Make(Call::Send(16, 15, 0, 0)),
            ),
            (refused!(1001), done!(1, 0)),
        ],
    ),
    (
        Compound::UpdateWindow(16),
        Make(Call::UpdateRect(16)),
        &[(
            Answered(Answer::Update {
                kind: 1,
                l: 0,
                t: 0,
                r: 0,
                b: 0,
            }),
            done!(1, 0),
        )],
    ),
];

#[test]
fn paints(rt: HostRuntime) {
    all_ask(&rt, &PAINTS);
}

/// Three windows, one of which refuses the post; no window; a refused `next_top`; and a window's procedure that runs for
/// what it is notified of.
static GOES_THROUGH_ALL_WINDOWS: [Case; 4] = [
    (
        Compound::PostAll(1024, 5, 6),
        Make(Call::NextTop(0)),
        &[
            (
                Answered(Answer::Window(Hwnd(16))),
                Make(Call::Post(16, 1024, 5, 6)),
            ),
            (Answered(Answer::Posted(1)), Make(Call::NextTop(16))),
            (
                Answered(Answer::Window(Hwnd(18))),
                Make(Call::Post(18, 1024, 5, 6)),
            ),
            (refused!(1816), Make(Call::NextTop(18))),
            (
                Answered(Answer::Window(Hwnd(19))),
                Make(Call::Post(19, 1024, 5, 6)),
            ),
            (Answered(Answer::Posted(2)), Make(Call::NextTop(19))),
            (Answered(Answer::Window(Hwnd(0))), done!(1, 0)),
        ],
    ),
    (
        Compound::PostAll(1024, 5, 6),
        Make(Call::NextTop(0)),
        &[(Answered(Answer::Window(Hwnd(0))), done!(1, 0))],
    ),
    (
        Compound::PostAll(1024, 5, 6),
        Make(Call::NextTop(0)),
        &[(Answered(Answer::Refused(Code::Full)), done!(0, 60000))],
    ),
    (
        Compound::NotifyAll(1024, 5, 6),
        Make(Call::NextTop(0)),
        &[
            (
                Answered(Answer::Window(Hwnd(16))),
                Make(Call::SendNotify(16, 1024, 5, 6)),
            ),
            (Answered(Answer::Inside(SendId(1), 7)), run!(16, 1024, 5, 6)),
            (Returned(3), Make(Call::Leave(3))),
            (Answered(Answer::Left(SendId(1))), Make(Call::NextTop(16))),
            (
                Answered(Answer::Window(Hwnd(17))),
                Make(Call::SendNotify(17, 1024, 5, 6)),
            ),
            (Answered(Answer::Begun(SendId(2))), Make(Call::NextTop(17))),
            (Answered(Answer::Window(Hwnd(0))), done!(1, 0)),
        ],
    ),
];

#[test]
fn goes_through_all_windows(rt: HostRuntime) {
    all_ask(&rt, &GOES_THROUGH_ALL_WINDOWS);
}

/// The focus goes to the window that becomes the active one; what had the capture is told that it is taken away.
static ACTIVATES_AND_CANCELS_BY_DEFAULT: [Case; 5] = [
    (
        Compound::Default(16, 6, 1, 0),
        Make(Call::SetFocus(16)),
        &[
            (
                Answered(Answer::Was(Hwnd(17))),
                Make(Call::Send(17, 8, 16, 0)),
            ),
            (refused!(1400), Make(Call::Send(16, 7, 17, 0))),
            (refused!(1400), done!(0, 0)),
        ],
    ),
    (
        Compound::Default(16, 6, 2, 0),
        Make(Call::SetFocus(16)),
        &[(refused!(5), done!(0, 5))],
    ),
    (Compound::Default(16, 6, 0, 0), done!(0, 0), &[]),
    (
        Compound::Default(16, 31, 0, 0),
        Make(Call::ReleaseCapture),
        &[
            (
                Answered(Answer::Was(Hwnd(17))),
                Make(Call::Send(17, 533, 0, 0)),
            ),
            (refused!(1400), done!(0, 0)),
        ],
    ),
    (
        Compound::Default(16, 31, 0, 0),
        Make(Call::ReleaseCapture),
        &[(Answered(Answer::Was(Hwnd(0))), done!(0, 0))],
    ),
];

#[test]
fn activates_and_cancels_by_default(rt: HostRuntime) {
    all_ask(&rt, &ACTIVATES_AND_CANCELS_BY_DEFAULT);
}
