//! What the calls of a clipboard are answered.

use clip_board::{Clip, ClipAnswer, ClipCall, FORMAT_LIMIT, get_law};
use std::process::Abort;
use win_num::{Code, Hwnd, Thread};

/// A call of a thread, and its answer.
type Case = (u8, ClipCall, ClipAnswer);

/// A refusal with an error of Windows.
macro_rules! refused {
    ($number:expr) => {
        ClipAnswer::Refused(Code::Win($number))
    };
}

/// A thread opens the clipboard with a window.
macro_rules! open {
    ($window:expr) => {
        ClipCall::Open {
            hwnd: Hwnd($window),
        }
    };
}

/// A format is set to a number.
macro_rules! set {
    ($format:expr, $value:expr) => {
        ClipCall::Set {
            format: $format,
            value: $value,
        }
    };
}

/// A format is offered.
macro_rules! delay {
    ($format:expr) => {
        ClipCall::Delay { format: $format }
    };
}

/// The data of a format is asked for.
macro_rules! get {
    ($format:expr) => {
        ClipCall::Get { format: $format }
    };
}

/// Thread 1 offers format 13, and thread 2 asks for it.
static ONE_ASK: [Case; 14] = [
    (1, open!(16), ClipAnswer::Done),
    (2, open!(17), refused!(5)),
    (1, ClipCall::Empty, ClipAnswer::Was(Hwnd(0))),
    (1, set!(1, 5), ClipAnswer::Done),
    (1, delay!(13), ClipAnswer::Done),
    (1, ClipCall::Close, ClipAnswer::Done),
    (2, get!(1), refused!(1418)),
    (2, open!(17), ClipAnswer::Done),
    (2, get!(1), ClipAnswer::Value(5)),
    (2, get!(13), ClipAnswer::Ask(Hwnd(16))),
    (2, set!(13, 8), refused!(5)),
    (1, set!(13, 9), ClipAnswer::Done),
    (2, get!(13), ClipAnswer::Value(9)),
    (2, ClipCall::Empty, ClipAnswer::Was(Hwnd(16))),
];

/// Formats that aren't any, calls where it isn't open, an offer without an owner, and what an `Empty` and a `Close` end.
static REFUSALS: [Case; 22] = [
    (1, ClipCall::Empty, refused!(1418)),
    (1, ClipCall::Close, refused!(1418)),
    (1, set!(0, 5), refused!(87)),
    (1, set!(65536, 5), refused!(87)),
    (1, get!(65536), refused!(87)),
    (1, delay!(7), refused!(1418)),
    (1, open!(16), ClipAnswer::Done),
    (1, open!(16), refused!(5)),
    (1, delay!(7), ClipAnswer::Done),
    (1, get!(7), ClipAnswer::Nothing),
    (1, set!(65535, 3), ClipAnswer::Done),
    (1, get!(65535), ClipAnswer::Value(3)),
    (1, ClipCall::Empty, ClipAnswer::Was(Hwnd(0))),
    (1, get!(65535), ClipAnswer::Nothing),
    (1, delay!(7), ClipAnswer::Done),
    (1, ClipCall::Close, ClipAnswer::Done),
    (2, open!(17), ClipAnswer::Done),
    (2, get!(7), ClipAnswer::Ask(Hwnd(16))),
    (3, set!(7, 1), refused!(1418)),
    (2, ClipCall::Close, ClipAnswer::Done),
    (1, set!(7, 1), refused!(1418)),
    (2, get!(7), refused!(1418)),
];

/// Each call is answered so.
fn answers(rt: &impl Abort, clip: &mut Clip, cases: &[Case]) {
    for (who, call, answer) in cases {
        let told = clip.step(Thread(*who), *call);
        assert!(rt; told == Ok(*answer));
    }
}

#[test]
fn one_ask(rt: HostRuntime) {
    let mut clip = Clip::new(rt.alloc());
    answers(&rt, &mut clip, &ONE_ASK);
    assert!(&rt; clip.history().len() == 14);
    assert!(&rt; get_law(&clip, 9, 12) == Some(11));
    assert!(&rt; get_law(&clip, 8, 12) == None);
    assert!(&rt; get_law(&clip, 12, 9) == None);
    assert!(&rt; get_law(&clip, 9, 14) == None);
    drop(clip);
}

#[test]
fn refusals(rt: HostRuntime) {
    let mut clip = Clip::new(rt.alloc());
    answers(&rt, &mut clip, &REFUSALS);
    drop(clip);
}

/// The limit of formats is met, and a format that is there may still be set.
#[test]
fn many_formats(rt: HostRuntime) {
    let mut clip = Clip::new(rt.alloc());
    answers(&rt, &mut clip, &[(1, open!(16), ClipAnswer::Done)]);
    for format in 1..=FORMAT_LIMIT as u32 {
        answers(&rt, &mut clip, &[(1, set!(format, 2), ClipAnswer::Done)]);
    }
    answers(
        &rt,
        &mut clip,
        &[
            (1, delay!(65), ClipAnswer::Refused(Code::Full)),
            (1, delay!(64), ClipAnswer::Done),
            (1, ClipCall::Empty, ClipAnswer::Was(Hwnd(0))),
            (1, delay!(65), ClipAnswer::Done),
        ],
    );
    drop(clip);
}
