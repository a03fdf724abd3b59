//! A get and an `Empty` as states, step by step.

ghost use Rattle.std.specs.Prelude.{IsTrue};
ghost use Rattle.clip_board.specs.Traces.{Awaits, Accepts};
ghost use Rattle.win_calls.specs.States.{Awaits as AwaitsOf};

use clip_board::{Clip, ClipAnswer, ClipCall, ClipGot, ClipNext, EmptyState, GetState, may_answer};
use std::process::Abort;
use user_model::{Answer, Call};
use win_calls::{Got, Next, may_follow};
use win_num::{Code, Hwnd, SendId, Thread};

/// What is handed in at each step, and what is asked for then.
type Steps = &'static [(ClipGot, ClipNext)];

/// Whether a statement may be handed that where it asked for this.
fn follows(next: &Next, got: &Got) -> bool
    ensures { IsTrue result → AwaitsOf next.now got.now }
{
    match got {
        Got::Start => false,
        Got::Returned(_) => match next {
            Next::Run { .. } => true,
            _ => false,
        },
        Got::Answered(answer) => match next {
            Next::Make(call) => may_follow(call, answer),
            _ => false,
        },
    }
}

/// Whether that may be handed in where this was asked for.
fn awaits(next: &ClipNext, got: &ClipGot) -> bool
    ensures { IsTrue result → Awaits next.now got.now }
{
    match next {
        ClipNext::Clip(call) => match got {
            ClipGot::Clip(answer) => may_answer(call, answer),
            ClipGot::User(_) => false,
        },
        ClipNext::User(next) => match got {
            ClipGot::User(got) => follows(next, got),
            ClipGot::Clip(_) => false,
        },
    }
}

/// The end, with these values of r and err.
macro_rules! done {
    ($r:expr, $err:expr) => {
        ClipNext::User(Next::Done { r: $r, err: $err })
    };
}

/// A call of the machine is asked for.
macro_rules! make {
    ($call:expr) => {
        ClipNext::User(Next::Make($call))
    };
}

/// The machine answers so.
macro_rules! answered {
    ($answer:expr) => {
        ClipGot::User(Got::Answered($answer))
    };
}

const GET: ClipNext = ClipNext::Clip(ClipCall::Get { format: 13 });

const RENDER: Call = Call::Send(16, 773, 13, 0);

/// A get that is told the data, nothing, a refusal, and one that is told to ask twice.
static GETS: [Steps; 4] = [
    &[(ClipGot::Clip(ClipAnswer::Value(9)), done!(9, 0))],
    &[(ClipGot::Clip(ClipAnswer::Nothing), done!(0, 60003))],
    &[(
        ClipGot::Clip(ClipAnswer::Refused(Code::Win(1418))),
        done!(0, 1418),
    )],
    &[
        (ClipGot::Clip(ClipAnswer::Ask(Hwnd(16))), make!(RENDER)),
        (answered!(Answer::Refused(Code::Win(1400))), GET),
        (ClipGot::Clip(ClipAnswer::Ask(Hwnd(16))), done!(0, 60004)),
    ],
];

/// A get asks for exactly these things where that is handed in.
fn get_asks(rt: &impl Abort, wanted: &[(ClipGot, ClipNext)]) {
    let mut state = GetState::of(13);
    let mut next = state.next(ClipGot::User(Got::Start));
    assert!(rt; next == GET);
    for (got, then) in wanted {
        assert!(rt; awaits(&next, got));
        next = state.next(*got);
        assert!(rt; next == *then);
    }
}

#[test]
fn gets(rt: HostRuntime) {
    for wanted in &GETS {
        get_asks(&rt, wanted);
    }
}

/// An `Empty` that tells the former owner, one after nobody, and one that is refused.
static EMPTIES: [Steps; 3] = [
    &[
        (
            ClipGot::Clip(ClipAnswer::Was(Hwnd(16))),
            make!(Call::Send(16, 775, 0, 0)),
        ),
        (answered!(Answer::Begun(SendId(1))), make!(Call::Await(1))),
        (answered!(Answer::Wait), make!(Call::Await(1))),
        (answered!(Answer::Refused(Code::NotNow)), done!(1, 0)),
    ],
    &[(ClipGot::Clip(ClipAnswer::Was(Hwnd(0))), done!(1, 0))],
    &[(
        ClipGot::Clip(ClipAnswer::Refused(Code::Win(1418))),
        done!(0, 1418),
    )],
];

/// An `Empty` asks for exactly these things where that is handed in.
fn empty_asks(rt: &impl Abort, wanted: &[(ClipGot, ClipNext)]) {
    let mut state = EmptyState::of();
    let mut next = state.next(ClipGot::User(Got::Start));
    assert!(rt; next == ClipNext::Clip(ClipCall::Empty));
    for (got, then) in wanted {
        assert!(rt; awaits(&next, got));
        next = state.next(*got);
        assert!(rt; next == *then);
    }
}

#[test]
fn empties(rt: HostRuntime) {
    for wanted in &EMPTIES {
        empty_asks(&rt, wanted);
    }
}

/// Makes a call of a thread, with ample memory.
fn step(rt: &impl Abort, clip: &mut Clip, who: u8, call: ClipCall) -> ClipAnswer {
    match clip.step(Thread(who), call) {
        Ok(answer) => answer,
        Err(_) => panic!(rt; "no memory"),
    }
}

/// Thread 1 offers format 13, and a get of thread 2 asks its window to render it.
#[test]
fn asks_the_owner(rt: HostRuntime) {
    let mut clip = Clip::new(rt.alloc());
    for (who, call) in [
        (1, ClipCall::Open { hwnd: Hwnd(16) }),
        (1, ClipCall::Empty),
        (1, ClipCall::Delay { format: 13 }),
        (1, ClipCall::Close),
        (2, ClipCall::Open { hwnd: Hwnd(17) }),
    ] {
        let _told = step(&rt, &mut clip, who, call);
    }
    let mut state = GetState::of(13);
    let first = state.next(ClipGot::User(Got::Start));
    assert!(&rt; first == GET);
    let told = step(&rt, &mut clip, 2, ClipCall::Get { format: 13 });
    assert!(&rt; told == ClipAnswer::Ask(Hwnd(16)));
    let got = ClipGot::Clip(told);
    assert!(&rt; awaits(&first, &got));
    assert!(&rt; state.next(got) == make!(RENDER));
    drop(clip);
}
