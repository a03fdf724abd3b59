//! Worked examples, with ample memory.

ghost use Rattle.std.specs.Prelude.{◌≡◌, length};
ghost use Rattle.send_frames.specs.Book.{IsThread};

use send_frames::{Cause, Code, Fault, Frame, Hwnd, Kind, SendId, SendRow, Sends, Thread};
use std::process::Abort;

/// What is done with the sends, by or for the first thread.
#[derive(Clone, Copy)]
enum Step {
    Begin(Kind),
    /// Puts a frame that names no send on the stack.
    Push,
    Pop,
    Top,
    Depth,
    Answer(u64, Cause, SendId),
    Answered(SendId),
    Row(SendId),
    Forget(SendId),
}

/// What it is answered by.
#[derive(Clone, Copy, Debug, PartialEq, Eq)]
enum Told {
    Begun(Result<SendId, Fault>),
    Pushed(Result<(), Fault>),
    Frame(Option<Frame>),
    Depth(u8),
    Is(bool),
    Answer(Option<(u64, Cause)>),
    Row(Option<SendRow>),
    Nothing,
}

fn send(from: u8, to: u8, kind: Kind) -> SendRow
    ensures { (result.from.0 ≡ from) × (result.to.0 ≡ to) }
{
    SendRow {
        from: Thread(from),
        to: Thread(to),
        hwnd: Hwnd(16),
        number: 1024,
        wparam: 5,
        lparam: 6,
        kind,
        time: 7,
    }
}

fn begun(number: u32) -> Told {
    Told::Begun(Ok(SendId(number)))
}

fn deep() -> Fault {
    Fault::Refused(Code::Win(1001))
}

/// Sends go from the first thread to this one.
fn act(sends: &mut Sends, to: u8, step: Step) -> Told
    requires own { IsThread sends.old 1 }
    requires to { IsThread sends.old to }
    ensures { length sends.new.stacks ≡ length sends.old.stacks }
{
    match step {
        Step::Begin(kind) => Told::Begun(sends.begin(send(1, to, kind))),
        Step::Push => Told::Pushed(sends.push(Thread(1), Frame::Called)),
        Step::Pop => Told::Frame(sends.pop(Thread(1))),
        Step::Top => Told::Frame(sends.top(Thread(1))),
        Step::Depth => Told::Depth(sends.depth(Thread(1))),
        Step::Answer(value, cause, s) => Told::Is(sends.answer(s, value, cause)),
        Step::Answered(s) => Told::Answer(sends.answered(s)),
        Step::Row(s) => Told::Row(sends.row(s).copied()),
        Step::Forget(s) => {
            sends.forget(s);
            Told::Nothing
        }
    }
}

/// Each step in turn is answered by what stands beside it.
fn goes(rt: &impl Abort, sends: &mut Sends, to: u8, steps: &[(Step, Told)])
    requires own { IsThread sends.old 1 }
    requires to { IsThread sends.old to }
    ensures { length sends.new.stacks ≡ length sends.old.stacks }
{
    for place in 0..steps.len() {
        let (step, wanted) = steps[place];
        assert_eq!(rt; act(sends, to, step), wanted, "at {place}");
    }
}

#[test]
fn own_sends_fill_a_stack(rt: HostRuntime) {
    let mut sends = Sends::new(rt.alloc(), 1).expect(&rt, "room");
    for number in 1..=64 {
        goes(
            &rt,
            &mut sends,
            1,
            &[(Step::Begin(Kind::Wait), begun(number))],
        );
    }
    let steps = [
        (Step::Begin(Kind::Notify), Told::Begun(Err(deep()))),
        (Step::Push, Told::Pushed(Err(deep()))),
        (Step::Depth, Told::Depth(64)),
        (Step::Top, Told::Frame(Some(Frame::Inside(SendId(64))))),
        (Step::Pop, Told::Frame(Some(Frame::Inside(SendId(64))))),
        (Step::Begin(Kind::Wait), begun(65)),
    ];
    goes(&rt, &mut sends, 1, &steps);
}

#[test]
fn a_frame_goes_on_an_empty_stack(rt: HostRuntime) {
    let mut sends = Sends::new(rt.alloc(), 1).expect(&rt, "room");
    let steps = [
        (Step::Push, Told::Pushed(Ok(()))),
        (Step::Depth, Told::Depth(1)),
        (Step::Pop, Told::Frame(Some(Frame::Called))),
        (Step::Pop, Told::Frame(None)),
    ];
    goes(&rt, &mut sends, 1, &steps);
}

#[test]
fn unanswered_sends_fill_the_table(rt: HostRuntime) {
    let mut sends = Sends::new(rt.alloc(), 2).expect(&rt, "room");
    let begin = Step::Begin(Kind::Notify);
    for number in 1..=1024 {
        goes(&rt, &mut sends, 2, &[(begin, begun(number))]);
    }
    let steps = [
        (begin, Told::Begun(Err(Fault::Refused(Code::Full)))),
        (Step::Answer(0, Cause::Loss, SendId(9)), Told::Is(true)),
        (begin, begun(1025)),
    ];
    goes(&rt, &mut sends, 2, &steps);
}

#[test]
fn a_wait_keeps_its_first_answer(rt: HostRuntime) {
    let mut sends = Sends::new(rt.alloc(), 2).expect(&rt, "room");
    let kind = Kind::Timeout { flags: 1, ms: 9 };
    let s = SendId(1);
    let waits = Told::Frame(Some(Frame::Await(s)));
    let answer = Told::Answer(Some((3, Cause::Reply)));
    let steps = [
        (Step::Begin(kind), begun(1)),
        (Step::Top, waits),
        (Step::Row(s), Told::Row(Some(send(1, 2, kind)))),
        (Step::Answered(s), Told::Answer(None)),
        (Step::Answer(3, Cause::Reply, s), Told::Is(true)),
        (Step::Answer(4, Cause::Proc, s), Told::Is(false)),
        (Step::Answered(s), answer),
        (Step::Pop, waits),
        (Step::Row(s), Told::Row(None)),
        (Step::Answer(4, Cause::Proc, s), Told::Is(false)),
    ];
    goes(&rt, &mut sends, 2, &steps);
}

#[test]
fn a_callback_send_waits_to_be_forgotten(rt: HostRuntime) {
    let mut sends = Sends::new(rt.alloc(), 2).expect(&rt, "room");
    let kind = Kind::Callback {
        proc_no: 3,
        extra: 4,
    };
    let s = SendId(1);
    let answer = Told::Answer(Some((5, Cause::Proc)));
    let steps = [
        (Step::Begin(kind), begun(1)),
        (Step::Depth, Told::Depth(0)),
        (Step::Answer(5, Cause::Proc, s), Told::Is(true)),
        (Step::Answered(s), answer),
        (Step::Forget(s), Told::Nothing),
        (Step::Answered(s), Told::Answer(None)),
    ];
    goes(&rt, &mut sends, 2, &steps);
}
