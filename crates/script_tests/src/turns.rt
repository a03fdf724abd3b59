//! Turns that are made again after want of memory, at a teller that refuses one turn.

ghost use Rattle.script_text.specs.Limits.{IsScript};

use script_proc::{Program, Turn, Worker};
use script_text::{Script, read};
use std::alloc::{AllocError, Global};
use std::process::Abort;
use user_core::User;
use user_model::{Alone, Answer, Call, Machine, Origin, Setup, Teller, Told};
use win_num::{Hwnd, Msg, Point, SendId, Thread};

/// A teller that makes turns by another, but wants memory at one of them.
#[derive(Drop)]
struct RefusingOnce<T: Teller> {
    teller: T,
    /// How many turns are left before that one; none where memory was wanted, or never is.
    left: Option<u64>,
}

impl<T: Teller> Teller for RefusingOnce<T> {
    ghost view = { λ r. T.view r.teller };

    ghost serves = { λ r t. T.serves r.teller t };

    ghost is_still = { λ a b. T.is_still a.teller b.teller };

    ghost still_itself = { λ a. T.still_itself a.teller };

    ghost still_along = { λ a b c first second. T.still_along a.teller b.teller c.teller first second };

    fn turn(&mut self, who: Thread, call: Call) -> Result<Told, AllocError> {
        if self.left == Some(0) {
            self.left = None;
            return Err(AllocError);
        }
        self.left = self.left.map(|left| left.saturating_sub(1));
        self.teller.turn(who, call)
    }
}

/// A thread that makes a window, paints it, and closes it.
const SCRIPT: &[u8] =
    b"user 1\nscreen 8 4\nbudget 500\norder\nproc main\nif msg = WM_PAINT\nbegin_paint hwnd\nfill hwnd 1 1 3 2 5\nend_paint hwnd\nreturn 0\nend\nif msg = WM_DESTROY\npost_quit 0\nreturn 0\nend\nend\nthread\nregister w main 2\ncreate w hello 0 0 0 1 0 7 3\nlet a r\nshow_window a 1\nupdate_window a\nsnap\npost a WM_CLOSE 0 0\npump\nend\n";

/// The message that closes the window.
const CLOSING: Msg = Msg {
    hwnd: Hwnd(16),
    number: 16,
    wparam: 0,
    lparam: 0,
    time: 0,
    point: Point { x: 0, y: 0 },
};

/// Quit.
const QUITTING: Msg = Msg {
    hwnd: Hwnd(0),
    number: 18,
    wparam: 0,
    lparam: 0,
    time: 0,
    point: Point { x: 0, y: 0 },
};

/// What is dirty of the window when it is shown.
const DIRTY: Answer = Answer::Update {
    kind: 2,
    l: 0,
    t: 0,
    r: 6,
    b: 3,
};

/// What is dirty as it is painted.
const PAINTING: Answer = Answer::Painting {
    erase: 1,
    l: 0,
    t: 0,
    r: 6,
    b: 3,
};

const CLOSED: Answer = Answer::Got {
    origin: Origin::Posted,
    number: 1,
    msg: CLOSING,
};

const QUIT: Answer = Answer::Got {
    origin: Origin::Quit,
    number: 0,
    msg: QUITTING,
};

/// The calls of the thread with their answers. Class 0, title 1 and procedure 0 are numbers of the script.
const LOG: [(Call, Answer); 35] = [
    (Call::Register(0, 0, 2), Answer::Value(1)),
    (
        Call::NewWindow(0, 1, 0, 0, 0, 1, 0, 7, 3),
        Answer::Window(Hwnd(16)),
    ),
    (Call::Send(16, 129, 0, 0), Answer::Inside(SendId(1), 0)),
    (Call::Leave(1), Answer::Left(SendId(1))),
    (Call::Send(16, 1, 0, 0), Answer::Inside(SendId(2), 0)),
    (Call::Leave(0), Answer::Left(SendId(2))),
    (Call::Show(16, 1), Answer::Value(0)),
    (Call::Send(16, 24, 1, 0), Answer::Inside(SendId(3), 0)),
    (Call::Leave(0), Answer::Left(SendId(3))),
    (Call::UpdateRect(16), DIRTY),
    (Call::Send(16, 15, 0, 0), Answer::Inside(SendId(4), 0)),
    (Call::BeginPaint(16), PAINTING),
    (Call::Send(16, 20, 0, 0), Answer::Inside(SendId(5), 0)),
    (Call::Erase(16), Answer::Okay),
    (Call::Leave(1), Answer::Left(SendId(5))),
    (Call::Fill(16, 1, 1, 3, 2, 5), Answer::Okay),
    (Call::EndPaint(16), Answer::Okay),
    (Call::Leave(0), Answer::Left(SendId(4))),
    (Call::Snap, Answer::Snap(1)),
    (Call::Post(16, 16, 0, 0), Answer::Posted(1)),
    (Call::Get(0, 0, 0), CLOSED),
    (Call::Dispatch(16, 16, 0, 0), Answer::Called(0)),
    (Call::Doom(16), Answer::Okay),
    (Call::Unmake(16), Answer::Tell(Hwnd(16))),
    (Call::Send(16, 2, 0, 0), Answer::Inside(SendId(6), 0)),
    (Call::PostQuit(0), Answer::Okay),
    (Call::Leave(0), Answer::Left(SendId(6))),
    (Call::Unmake(16), Answer::Last(Hwnd(16))),
    (Call::Send(16, 130, 0, 0), Answer::Inside(SendId(7), 0)),
    (Call::Leave(0), Answer::Left(SendId(7))),
    (Call::Drop(16), Answer::Okay),
    (Call::Unmake(16), Answer::Gone),
    (Call::Leave(0), Answer::Left(SendId(0))),
    (Call::Get(0, 0, 0), QUIT),
    (Call::EndThread, Answer::Ended),
];

/// The colours of the one frame.
const FRAME: [u8; 32] = [
    0, 2, 2, 2, 2, 2, 2, 0, 0, 2, 5, 5, 2, 2, 2, 0, 0, 2, 2, 2, 2, 2, 2, 0, 0, 0, 0, 0, 0, 0, 0, 0,
];

/// The most turns that the thread is given.
const TURNS: u32 = 1000;

/// Gives the thread turns until it has none to make, and one that finds no memory once more. Tells whether there was such a one.
fn make_turns(
    program: &Program,
    worker: &mut Worker,
    teller: &mut RefusingOnce<Alone<User>>,
) -> bool {
    let mut wanted = false;
    for _ in 0..TURNS {
        match worker.turn(program, teller) {
            Ok(Turn::Went) => {}
            Ok(_) => return wanted,
            Err(_) => wanted = true,
        }
    }
    wanted
}

/// Compares what a machine has come to with the log and the frame.
fn compare(rt: &impl Abort, machine: &User) {
    let history = machine.history();
    assert!(rt; history.len() == LOG.len());
    for (entry, (call, answer)) in history.iter().zip(LOG.iter()) {
        assert!(rt; entry.who == Thread(1) && entry.call == *call && entry.answer == *answer);
    }
    assert!(rt; machine.frame(1) == Some(&FRAME));
}

/// Runs the script where memory is wanted once, after so many turns, or never.
fn run(rt: &impl Abort, alloc: Global, script: &Script, left: Option<u64>) -> Result<(), AllocError>
    requires { IsScript script.now }
{
    let setup = Setup::new(script.thread_count(), script.width(), script.height());
    let program = Program::new(alloc, script)?;
    let mut worker = Worker::new(alloc, &program, 1)?;
    let machine = User::new(alloc, setup)?;
    let teller = Alone { machine };
    let mut refusing = RefusingOnce { teller, left };
    let wanted = make_turns(&program, &mut worker, &mut refusing);
    assert!(rt; wanted == left.is_some());
    compare(rt, &refusing.teller.machine);
    Ok(())
}

#[test]
fn a_turn_that_found_no_memory_is_made_again(rt: HostRuntime) -> Result<(), AllocError> {
    let alloc = rt.alloc();
    let Ok(script) = read(alloc, SCRIPT) else {
        assert!(&rt; false);
        return Ok(());
    };
    run(&rt, alloc, &script, None)?;
    for left in 0..35 {
        run(&rt, alloc, &script, Some(left))?;
    }
    Ok(())
}
