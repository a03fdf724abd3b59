//! Answers, entries of a history, and the setup of a machine.

ghost use Rattle.std.specs.Prelude.{◌≡◌, ◌<◌, ◌≤◌};

use crate::call::Call;
use win_num::{Cause, Code, Hwnd, Msg, SendId, Thread};

/// Where a message that was retrieved came from.
#[derive(Clone, Copy, Debug, PartialEq, Eq)]
pub enum Origin {
    /// The thread's posted messages.
    Posted,
    /// The thread's own posting of quit.
    Quit,
    /// Mouse and keyboard (Microsoft, Mouse Input and Keyboard Input).
    Input,
    /// A window with dirty pixels (Microsoft, WM_PAINT message).
    Paint,
    /// A timer that is due (Microsoft, WM_TIMER message).
    Timer,
}

/// What a call answers.
#[derive(Clone, Copy, Debug, PartialEq, Eq)]
pub enum Answer {
    /// It was done.
    Okay,
    /// The thread has ended.
    Ended,
    /// There is no message that passes.
    Nothing,
    /// There is nothing yet; the thread makes the same call again.
    Wait,
    /// Every thread waits, and no time is to come for which one of them does.
    Stuck,
    /// The window is no live window any more.
    Gone,
    /// The dialog has no result yet.
    Running,
    /// The dialog has this result, and runs no more.
    Finished(u64),
    /// A number: 1 for true and 0 for false, an atom, or the number of a message.
    Value(u64),
    /// A window, or 0 where there is none.
    Window(Hwnd),
    /// The window that there was before the call set another, or 0 where there was none.
    Was(Hwnd),
    /// The post with this number was made; posts are counted from 1 over all threads.
    Posted(u32),
    /// The input with this number was injected; inputs are counted from 1 over all threads.
    Input(u32),
    /// The procedure of this number runs for a dispatched message.
    Called(u32),
    /// The send with this number goes to an own window, whose procedure, of this number, runs at once.
    Inside(SendId, u32),
    /// The send with this number was begun; sends are counted from 1.
    Begun(SendId),
    /// The procedure of this send was left; 0 for one that ran for no send.
    Left(SendId),
    /// This window is to be told that it is destroyed.
    Tell(Hwnd),
    /// This window gets its last message.
    Last(Hwnd),
    /// The clock went on to this time, in milliseconds.
    Advanced(u64),
    /// The lowest thread that doesn't wait.
    Busy(Thread),
    /// A send of another thread is entered: the window's procedure runs for its message.
    Enter {
        send: SendId,
        proc_no: u32,
        hwnd: Hwnd,
        number: u32,
        wparam: u64,
        lparam: u64,
    },
    /// The result of a callback send: its callback procedure runs.
    Callback {
        send: SendId,
        proc_no: u32,
        hwnd: Hwnd,
        number: u32,
        extra: u64,
        result: u64,
    },
    /// The awaited send was answered, and how.
    Done {
        result: u64,
        cause: Cause,
    },
    /// A window's dirty pixels: 1 where there is none, 2 where they are all pixels of one rectangle, else 3; and the left,
    /// top, right and bottom edge of the least rectangle around them, in pixels from the window's left top corner, or 0 0 0 0.
    Update {
        kind: u8,
        l: i32,
        t: i32,
        r: i32,
        b: i32,
    },
    /// A window's painting was begun: 1 where its background is to be erased, else 0, and the edges of the least rectangle around
    /// the pixels that were dirty, in pixels from the window's left top corner, or 0 0 0 0.
    Painting {
        erase: u8,
        l: i32,
        t: i32,
        r: i32,
        b: i32,
    },
    /// The colours of the screen were kept as the frame of this number; frames are counted from 1.
    Snap(u32),
    /// A message was retrieved. `number` is that of the post or the input, or 0 for another message.
    Got {
        origin: Origin,
        number: u32,
        msg: Msg,
    },
    /// The call was refused, and has changed nothing.
    Refused(Code),
}

/// One step of the machine: who called, the call, and its answer.
#[derive(Clone, Copy, Debug, PartialEq, Eq)]
pub struct Entry {
    pub who: Thread,
    pub call: Call,
    pub answer: Answer,
}

/// What is fixed before the first call.
#[derive(Clone, Copy, Debug, PartialEq, Eq)]
pub struct Setup {
    /// How many threads there are, 1 to 15.
    pub threads: u8,
    /// The width of the screen, 1 to 128 pixels.
    pub width: u16,
    /// The height of the screen, 1 to 64 pixels.
    pub height: u16,
    /// The flags that a send with a time may have: 1, which is SMTO_BLOCK alone (Microsoft, SendMessageTimeout function).
    pub smto: u8,
    /// How many posted messages the queue of thread `t` holds at most, at place `t - 1`: 1 to 10,000 (Microsoft, PostMessage
    /// function). The places of no thread have a limit too, and nothing reads it.
    pub posts: [u32; 15],
}

/// How many sends came to what.
#[derive(Clone, Copy, Debug, PartialEq, Eq)]
pub struct SendCount {
    /// All sends.
    pub begun: u32,
    /// Those that were entered.
    pub entered: u32,
    /// Those that their procedure answered.
    pub by_proc: u32,
    /// Those that were replied to.
    pub by_reply: u32,
    /// Those whose window or thread went.
    pub by_loss: u32,
    /// Those that timed out.
    pub by_timeout: u32,
    /// Those that are unfinished.
    pub unfinished: u32,
}

impl Setup {
    ghost use Rattle.std.specs.Prelude.{List, length};
    ghost use Rattle.user_model.specs.Setups.{IsSetup, IsSize, post_limit, setup_from, setup_with};

    /// The setup of so many threads, and of a screen of this width and height, in pixels. Each thread's queue holds 10,000
    /// posted messages at most, and SMTO_BLOCK is the one flag of sends with a time.
    pub fn new(threads: u8, width: u16, height: u16) -> Setup
        requires { IsSize threads width height }
        ensures setup { result ≡ setup_from threads width height }
        ensures fits { IsSetup result }
    {
        Setup::with_limits(threads, width, height, 1, [10000; 15])
    }

    /// The setup of so many threads, of a screen of this width and height, in pixels, of these flags of sends with a time, 1,
    /// and of limits of posted messages, 1 to 10,000, that of thread `t` at place `t - 1`.
    pub fn with_limits(threads: u8, width: u16, height: u16, smto: u8, posts: [u32; 15]) -> Setup
        requires { IsSetup (setup_with threads width height smto posts) }
        ensures { result ≡ setup_with threads width height smto posts }
    {
        Setup {
            threads,
            width,
            height,
            smto,
            posts,
        }
    }

    /// How many posted messages the queue of a thread, 1 to 15, holds at most.
    pub fn post_limit(&self, thread: u8) -> usize
        requires first { 1 ≤ thread }
        requires last { thread ≤ 15 }
        ensures { result ≡ post_limit self.now thread }
    {
        self.posts[usize::from(thread) - 1] as usize
    }
}
