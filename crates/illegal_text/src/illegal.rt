//! The first bad place of a log, and its reason.

use user_model::{Answer, Call};
use win_num::Thread;

/// Why an actor has no entry left to make.
#[derive(Clone, Copy, Debug, PartialEq, Eq)]
pub enum Over {
    /// The thread's program has ended.
    Ended,
    /// The thread has made as many entries as the script allows it.
    Spent,
    /// The clock: all threads have ended, or it said that nothing can go on.
    Stop,
    /// The script has no such actor.
    Absent,
}

/// What is wrong at a place of a log, and what would be right there.
#[derive(Clone, Copy, Debug, PartialEq, Eq)]
pub enum Why {
    /// The machine answers this.
    Answer(Answer),
    /// The actor's program makes this call.
    Call(Call),
    /// The actor may not move now: this thread, which is idle; for the clock the lowest thread that isn't idle.
    Barred(Thread),
    /// The actor has no entry left to make.
    Over(Over),
    /// This row of the frame, from 0, is the first with other pixels.
    Frame(u32),
    /// This line after the entries, from 0, is the first that is another.
    EndLine(u32),
}

/// The first bad place of a log: that of an entry, from 0, or for `EndLine` the number of entries.
#[derive(Clone, Copy, Debug, PartialEq, Eq)]
pub struct Illegal {
    pub place: u32,
    pub why: Why,
}
