//! The machine, as the layers above it know it.

ghost use Rattle.std.specs.Prelude.{◌≡◌, List, reverse, OnOk, OnErr, IfOk, option_copied};
ghost use Rattle.user_model.specs.declared.entry.Entry.{Entry};
ghost use Rattle.user_model.specs.declared.entry.Setup.{Setup};
ghost use Rattle.user_model.specs.Colours.{frame_of};
ghost use Rattle.user_model.specs.Counts.{send_count};
ghost use Rattle.user_model.specs.Idle.{reply, is_barred};
ghost use Rattle.user_model.specs.Machines.{after};

use crate::call::Call;
use crate::entry::{Answer, Entry, SendCount};
use std::alloc::AllocError;
use win_num::Thread;

/// Makes one call at a time. The past determines each answer.
pub trait Machine {
    /// What was fixed before the first call.
    ghost setup: { Self → Setup };

    /// All entries so far, the newest first.
    ghost past: { Self → List Entry };

    /// Makes one call. The answer is the reply of the definitions, and stands with the call as the
    /// newest entry, unless the history is full: then it stays as it was. After want of memory nothing
    /// has changed, and the call may be made again.
    fn step(&mut self, who: Thread, call: Call) -> Result<Answer, AllocError>
        ensures answer { IfOk result (λ answer. answer ≡ reply (setup self.old) (past self.old) who.0 call) }
        ensures entry { OnOk result (past self.new ≡ after (setup self.old) (past self.old) who call) }
        ensures err { OnErr result (past self.new ≡ past self.old) }
        ensures setup { setup self.new ≡ setup self.old };

    /// Whether the actor has no call to make now: a thread that has ended or waits, or the clock where
    /// some thread has a call to make, all have ended or nothing can go on.
    fn barred(&self, who: Thread) -> bool
        ensures { result ≡ is_barred (setup self.now) (past self.now) who.0 };

    /// All entries so far, the oldest first.
    fn history(&self) -> &[Entry]
        ensures { result.now ≡ reverse (past self.now) };

    /// The colours of the frame of a number, counted from 1, row after row, each from left to right, each 0 to 15. None comes
    /// exactly where there is no frame of the number.
    fn frame(&self, number: u32) -> Option<&[u8]>
        ensures { option_copied result ≡ frame_of (setup self.now) (past self.now) number };

    /// How many sends came to what.
    fn send_count(&self) -> SendCount
        ensures { result ≡ send_count (past self.now) };
}
