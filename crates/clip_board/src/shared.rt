//! A clipboard as a state that threads share.

ghost use Rattle.std.specs.Prelude.{false};
ghost use Rattle.clip_board.specs.Journal.{said_in, caller, is_full_of, reply_after, IsLawfulLog, lawful_beginning};

use crate::clip::Clip;
use crate::entry::{ClipAnswer, ClipCall};
use std::alloc::AllocError;
use turn_lock::Journaled;
use win_num::Thread;

/// A clipboard whose history is the journal of all calls: a call stands there with its thread, whose number is that of
/// the seat that may make it. No call has to wait.
impl Journaled for Clip {
    type Call = (Thread, ClipCall);

    type Answer = ClipAnswer;

    type Setting = ();

    ghost history = { said_in };

    ghost setting = { λ clip. tt };

    ghost lawful = { λ rules log. IsLawfulLog log };

    ghost number = { caller };

    ghost is_full = { λ rules log. is_full_of log };

    ghost is_barred = { λ rules log call. false };

    ghost refusal = { λ rules log call. reply_after log call };

    fn full(&self) -> bool {
        self.is_full()
    }

    fn step(&mut self, call: (Thread, ClipCall)) -> Result<ClipAnswer, AllocError> {
        let (who, call) = call;
        self.step(who, call)
    }

    fn barred(&self, _call: &(Thread, ClipCall)) -> bool {
        false
    }

    ghost beginning = { λ rules. lawful_beginning };
}
