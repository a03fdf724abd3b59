//! A machine that wants memory once.

use std::alloc::AllocError;
use user_model::{Answer, Call, Entry, Machine, SendCount};
use win_num::Thread;

/// A machine that makes so many calls by another, then wants memory at one, and makes all after it.
#[derive(Drop)]
pub struct Wanting<M: Machine> {
    pub machine: M,
    /// How many calls are left before it; none where memory was wanted, or never is.
    pub left: Option<u64>,
}

impl<M: Machine> Machine for Wanting<M> {
    ghost setup = { λ w. M.setup w.machine };

    ghost past = { λ w. M.past w.machine };

    fn step(&mut self, who: Thread, call: Call) -> Result<Answer, AllocError> {
        if self.left == Some(0) {
            self.left = None;
            return Err(AllocError);
        }
        self.left = self.left.map(|left| left.saturating_sub(1));
        self.machine.step(who, call)
    }

    fn barred(&self, who: Thread) -> bool {
        self.machine.barred(who)
    }

    fn history(&self) -> &[Entry] {
        self.machine.history()
    }

    fn frame(&self, number: u32) -> Option<&[u8]> {
        self.machine.frame(number)
    }

    fn send_count(&self) -> SendCount {
        self.machine.send_count()
    }
}
