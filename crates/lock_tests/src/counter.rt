//! A counter of visits with a journal and a limit.
ghost use Rattle.std.specs.Prelude.{◌≡◌, ◌≤◌, [], length, nat_lt, nat_le};
ghost use Rattle.lock_tests.specs.declared.counter.Told.TheVariants.{Full};
ghost use Rattle.turn_lock.specs.Counting.{shorter};

use std::alloc::{AllocError, Global};
use turn_lock::Journaled;

/// A visit by a seat: which of its own it is, and how many visits it waits for.
#[derive(Clone, Copy)]
pub struct Visit {
    pub seat: u64,
    pub turn: u64,
    pub after: u64,
}

/// How many visits came before, or that there is no room for more.
#[derive(Clone, Copy, PartialEq)]
pub enum Told {
    Before(u64),
    Full,
}

#[derive(Drop)]
pub struct Counter {
    pub limit: u64,
    pub journal: Vec<(Visit, Told)>,
}

impl Counter {
    /// A counter without entries, which is full at so many. It takes no memory.
    pub fn new(alloc: Global, limit: u64) -> Counter
        ensures { (result.limit ≡ limit) × (result.journal.items ≡ []) }
    {
        Counter {
            limit,
            journal: Vec::new(alloc),
        }
    }
}

impl Journaled for Counter {
    type Call = Visit;

    type Answer = Told;

    type Setting = u64;

    ghost history = { λ c. c.journal.items };

    ghost setting = { λ c. c.limit };

    ghost lawful = { λ limit h. length h ≤ limit };

    ghost number = { λ v. v.seat };

    ghost is_full = { λ limit h. nat_le limit (length h) };

    ghost is_barred = { λ limit h v. nat_lt (length h) v.after };

    ghost refusal = { λ limit h v. Full };

    fn full(&self) -> bool {
        self.limit <= self.journal.len() as u64
    }

    fn step(&mut self, call: Visit) -> Result<Told, AllocError> {
        let before = self.journal.len() as u64;
        if self.limit <= before {
            return Ok(Told::Full);
        }
        self.journal.push((call, Told::Before(before)))?;
        Ok(Told::Before(before))
    }

    fn barred(&self, call: &Visit) -> bool {
        (self.journal.len() as u64) < call.after
    }

    ghost beginning = { λ limit early late fits. shorter limit early late fits };
}
