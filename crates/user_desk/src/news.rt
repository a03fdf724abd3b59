//! Where seats sleep whose actors wait. Nothing here is part of what a seat knows: whoever is woken has another turn.

use std::sync::Wait;
use std::sync::atomic::{AtomicU64, Ordering};
use std::time::Duration;

/// How long a sleep is at most, in milliseconds. A seat is woken at each entry, so this matters only where a wake is lost.
const LONGEST: u64 = 50;

/// Word of new entries: how often it was told, and 1 where a seat may sleep until it is told.
#[derive(Drop)]
pub(crate) struct News {
    times: AtomicU64,
    asked: AtomicU64,
}

impl News {
    /// Nothing was told yet, and nobody asks.
    pub(crate) fn new() -> News {
        News {
            times: AtomicU64::new(0),
            asked: AtomicU64::new(0),
        }
    }

    /// Asks to be told of entries from now on. Answers how often it was told so far, which comes first: what is told
    /// in between ends the next sleep.
    pub(crate) fn ask(&self) -> u64 {
        let times = self.times.load(Ordering::SeqCst);
        self.asked.store(1, Ordering::SeqCst);
        times
    }

    /// Tells all seats that sleep of an entry, where one may have been made.
    pub(crate) fn tell(&self, made: bool) {
        if !made || self.asked.load(Ordering::SeqCst) == 0 {
            return;
        }
        self.asked.store(0, Ordering::SeqCst);
        self.times.fetch_add(1, Ordering::SeqCst);
        self.times.wake_all();
    }

    /// Sleeps until more was told than so often.
    pub(crate) fn sleep<R: Wait>(&self, rt: &R, times: u64) {
        let longest = Duration::from_millis(LONGEST);
        self.times
            .park_timeout(rt, (times & 0xffff_ffff) as u32, longest);
    }
}
