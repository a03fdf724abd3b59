//! Runs by two groups of threads that the gate makes wait for each other: at each of their first turns both are at the gate at once,
//! so no body that runs one group after the other gets by. What is told doesn't depend on who moves when.

use crate::texts::{lines_of, words_of};
use std::alloc::Global;
use std::io::Print;
use std::sync::Wait;
use std::sync::atomic::{AtomicU64, Ordering};
use std::thread::Threads;
use std::{hint, str};
use user_app::io::{Gate, MemSink, StdSource};
use user_app::user_threads;

/// At how many turns, the first ones, the groups wait for each other.
const TURNS: u64 = 6;

/// How often a group looks for the other at most.
const LOOKS: u32 = 100_000_000;

/// How many bytes of a log are kept.
const ROOM: u32 = 65_536;

/// Where two groups meet: at how many of their first turns each has come, and how often one has looked for the other in vain.
#[derive(Drop)]
struct Meeting {
    first: AtomicU64,
    second: AtomicU64,
    alone: AtomicU64,
}

impl Meeting {
    /// Nobody has come.
    fn new() -> Meeting {
        Meeting {
            first: AtomicU64::new(0),
            second: AtomicU64::new(0),
            alone: AtomicU64::new(0),
        }
    }

    /// Whether both groups have met at all of the turns.
    fn is_whole(&self) -> bool {
        let first = self.first.load(Ordering::SeqCst);
        let second = self.second.load(Ordering::SeqCst);
        first == TURNS && second == TURNS && self.alone.load(Ordering::SeqCst) == 0
    }
}

/// Looks for the other group until it has come for this turn, too.
fn meet(mine: &AtomicU64, other: &AtomicU64, turn: u64) -> bool {
    mine.store(turn.saturating_add(1), Ordering::SeqCst);
    for _ in 0..LOOKS {
        if other.load(Ordering::SeqCst) > turn {
            return true;
        }
        hint::spin_loop();
    }
    false
}

impl Gate for Meeting {
    fn pass(&self, group: u32, turn: u64) {
        if turn >= TURNS {
            return;
        }
        let met = if group == 0 {
            meet(&self.first, &self.second, turn)
        } else {
            meet(&self.second, &self.first, turn)
        };
        if !met {
            self.alone.fetch_add(1, Ordering::SeqCst);
        }
    }
}

/// Tells the last line of a log.
fn tell_last(rt: &impl Print, log: &[u8]) -> anyhow::Result<()> {
    let text = str::from_utf8(log)?;
    match text.lines().last() {
        Some(line) => println!(rt; "  {line}")?,
        None => anyhow::bail!("nothing was written"),
    }
    Ok(())
}

/// Runs the script that a line has by two groups, and tells how that ended. It's an error where they haven't met at each turn.
pub fn tell<R: Print + Threads + Wait + Sync>(
    rt: &R,
    alloc: Global,
    text: &str,
) -> anyhow::Result<()> {
    let words = words_of(alloc, "threads 2")?;
    let script = lines_of(alloc, text)?;
    let meeting = Meeting::new();
    let mut source = StdSource::new(script.as_bytes());
    let mut sink = MemSink::new(alloc, ROOM)?;
    let status = user_threads(rt, alloc, &words, &mut source, &mut sink, &meeting);
    println!(rt; "  {status:?} {}", status.number())?;
    tell_last(rt, sink.bytes())?;
    if !meeting.is_whole() {
        anyhow::bail!("the groups haven't met at each turn");
    }
    println!(rt; "  both groups met at each of {TURNS} turns")?;
    Ok(())
}
