//! How long a get takes, after few entries and after many.

use clip_board::{Clip, ClipCall};
use std::alloc::Global;
use std::io::Print;
use std::time::{Clock, Duration, Instant};
use win_num::{Hwnd, Thread};

/// How many gets are timed in one.
const GETS: u32 = 1000;

/// Makes a call of thread 1.
fn make(clip: &mut Clip, call: ClipCall) -> anyhow::Result<()> {
    let _answer = clip.step(Thread(1), call)?;
    Ok(())
}

/// Fills the history up to so many entries: format 1 is set once, and then got.
fn fill(clip: &mut Clip, entries: u32) -> anyhow::Result<()> {
    make(clip, ClipCall::Open { hwnd: Hwnd(0) })?;
    make(
        clip,
        ClipCall::Set {
            format: 1,
            value: 5,
        },
    )?;
    for _ in 2..entries {
        make(clip, ClipCall::Get { format: 1 })?;
    }
    Ok(())
}

/// How long the gets take.
fn time<R: Clock>(rt: &R, clip: &mut Clip) -> anyhow::Result<Duration> {
    let start = Instant::now(rt)?;
    for _ in 0..GETS {
        make(clip, ClipCall::Get { format: 1 })?;
    }
    Ok(start.elapsed(rt)?)
}

/// Tells how long gets take after so many entries.
fn run<R: Clock + Print>(rt: &R, clip: &mut Clip, entries: &str) -> anyhow::Result<()> {
    fill(clip, entries.parse()?)?;
    let lasted = time(rt, clip)?;
    println!(rt;
        "{GETS} gets after {entries} entries: {} ns",
        lasted.as_nanos()
    )?;
    Ok(())
}

/// Tells it of a new clipboard.
pub fn show<R: Clock + Print>(rt: &R, alloc: Global, entries: &str) -> anyhow::Result<()> {
    let mut clip = Clip::new(alloc);
    let told = run(rt, &mut clip, entries);
    drop(clip);
    told
}
