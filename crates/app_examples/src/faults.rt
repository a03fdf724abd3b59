//! Calls of the program on sources and sinks that fail.

use crate::texts::{lines_of, shown, words_of};
use std::alloc::{AllocError, Global};
use std::io::Print;
use std::sync::Wait;
use std::thread::Threads;
use user_app::io::{MemSink, MemSource, NoGate};
use user_app::{Status, user_main};

/// The call of the source that fails, from 0 on; at none of a text's.
const FAILING: [Option<u64>; 4] = [Some(0), Some(1), Some(2), None];

/// How many bytes the sink takes; all of a text's.
const ROOMS: [u32; 4] = [0, 1, 20, 10_000];

/// How many bytes the source gives in one call.
const PIECE: usize = 10;

/// Calls the program with these words.
fn called<R: Threads + Wait + Sync>(
    rt: &R,
    alloc: Global,
    words: &[String],
    text: &str,
    fails_at: Option<u64>,
    room: u32,
) -> Result<(Status, MemSink), AllocError> {
    let mut fail = Vec::new(alloc);
    if let Some(call) = fails_at {
        fail.push(call)?;
    }
    let mut source = MemSource::new(Vec::from_slice(alloc, text.as_bytes())?, PIECE, fail);
    let mut sink = MemSink::new(alloc, room)?;
    let status = user_main(rt, alloc, words, &mut source, &mut sink, &NoGate);
    Ok((status, sink))
}

/// Tells how a call ended and what it wrote.
fn tell_one<R: Print + Threads + Wait + Sync>(
    rt: &R,
    alloc: Global,
    words: &[String],
    text: &str,
    fails_at: Option<u64>,
    room: u32,
) -> anyhow::Result<()> {
    let (status, sink) = called(rt, alloc, words, text, fails_at, room)?;
    match fails_at {
        Some(call) => print!(rt; "  fails at {call}, ")?,
        None => print!(rt; "  never fails, ")?,
    }
    println!(rt;
        "room {room}: {status:?} {}, '{}'",
        status.number(),
        shown(alloc, sink.bytes())?
    )?;
    Ok(())
}

/// Tells this of each source and each sink, for the words and the text of a line `WORDS: TEXT`.
pub fn tell<R: Print + Threads + Wait + Sync>(
    rt: &R,
    alloc: Global,
    line: &str,
) -> anyhow::Result<()> {
    let Some((words, text)) = line.split_once(": ") else {
        anyhow::bail!("no text: {line}");
    };
    let words = words_of(alloc, words)?;
    let text = lines_of(alloc, text)?;
    for fails_at in FAILING {
        for room in ROOMS {
            tell_one(rt, alloc, &words, &text, fails_at, room)?;
        }
    }
    Ok(())
}
