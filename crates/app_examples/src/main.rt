//! Worked examples of the program's top call, from bytes to bytes, and of scripts. First come the shortest programs with the parts above a machine
//! (`short`), which read nothing. Standard input has lines `PIECE FAIL ROOM: WORDS: TEXT`: the program
//! is called with these words, on a source that gives the text in pieces of so many bytes and fails at its call FAIL, counted from 0
//! (`-`: at none), and on a sink that has room for so many bytes. A line `turns TEXT` makes turns of a script's first thread, `again TEXT`
//! all of them, once with each call in turn finding no memory at first; `pool LEFT: TEXT` runs all of its threads at a machine that wants memory once after LEFT calls (`-`: never); `faults WORDS: TEXT` calls the program, also
//! by threads, on each of some sources and sinks that fail. `json TEXT` runs the script, and its log goes to standard output as lines of JSON; `meeting
//! TEXT` runs it by two groups of threads that wait for each other. `script TEXT` reads the text as a script and writes it again, `parts TEXT` tells
//! what the script has, `lines TEXT` reads and writes lines of words alone. In a text `/` ends a line, and in those of the last three
//! `~N PART~` is a part N times. Each line is written again, and below it what came of it, with `/` in the place of an end of a line, but for lines `json`.
#![tactic(auto)]

ghost use Rattle.std.specs.Prelude.{◌<◌};

mod again;
mod faults;
mod json;
mod meetings;
mod pools;
mod reading;
mod short;
mod texts;
mod turns;
mod wanting;

use std::alloc::{AllocError, Global};
use std::io::{BufRead, BufReader, Input, Print};
use std::sync::Wait;
use std::thread::Threads;
use texts::{Outside, lines_of, outside_of, shown, words_of};
use user_app::io::{MemSink, MemSource};
use user_app::{Status, user_plain};

/// Calls the program with these words.
fn called(
    alloc: Global,
    outside: Outside,
    words: &str,
    text: &str,
) -> Result<(Status, MemSink), AllocError> {
    let owned = words_of(alloc, words)?;
    let mut fail = Vec::new(alloc);
    if let Some(call) = outside.fails_at {
        fail.push(call)?;
    }
    let script = lines_of(alloc, text)?;
    let mut source = MemSource::new(
        Vec::from_slice(alloc, script.as_bytes())?,
        outside.piece.max(1),
        fail,
    );
    let mut sink = MemSink::new(alloc, outside.room)?;
    let status = user_plain(alloc, &owned, &mut source, &mut sink);
    Ok((status, sink))
}

/// Calls the program with these words, and tells how it ended and what it wrote.
fn tell_call(rt: &impl Print, alloc: Global, outside: Outside, line: &str) -> anyhow::Result<()> {
    let Some((words, text)) = line.split_once(": ") else {
        anyhow::bail!("no text: {line}");
    };
    let (status, sink) = called(alloc, outside, words, text)?;
    println!(rt; "  {status:?} {}", status.number())?;
    println!(rt; "  {}", shown(alloc, sink.bytes())?)?;
    Ok(())
}

/// Makes the call of a line `PIECE FAIL ROOM: WORDS: TEXT`. A line without a colon asks for nothing.
fn tell_numbered(rt: &impl Print, alloc: Global, line: &str) -> anyhow::Result<()> {
    let Some((outside, rest)) = line.split_once(": ") else {
        return Ok(());
    };
    match outside_of(outside) {
        Some(outside) => tell_call(rt, alloc, outside, rest),
        None => anyhow::bail!("no numbers: {line}"),
    }
}

/// Does what a line asks for.
fn run_line<R: Print + Threads + Wait + Sync>(
    rt: &R,
    alloc: Global,
    line: &str,
) -> anyhow::Result<()> {
    let Some((word, rest)) = line.split_once(' ') else {
        return Ok(());
    };
    match word {
        "faults" => faults::tell(rt, alloc, rest),
        "turns" => turns::tell(rt, alloc, rest),
        "again" => again::tell(rt, alloc, rest),
        "pool" => pools::tell(rt, alloc, rest),
        "json" => json::tell(rt, alloc, rest),
        "meeting" => meetings::tell(rt, alloc, rest),
        "script" | "parts" | "lines" => reading::tell(rt, alloc, word, rest),
        _ => tell_numbered(rt, alloc, line),
    }
}

/// Does what the lines of standard input ask for.
fn run<R: Input + Print + Threads + Wait + Sync>(rt: &R, alloc: Global) -> anyhow::Result<()> {
    for line in BufReader::new(alloc, rt.reader())?.lines(alloc) {
        let line = line?;
        println!(rt; "{line}")?;
        run_line(rt, alloc, &line)?;
    }
    Ok(())
}

fn main(rt: HostRuntime) -> anyhow::Result<()> {
    let alloc = rt.alloc();
    short::show(&rt, alloc)?;
    run(&rt, alloc)?;
    reading::tell_words(&rt, alloc)
}
