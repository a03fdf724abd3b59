//! The program `user`: its words, standard input and standard output go into the top call, and its
//! status comes out.
#![tactic(auto)]

use std::alloc::AllocError;
use std::process::ExitCode;
use std::{env, io};
use user_app::io::{Kept, NoGate, StdSink, StdSource, write_all};
use user_app::{Status, mistake, user_main};

/// What the program can be asked for.
const USAGE: &[u8] = b"usage: user run [--json] | check | make N | threads G\n";

fn main(rt: HostRuntime) -> ExitCode {
    let status = match words(&rt) {
        Ok(words) => {
            let mut source = Kept::new(rt.alloc(), StdSource::new(rt.stdin()));
            let mut sink = StdSink::new(rt.stdout());
            let status = user_main(&rt, rt.alloc(), &words, &mut source, &mut sink, &NoGate);
            if matches!(status, Status::Script) {
                help(&rt, &words, source.bytes());
            }
            status
        }
        Err(status) => status,
    };
    if let Some(text) = failure(&status) {
        tell(&rt, text);
    }
    ExitCode::from(status.number())
}

/// What is said to people where the words ask for nothing, or the input or the output failed or memory was wanting.
fn failure(status: &Status) -> Option<&'static [u8]> {
    match status {
        Status::Words => Some(USAGE),
        Status::ReadFault => Some(b"user: standard input can't be read; nothing was written\n"),
        Status::WriteFault => Some(
            b"user: standard output can't be written; its text was cut off\n",
        ),
        Status::Memory => Some(b"user: there is not enough memory; the text was cut off\n"),
        _ => None,
    }
}

/// Says to people what is wrong with the input, where it was kept.
fn help(rt: &HostRuntime, words: &[String], input: Option<&[u8]>) {
    let Some(input) = input else {
        return;
    };
    if let Ok(Some(line)) = mistake(rt.alloc(), words, input) {
        tell(rt, &line);
    }
}

/// Writes to standard error. Nobody is left to be told of a failure here.
fn tell(rt: &HostRuntime, text: &[u8]) {
    let mut errors = StdSink::new(rt.stderr());
    let _told = write_all(&mut errors, text);
}

/// The words after the program's name. Words that are no text ask for nothing; without memory for them
/// the program ends.
fn words(rt: &HostRuntime) -> Result<Vec<String>, Status> {
    let args = env::args(rt).map_err(|error| match error.kind() {
        io::ErrorKind::OutOfMemory => Status::Memory,
        _ => Status::Words,
    })?;
    let mut words = Vec::new(rt.alloc());
    for word in args.skip(1) {
        words.push(word).map_err(|_| Status::Memory)?;
    }
    Ok(words)
}
