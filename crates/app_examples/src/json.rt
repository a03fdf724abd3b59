//! Runs whose log goes to standard output itself, as lines of JSON.

use crate::texts::{lines_of, words_of};
use std::alloc::Global;
use std::io::{self, Print};
use user_app::io::{StdSink, StdSource};
use user_app::user_plain;

/// Calls the program with the words `run --json` and the text of a line, over std's reader and std's writer, and tells how it ended.
pub fn tell(rt: &impl Print, alloc: Global, text: &str) -> anyhow::Result<()> {
    let words = words_of(alloc, "run --json")?;
    let script = lines_of(alloc, text)?;
    let mut source = StdSource::new(script.as_bytes());
    let mut sink = StdSink::new(io::writer(rt));
    let status = user_plain(alloc, &words, &mut source, &mut sink);
    println!(rt; "  {status:?} {}", status.number())?;
    Ok(())
}
