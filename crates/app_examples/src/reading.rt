//! Texts of scripts and of lines, which are read and written again.

mod lines;
mod repeats;
mod scripts;
mod words;

use std::alloc::Global;
use std::io::Print;

/// Does with the text of a line what the line's word says.
pub fn tell(rt: &impl Print, alloc: Global, word: &str, rest: &str) -> anyhow::Result<()> {
    let text = repeats::text_of(alloc, rest)?;
    match word {
        "script" => scripts::tell(rt, alloc, &text),
        "parts" => scripts::tell_parts(rt, alloc, &text),
        "lines" => lines::tell(rt, alloc, &text),
        _ => Ok(()),
    }
}

/// Tells the numbers of names, and the words of a line.
pub fn tell_words(rt: &impl Print, alloc: Global) -> anyhow::Result<()> {
    words::tell_names(rt, alloc)?;
    words::tell_words(rt, alloc)
}
