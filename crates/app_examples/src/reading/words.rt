//! Names as they are numbered, and words of a line.

use crate::texts::shown;
use script_lines::{Names, number_at, split_at, word_at};
use std::alloc::Global;
use std::io::Print;

/// Tells the numbers of names of procedures and of others.
pub fn tell_names(rt: &impl Print, alloc: Global) -> anyhow::Result<()> {
    let mut names = Names::new(alloc);
    for word in ["a", "a", "b"] {
        println!(rt;
            "begun_at {word} {:?}",
            names.begun_at(alloc, word.as_bytes())?
        )?;
    }
    for word in ["b", "c"] {
        println!(rt;
            "procedure_at {word} {:?}",
            names.procedure_at(word.as_bytes())
        )?;
    }
    for word in ["b", "c", "b", "7"] {
        println!(rt;
            "name_at {word} {:?}",
            names.name_at(alloc, word.as_bytes())?
        )?;
    }
    Ok(())
}

/// Tells the words of a line, and a number that ends early.
pub fn tell_words(rt: &impl Print, alloc: Global) -> anyhow::Result<()> {
    let words = split_at(alloc, b"screen  12x", b' ')?;
    println!(rt; "{} words", words.len())?;
    for place in 0..4usize {
        println!(rt;
            "word_at {place} '{}'",
            shown(alloc, word_at(&words, place))?
        )?;
    }
    println!(rt; "number_at {}", number_at(word_at(&words, 2)))?;
    Ok(())
}
