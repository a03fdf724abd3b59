//! Lines of words, both ways.

ghost use Rattle.script_lines.specs.NameLimits.{AreKnown};

use crate::texts::shown;
use script_lines::{Line, NameTables, Names, line_at, put_line, texts_of, words_into};
use script_tree::{Body, Procedure, Script};
use std::alloc::{AllocError, Global};
use std::io::Print;

/// A script with these names, and procedures without statements.
fn script_of(alloc: Global, names: Names) -> Result<Script, AllocError> {
    let (names, procedure_names) = names.into_parts();
    let mut procedures = Vec::new(alloc);
    for name in procedure_names {
        procedures.push(Procedure::new(name, Body::new(Vec::new(alloc))))?;
    }
    let order = Vec::new(alloc);
    let threads = Vec::new(alloc);
    Ok(Script::new(8, 4, 1, order, names, procedures, threads))
}

/// The lines of a text, and the names in them; none where one of them is no line.
fn lines_of(
    alloc: Global,
    tables: &NameTables,
    names: &mut Names,
    texts: &[&[u8]],
) -> Result<Option<Vec<Line>>, AllocError>
    requires { AreKnown names.old }
{
    let mut lines = Vec::new(alloc);
    let mut words = Vec::new(alloc);
    for text in texts {
        words_into(&mut words, text)?;
        let Some(line) = line_at(alloc, tables, names, &words)? else {
            return Ok(None);
        };
        lines.push(line)?;
    }
    Ok(Some(lines))
}

/// The text of these lines after they were read; none where one of them is no line.
fn written_again(alloc: Global, bytes: &[u8]) -> Result<Option<Vec<u8>>, AllocError> {
    let tables = NameTables::new();
    let texts = texts_of(alloc, bytes)?;
    let mut names = Names::new(alloc);
    let Some(lines) = lines_of(alloc, &tables, &mut names, &texts)? else {
        return Ok(None);
    };
    let script = script_of(alloc, names)?;
    let mut out = Vec::new(alloc);
    for line in &lines {
        put_line(&mut out, &tables, &script, *line)?;
    }
    Ok(Some(out))
}

/// Reads lines, and tells what they are written as.
pub fn tell(rt: &impl Print, alloc: Global, text: &str) -> anyhow::Result<()> {
    match written_again(alloc, text.as_bytes())? {
        Some(out) => println!(rt; "  {}.", shown(alloc, &out)?)?,
        None => println!(rt; "  no lines")?,
    }
    Ok(())
}
