//! Writing a script.

ghost use Rattle.std.specs.Prelude.{◌≡◌, map, decimal, OnOk, IfOk};
ghost use Rattle.std.specs.List.{flat_map};
ghost use Rattle.user_io.specs.Text.{Adds};
ghost use Rattle.script_lines.specs.Known.{known_of};
ghost use Rattle.script_lines.specs.LineTexts.{blank_word, line_text};
ghost use Rattle.script_lines.specs.Words.{line_words};
ghost use Rattle.script_text.specs.Lines.{thread_lines};
ghost use Rattle.script_text.specs.Spelling.{procedure_words, head_text, spelling};

use crate::flatten::flatten;
use script_lines::{Line, NameTables, put_line};
use script_tree::{Body, Procedure, Script};
use std::alloc::{AllocError, Global};
use user_io::text::{put_operand as put_decimal, put_text};

/// Adds lines of a script.
fn put_lines(
    out: &mut Vec<u8>,
    tables: &NameTables,
    script: &Script,
    lines: &[Line],
) -> Result<(), AllocError>
    ensures { OnOk result (Adds out.old.items out.new.items (flat_map line_text (map (line_words (known_of script.now)) lines.now))) }
{
    for line in lines {
        put_line(out, tables, script, *line)?;
    }
    Ok(())
}

/// Adds the lines of a procedure of a script.
#[tactic(auto, using(user_io::proofs::Texts::two))]
fn put_procedure(
    alloc: Global,
    out: &mut Vec<u8>,
    tables: &NameTables,
    script: &Script,
    procedure: &Procedure,
) -> Result<(), AllocError>
    ensures { OnOk result (Adds out.old.items out.new.items (flat_map line_text (procedure_words (known_of script.now) procedure.now))) }
{
    let lines = flatten(alloc, procedure.body())?;
    put_text(out, b"proc ")?;
    put_text(out, procedure.name().text())?;
    put_text(out, b"\n")?;
    put_lines(out, tables, script, &lines)
}

/// Adds the lines of all procedures.
fn put_procedures(
    alloc: Global,
    out: &mut Vec<u8>,
    tables: &NameTables,
    script: &Script,
) -> Result<(), AllocError>
    ensures { OnOk result (Adds out.old.items out.new.items (flat_map line_text (flat_map (procedure_words (known_of script.now)) script.now.procedures))) }
{
    for procedure in script.procedures() {
        put_procedure(alloc, out, tables, script, procedure)?;
    }
    Ok(())
}

/// Adds the lines of a thread of a script.
#[tactic(auto, using(user_io::proofs::Texts::two))]
fn put_thread(
    alloc: Global,
    out: &mut Vec<u8>,
    tables: &NameTables,
    script: &Script,
    body: &Body,
) -> Result<(), AllocError>
    ensures { OnOk result (Adds out.old.items out.new.items (flat_map line_text (map (line_words (known_of script.now)) (thread_lines body.now)))) }
{
    let lines = flatten(alloc, body)?;
    put_line(out, tables, script, Line::Thread)?;
    put_lines(out, tables, script, &lines)
}

/// Adds the lines of all threads.
fn put_threads(
    alloc: Global,
    out: &mut Vec<u8>,
    tables: &NameTables,
    script: &Script,
) -> Result<(), AllocError>
    ensures { OnOk result (Adds out.old.items out.new.items (flat_map line_text (map (line_words (known_of script.now)) (flat_map thread_lines script.now.threads)))) }
{
    for body in script.threads() {
        put_thread(alloc, out, tables, script, body)?;
    }
    Ok(())
}

/// Adds the order list.
fn put_order(out: &mut Vec<u8>, order: &[u8]) -> Result<(), AllocError>
    ensures { OnOk result (Adds out.old.items out.new.items (flat_map blank_word (map decimal order.now))) }
{
    for turn in order {
        put_decimal(out, u64::from(*turn))?;
    }
    Ok(())
}

/// Adds the lines before the procedures and threads.
#[tactic(auto, using(user_io::proofs::Texts::two))]
fn put_head(out: &mut Vec<u8>, script: &Script) -> Result<(), AllocError>
    ensures { OnOk result (Adds out.old.items out.new.items (head_text script.now)) }
{
    put_text(out, b"user 1\nscreen")?;
    put_decimal(out, u64::from(script.width()))?;
    put_decimal(out, u64::from(script.height()))?;
    put_text(out, b"\nbudget")?;
    put_decimal(out, u64::from(script.budget()))?;
    put_text(out, b"\norder")?;
    put_order(out, script.order())?;
    put_text(out, b"\n")?;
    Ok(())
}

/// The one text of a script, by these tables.
#[tactic(auto, using(user_io::proofs::Texts::two))]
pub fn write_with(
    alloc: Global,
    tables: &NameTables,
    script: &Script,
) -> Result<Vec<u8>, AllocError>
    ensures { IfOk result (λ text. text.items ≡ spelling script.now) }
{
    let mut out = Vec::new(alloc);
    put_head(&mut out, script)?;
    put_procedures(alloc, &mut out, tables, script)?;
    put_threads(alloc, &mut out, tables, script)?;
    Ok(out)
}

/// The one text of a script. Only want of memory is an error.
pub fn write(alloc: Global, script: &Script) -> Result<Vec<u8>, AllocError>
    ensures { IfOk result (λ text. text.items ≡ spelling script.now) }
{
    let tables = NameTables::new();
    write_with(alloc, &tables, script)
}
