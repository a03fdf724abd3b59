//! The text of a line whose names are known, for comparing it with a text.

ghost use Rattle.std.specs.Prelude.{◌≡◌, ◌++◌, ◌∷◌, [], map, slice_index_or, OnOk, IfOk};
ghost use Rattle.std.specs.List.{flat_map};
ghost use Rattle.std.specs.Str.{bytes_eq};
ghost use Rattle.user_io.specs.Text.{Adds};
ghost use Rattle.script_lines.specs.LineTexts.{blank_word, joined};
ghost use Rattle.script_lines.specs.Words.{part_word, line_words};
ghost use Rattle.script_lines.specs.Rows.{command_word};

use crate::line::{Command, Line};
use crate::line_form::{line_command, line_parts};
use crate::line_writer::{put_operand, put_word};
use crate::names::Names;
use crate::operands::NameTables;
use crate::rows::command_word;
use crate::words::{comparison_word, letter_word, operator_word};
use statement_table::Part;
use std::alloc::{AllocError, Global};
use user_io::text::put_text;

/// Adds a blank and a part of a line.
fn put_known_part(
    out: &mut Vec<u8>,
    tables: &NameTables,
    known: &Names,
    part: Part,
) -> Result<(), AllocError>
    ensures { OnOk result (Adds out.old.items out.new.items (blank_word (part_word known.now part))) }
{
    match part {
        Part::Letter(letter) => put_word(out, letter_word(letter)),
        Part::Operand(operand) => put_operand(out, tables, operand),
        Part::Operator(operator) => put_word(out, operator_word(operator)),
        Part::Comparison(comparison) => put_word(out, comparison_word(comparison)),
        Part::Name(place) => put_word(out, known.name_text(place)),
        Part::Beginning(place) => put_word(out, known.procedure_text(place)),
        Part::Procedure(place) => put_word(out, known.procedure_text(place)),
    }
}

/// Adds the parts of a line.
fn put_known_parts(
    out: &mut Vec<u8>,
    tables: &NameTables,
    known: &Names,
    parts: &[Part],
) -> Result<(), AllocError>
    ensures { OnOk result (Adds out.old.items out.new.items (flat_map (λ p. blank_word (part_word known.now p)) parts.now)) }
{
    for part in parts {
        put_known_part(out, tables, known, *part)?;
    }
    Ok(())
}

/// The text of a line, without its line feed.
fn known_text(
    alloc: Global,
    tables: &NameTables,
    known: &Names,
    command: Command,
    parts: &[Part],
) -> Result<Vec<u8>, AllocError>
    ensures { IfOk result (λ out. out.items ≡ joined (command_word command ∷ map (part_word known.now) parts.now)) }
{
    let mut out = Vec::new(alloc);
    put_text(&mut out, command_word(command))?;
    put_known_parts(&mut out, tables, known, parts)?;
    Ok(out)
}

/// Whether a line has this text, where these names are known. Only want of memory is an error.
pub fn is_text_of(
    alloc: Global,
    tables: &NameTables,
    known: &Names,
    line: Line,
    text: &[u8],
) -> Result<bool, AllocError>
    ensures { IfOk result (λ same. same ≡ bytes_eq (joined (line_words known.now line)) text.now) }
{
    let out = known_text(alloc, tables, known, line_command(line), &line_parts(line))?;
    Ok(out.as_slice() == text)
}
