//! Lines as their text.

ghost use Rattle.std.specs.Prelude.{◌≡◌, ◌∷◌, [], map, decimal, unwrap_or, option_map, slice_index_or, OnOk};
ghost use Rattle.std.specs.List.{flat_map};
ghost use Rattle.user_io.specs.Text.{Adds};
ghost use Rattle.script_lines.specs.LineTexts.{blank_word, line_text};
ghost use Rattle.script_lines.specs.Known.{known_of};
ghost use Rattle.script_lines.specs.Words.{operand_word, part_word, line_words};
ghost use Rattle.script_lines.specs.Rows.{command_word};

use crate::line::{Command, Line};
use crate::line_form::{line_command, line_parts};
use crate::operands::NameTables;
use crate::rows::command_word;
use crate::words::{comparison_word, letter_word, operator_word, variable_word};
use script_tree::{Name, Operand, Procedure, Script};
use statement_table::{Part, split_statement};
use std::alloc::AllocError;
use user_io::text::{put_number, put_operand as put_decimal, put_text};

/// Adds a blank and a word.
#[tactic(auto, using(user_io::proofs::Texts::two))]
pub fn put_word(out: &mut Vec<u8>, word: &[u8]) -> Result<(), AllocError>
    ensures { OnOk result (Adds out.old.items out.new.items (blank_word word.now)) }
{
    out.push(b' ')?;
    put_text(out, word)?;
    Ok(())
}

/// Adds a blank and a number below 0.
#[tactic(auto, using(user_io::proofs::Texts::two))]
fn put_minus(out: &mut Vec<u8>, number: u64) -> Result<(), AllocError>
    ensures { OnOk result (Adds out.old.items out.new.items (blank_word (45 ∷ decimal number))) }
{
    put_text(out, b" -")?;
    put_number(out, number)?;
    Ok(())
}

/// Adds a blank and a word, or only the blank.
fn put_some_word(out: &mut Vec<u8>, word: Option<&[u8]>) -> Result<(), AllocError>
    ensures { OnOk result (Adds out.old.items out.new.items (blank_word (unwrap_or (option_map (λ w. w.now) word.entry) []))) }
{
    match word {
        Some(word) => put_word(out, word),
        None => put_word(out, b""),
    }
}

/// Adds a blank and an operand.
pub fn put_operand(
    out: &mut Vec<u8>,
    tables: &NameTables,
    operand: Operand,
) -> Result<(), AllocError>
    ensures { OnOk result (Adds out.old.items out.new.items (blank_word (operand_word operand))) }
{
    match operand {
        Operand::Number(number) => put_decimal(out, number),
        Operand::Minus(number) => put_minus(out, number),
        Operand::Message(number) => put_some_word(out, tables.messages.name_of(number)),
        Operand::Constant(ordinal) => put_some_word(out, tables.constants.name_of(ordinal)),
        Operand::Variable(variable) => put_word(out, variable_word(variable)),
    }
}

/// The name at a place, empty where there is none.
fn name_at(names: &[Name], place: u32) -> &[u8]
    ensures { result.now ≡ slice_index_or names.now place [] }
{
    match names.get(place as usize) {
        Some(name) => name.text(),
        None => b"",
    }
}

/// The name of the procedure at a place, empty where there is none.
fn procedure_name_at(procedures: &[Procedure], place: u32) -> &[u8]
    ensures { result.now ≡ slice_index_or (map (λ p. p.name) procedures.now) place [] }
{
    match procedures.get(place as usize) {
        Some(procedure) => procedure.name().text(),
        None => b"",
    }
}

/// Adds a blank and a part of a line.
fn put_part(
    out: &mut Vec<u8>,
    tables: &NameTables,
    script: &Script,
    part: Part,
) -> Result<(), AllocError>
    ensures { OnOk result (Adds out.old.items out.new.items (blank_word (part_word (known_of script.now) part))) }
{
    match part {
        Part::Letter(letter) => put_word(out, letter_word(letter)),
        Part::Operand(operand) => put_operand(out, tables, operand),
        Part::Operator(operator) => put_word(out, operator_word(operator)),
        Part::Comparison(comparison) => put_word(out, comparison_word(comparison)),
        Part::Name(place) => put_word(out, name_at(script.names(), place)),
        Part::Beginning(place) => put_word(out, procedure_name_at(script.procedures(), place)),
        Part::Procedure(place) => put_word(out, procedure_name_at(script.procedures(), place)),
    }
}

/// Adds the parts of a line.
fn put_parts(
    out: &mut Vec<u8>,
    tables: &NameTables,
    script: &Script,
    parts: &[Part],
) -> Result<(), AllocError>
    ensures { OnOk result (Adds out.old.items out.new.items (flat_map (λ p. blank_word (part_word (known_of script.now) p)) parts.now)) }
{
    for part in parts {
        put_part(out, tables, script, *part)?;
    }
    Ok(())
}

/// Adds a line.
fn put_words(
    out: &mut Vec<u8>,
    tables: &NameTables,
    script: &Script,
    command: Command,
    parts: &[Part],
) -> Result<(), AllocError>
    ensures { OnOk result (Adds out.old.items out.new.items (line_text (command_word command ∷ map (part_word (known_of script.now)) parts.now))) }
{
    put_text(out, command_word(command))?;
    put_parts(out, tables, script, parts)?;
    out.push(b'\n')?;
    Ok(())
}

/// Adds the line of a script to a text, with the names of the script. Only want of memory is an error.
pub fn put_line(
    out: &mut Vec<u8>,
    tables: &NameTables,
    script: &Script,
    line: Line,
) -> Result<(), AllocError>
    ensures { OnOk result (Adds out.old.items out.new.items (line_text (line_words (known_of script.now) line))) }
{
    match line {
        Line::Call(call) => {
            let split = split_statement(call);
            put_words(out, tables, script, Command::Call(split.name), &split.parts)
        }
        _ => put_words(out, tables, script, line_command(line), &line_parts(line)),
    }
}
