//! A line taken apart into its command and its parts, and put together again.

ghost use Rattle.std.specs.Prelude.{◌≡◌, IfSome, Some};
ghost use Rattle.std.specs.List.{AllByRecursion};
ghost use Rattle.script_lines.specs.declared.line.Line.{Line};
ghost use Rattle.script_lines.specs.LineLimits.{IsPart, IsLine};
ghost use Rattle.script_lines.specs.LineParts.{test_parts, creation_parts, line_command, line_parts, made_test, made_creation, made_line};

use crate::line::{Command, Line};
use script_tree::{Creation, Test};
use statement_table::{
    Part, Parts, beginning_in, comparison_in, compound_name, compound_of_parts, compound_parts,
    letter_in, name_in, operand_in, operator_in, parts_of, statement_name, statement_of_parts,
    statement_parts,
};

/// Which line it is.
pub fn line_command(line: Line) -> Command
    ensures { result ≡ line_command line }
{
    match line {
        Line::Procedure(_) => Command::Procedure,
        Line::Thread => Command::Thread,
        Line::Let(_, _) => Command::Let,
        Line::Compute(_, _, _, _) => Command::Compute,
        Line::If(_) => Command::If,
        Line::Else => Command::Else,
        Line::While(_) => Command::While,
        Line::End => Command::End,
        Line::Return(_) => Command::Return,
        Line::Call(call) => Command::Call(statement_name(call)),
        Line::Sleep(_) => Command::Sleep,
        Line::Create(_) => Command::Create,
        Line::Destroy(_) => Command::Destroy,
        Line::Compound(compound) => Command::Compound(compound_name(compound)),
        Line::Default => Command::Default,
    }
}

/// The parts of a test.
fn test_parts(test: Test) -> Parts
    ensures { result.items ≡ test_parts test }
{
    parts_of(&[
        Part::Operand(test.left),
        Part::Comparison(test.comparison),
        Part::Operand(test.right),
    ])
}

/// The parts of a window's creation.
fn creation_parts(creation: Creation) -> Parts
    ensures { result.items ≡ creation_parts creation }
{
    parts_of(&[
        Part::Name(creation.class),
        Part::Name(creation.title),
        Part::Operand(creation.parent),
        Part::Operand(creation.style),
        Part::Operand(creation.extended_style),
        Part::Operand(creation.left),
        Part::Operand(creation.top),
        Part::Operand(creation.right),
        Part::Operand(creation.bottom),
    ])
}

/// The parts of a line, one for each place after its first word.
pub fn line_parts(line: Line) -> Parts
    ensures { result.items ≡ line_parts line }
{
    match line {
        Line::Procedure(place) => parts_of(&[Part::Beginning(place)]),
        Line::Thread => parts_of(&[]),
        Line::Let(letter, value) => parts_of(&[Part::Letter(letter), Part::Operand(value)]),
        Line::Compute(letter, left, operator, right) => parts_of(&[
            Part::Letter(letter),
            Part::Operand(left),
            Part::Operator(operator),
            Part::Operand(right),
        ]),
        Line::If(test) => test_parts(test),
        Line::Else => parts_of(&[]),
        Line::While(test) => test_parts(test),
        Line::End => parts_of(&[]),
        Line::Return(value) => parts_of(&[Part::Operand(value)]),
        Line::Call(call) => statement_parts(call),
        Line::Sleep(wait) => parts_of(&[Part::Operand(wait)]),
        Line::Create(creation) => creation_parts(creation),
        Line::Destroy(window) => parts_of(&[Part::Operand(window)]),
        Line::Compound(compound) => compound_parts(compound),
        Line::Default => parts_of(&[]),
    }
}

/// The test of three parts.
fn made_test(parts: &[Part]) -> Test
    ensures { result ≡ made_test parts.now }
{
    Test {
        left: operand_in(parts, 0),
        comparison: comparison_in(parts, 1),
        right: operand_in(parts, 2),
    }
}

/// What a window is made of, of nine parts.
fn made_creation(parts: &[Part]) -> Creation
    ensures { result ≡ made_creation parts.now }
{
    Creation {
        class: name_in(parts, 0),
        title: name_in(parts, 1),
        parent: operand_in(parts, 2),
        style: operand_in(parts, 3),
        extended_style: operand_in(parts, 4),
        left: operand_in(parts, 5),
        top: operand_in(parts, 6),
        right: operand_in(parts, 7),
        bottom: operand_in(parts, 8),
    }
}

/// The line of these parts in its places.
fn made_line(command: Command, parts: &[Part]) -> Option<Line>
    ensures { result ≡ made_line command parts.now }
{
    let line = match command {
        Command::Procedure => Line::Procedure(beginning_in(parts, 0)),
        Command::Thread => Line::Thread,
        Command::Let => Line::Let(letter_in(parts, 0), operand_in(parts, 1)),
        Command::Compute => Line::Compute(
            letter_in(parts, 0),
            operand_in(parts, 1),
            operator_in(parts, 2),
            operand_in(parts, 3),
        ),
        Command::If => Line::If(made_test(parts)),
        Command::Else => Line::Else,
        Command::While => Line::While(made_test(parts)),
        Command::End => Line::End,
        Command::Return => Line::Return(operand_in(parts, 0)),
        Command::Call(name) => Line::Call(statement_of_parts(name, parts)?),
        Command::Sleep => Line::Sleep(operand_in(parts, 0)),
        Command::Create => Line::Create(made_creation(parts)),
        Command::Destroy => Line::Destroy(operand_in(parts, 0)),
        Command::Compound(name) => Line::Compound(compound_of_parts(name, parts)),
        Command::Default => Line::Default,
    };
    Some(line)
}

/// The line of these parts in its places. None comes exactly where it would be a statement of a call that no
/// statement makes.
pub fn line_of_parts(command: Command, parts: &[Part]) -> Option<Line>
    ensures value { result ≡ made_line command parts.now }
    ensures back { (l : Line) → line_command l ≡ command → line_parts l ≡ parts.now → result ≡ Some l }
    ensures fits { AllByRecursion IsPart parts.now → IfSome result IsLine }
{
    made_line(command, parts)
}
