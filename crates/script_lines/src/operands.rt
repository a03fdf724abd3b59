//! Operands from their words.

ghost use Rattle.std.specs.Prelude.{◌≡◌, IfSome};
ghost use Rattle.name_table.specs.Rows.{number_in};
ghost use Rattle.name_table.specs.Messages.{message_rows};
ghost use Rattle.name_table.specs.Constants.{constant_rows};
ghost use Rattle.script_lines.specs.LineLimits.{IsOperand};
ghost use Rattle.script_lines.specs.LineReading.{number_at, minus_at, constant_operand, variable_at, variable_operand, named_at, operand_at};

use crate::words::variable_at;
use name_table::{NameTable, constants, messages};
use script_tree::Operand;

/// The names of messages and of constants.
#[derive(Drop)]
pub struct NameTables {
    pub messages: NameTable,
    pub constants: NameTable,
    ghost all_messages: { messages ≡ message_rows },
    ghost all_constants: { constants ≡ constant_rows },
}

impl NameTables {
    /// Both tables.
    pub fn new() -> NameTables
        ensures { (result.messages ≡ message_rows) × (result.constants ≡ constant_rows) }
    {
        NameTables {
            messages: messages(),
            constants: constants(),
        }
    }
}

/// The value of the digits at the front; it stands still at 2^64 - 1.
#[tactic(auto, unfolding(crate::specs::LineReading::number_at))]
pub fn number_at(word: &[u8]) -> u64
    ensures { result ≡ number_at word.now }
{
    let mut value = 0u64;
    for digit in word {
        if !digit.is_ascii_digit() {
            break;
        }
        value = value
            .saturating_mul(10)
            .saturating_add((*digit - b'0') as u64);
    }
    value
}

/// A number below 0, from its digits.
#[tactic(auto, unfolding(crate::specs::LineReading::minus_at))]
fn minus_at(digits: &[u8]) -> Option<Operand>
    ensures found { result ≡ minus_at digits.now }
    ensures fits { IfSome result IsOperand }
{
    let number = number_at(digits);
    if 1 <= number && number <= 9223372036854775808 {
        Some(Operand::Minus(number))
    } else {
        None
    }
}

/// A variable.
fn variable_operand(word: &[u8]) -> Option<Operand>
    ensures found { result ≡ variable_operand (variable_at word.now) }
    ensures fits { IfSome result IsOperand }
{
    match variable_at(word) {
        Some(variable) => Some(Operand::Variable(variable)),
        None => None,
    }
}

/// A constant or a variable.
fn constant_operand(tables: &NameTables, word: &[u8]) -> Option<Operand>
    ensures found { result ≡ constant_operand (number_in constant_rows word.now) (variable_at word.now) }
    ensures fits { IfSome result IsOperand }
{
    match tables.constants.number_of(word) {
        Some(ordinal) => Some(Operand::Constant(ordinal)),
        None => variable_operand(word),
    }
}

/// A message, a constant or a variable.
#[tactic(auto, unfolding(crate::specs::LineReading::named_at))]
fn named_at(tables: &NameTables, word: &[u8]) -> Option<Operand>
    ensures found { result ≡ named_at word.now }
    ensures fits { IfSome result IsOperand }
{
    match tables.messages.number_of(word) {
        Some(number) => Some(Operand::Message(number)),
        None => constant_operand(tables, word),
    }
}

/// The operand with this word. None comes where a name isn't known or a number is out of range.
#[tactic(auto, unfolding(crate::specs::LineReading::operand_at))]
pub fn operand_at(tables: &NameTables, word: &[u8]) -> Option<Operand>
    ensures found { result ≡ operand_at word.now }
    ensures fits { IfSome result IsOperand }
{
    let [first, digits @ ..] = word else {
        return None;
    };
    if *first == b'-' {
        return minus_at(digits);
    }
    if first.is_ascii_digit() {
        return Some(Operand::Number(number_at(word)));
    }
    named_at(tables, word)
}
