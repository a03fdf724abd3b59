//! The parts of a line by their places, from 0.

ghost use Rattle.std.specs.Prelude.{◌≡◌, ◌≤◌, [], ◌∷◌, length, map};
ghost use Rattle.statement_table.specs.declared.part.Part.TheVariants as parts;
ghost use Rattle.statement_table.specs.Parts.{letter_in, operand_in, operator_in, comparison_in, name_in, beginning_in, procedure_in};

use crate::part::{Part, Parts};
use arrayvec::ArrayVec;
use script_tree::{Comparison, Letter, Operand, Operator};

/// These parts.
pub fn parts_of(list: &[Part]) -> Parts
    requires { length list.now ≤ 9 }
    ensures { result.items ≡ list.now }
{
    let mut parts = ArrayVec::new();
    let _ = parts.try_extend_from_slice(list);
    parts
}

/// The letter at a place; where there is none, one that says nothing.
pub fn letter_in(parts: &[Part], place: usize) -> Letter
    ensures { result ≡ letter_in parts.now place }
{
    match parts.get(place) {
        Some(Part::Letter(part)) => *part,
        _ => Letter::A,
    }
}

/// The operand at a place; where there is none, one that says nothing.
pub fn operand_in(parts: &[Part], place: usize) -> Operand
    ensures { result ≡ operand_in parts.now place }
{
    match parts.get(place) {
        Some(Part::Operand(part)) => *part,
        _ => Operand::Number(0),
    }
}

/// The operator at a place; where there is none, one that says nothing.
pub fn operator_in(parts: &[Part], place: usize) -> Operator
    ensures { result ≡ operator_in parts.now place }
{
    match parts.get(place) {
        Some(Part::Operator(part)) => *part,
        _ => Operator::Plus,
    }
}

/// The comparison at a place; where there is none, one that says nothing.
pub fn comparison_in(parts: &[Part], place: usize) -> Comparison
    ensures { result ≡ comparison_in parts.now place }
{
    match parts.get(place) {
        Some(Part::Comparison(part)) => *part,
        _ => Comparison::Equal,
    }
}

/// The name at a place; where there is none, one that says nothing.
pub fn name_in(parts: &[Part], place: usize) -> u32
    ensures { result ≡ name_in parts.now place }
{
    match parts.get(place) {
        Some(Part::Name(part)) => *part,
        _ => 0,
    }
}

/// The procedure that begins at a place; where there is none, one that says nothing.
pub fn beginning_in(parts: &[Part], place: usize) -> u32
    ensures { result ≡ beginning_in parts.now place }
{
    match parts.get(place) {
        Some(Part::Beginning(part)) => *part,
        _ => 0,
    }
}

/// The procedure that has begun at a place; where there is none, one that says nothing.
pub fn procedure_in(parts: &[Part], place: usize) -> u32
    ensures { result ≡ procedure_in parts.now place }
{
    match parts.get(place) {
        Some(Part::Procedure(part)) => *part,
        _ => 0,
    }
}

/// These operands as parts.
pub fn operand_parts(operands: &[Operand]) -> Parts
    requires { length operands.now ≤ 9 }
    ensures { result.items ≡ map (λ a. parts.Operand a) operands.now }
{
    let mut parts = ArrayVec::new();
    for operand in operands {
        parts.push(Part::Operand(*operand));
    }
    parts
}

/// The operands at the first six places.
pub fn operands_in(parts: &[Part]) -> [Operand; 6]
    ensures { result ≡ operand_in parts.now 0 ∷ operand_in parts.now 1 ∷ operand_in parts.now 2 ∷ operand_in parts.now 3 ∷ operand_in parts.now 4 ∷ operand_in parts.now 5 ∷ [] }
{
    [
        operand_in(parts, 0),
        operand_in(parts, 1),
        operand_in(parts, 2),
        operand_in(parts, 3),
        operand_in(parts, 4),
        operand_in(parts, 5),
    ]
}
