//! What stands in the places of a line after its first word.

use arrayvec::ArrayVec;
use script_tree::{Comparison, Letter, Operand, Operator};

/// What stands in a place of a line after its first word.
#[derive(Clone, Copy)]
pub enum Place {
    Letter,
    Operand,
    Operator,
    Comparison,
    /// A class, a title or a message.
    Name,
    /// The name of a procedure that begins.
    Beginning,
    /// The name of a procedure that has begun.
    Procedure,
}

/// A word of a line after the first.
#[derive(Clone, Copy)]
pub enum Part {
    Letter(Letter),
    Operand(Operand),
    Operator(Operator),
    Comparison(Comparison),
    /// The place of a name in the list of names, from 0.
    Name(u32),
    /// The place of a procedure that begins in the list of procedures, from 0.
    Beginning(u32),
    /// The place of a procedure that has begun in the list of procedures, from 0.
    Procedure(u32),
}

impl Default for Place {
    fn default() -> Place {
        Place::Operand
    }
}

impl Default for Part {
    fn default() -> Part {
        Part::Operand(Operand::Number(0))
    }
}

/// The places of a line after its first word. They take no memory.
pub type Places = ArrayVec<Place, 9>;

/// The parts of a line, one for each place. They take no memory.
pub type Parts = ArrayVec<Part, 9>;
