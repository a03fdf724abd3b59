//! One row for each statement that makes one call: which call, and its parts in their places. One row for each compound
//! statement whose words are operands alone: its word and its parts.
//!
//! A statement is the name of its call and its parts (`split_statement`), and is made of them again
//! (`statement_of_parts`). What reads or writes statements is a loop over parts. Each group of calls has
//! its statements in a file of its own.
#![tactic(auto)]

mod clock;
mod compounds;
mod delivery;
mod drawing;
mod input;
mod lookups;
mod part;
mod parts;
mod places;
mod registrations;
mod replies;
mod sends;
mod split;
mod statements;

pub use compounds::{
    CompoundName, compound_name, compound_of_parts, compound_parts, compound_places, compound_word,
};
pub use part::{Part, Parts, Place, Places};
pub use parts::{
    beginning_in, comparison_in, letter_in, name_in, operand_in, operator_in, parts_of,
    procedure_in,
};
pub use places::{field_places, statement_places};
pub use split::SplitStatement;
pub use statements::{split_statement, statement_name, statement_of_parts, statement_parts};
