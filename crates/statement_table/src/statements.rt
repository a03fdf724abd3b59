//! The statements that make one call: each group has its rows in a file of its own.

ghost use Rattle.std.specs.Prelude.{◌≡◌, map, option_map, Some};
ghost use Rattle.script_tree.specs.declared.statement.CallStatement.{CallStatement};
ghost use Rattle.statement_table.specs.Parts.{place_of_part};
ghost use Rattle.statement_table.specs.Places.{statement_places};
ghost use Rattle.statement_table.specs.Splits.{read_split};
ghost use Rattle.statement_table.specs.Statements.{found_split, statement_name, statement_parts, made_statement};

use crate::clock::{made_clock, split_clock};
use crate::delivery::{made_delivery, split_delivery};
use crate::drawing::{made_drawing, split_drawing};
use crate::input::{made_input, split_input};
use crate::lookups::{made_lookup, split_lookup};
use crate::part::{Part, Parts};
use crate::registrations::{made_registration, split_registration};
use crate::replies::{made_reply, split_reply};
use crate::sends::{made_send, split_send};
use crate::split::SplitStatement;
use call_table::CallName;
use script_tree::CallStatement;

/// A statement taken apart by the first group that has it. The groups after it are not asked.
fn found_split(call: CallStatement) -> Option<SplitStatement>
    ensures { option_map read_split result ≡ found_split call }
{
    if let Some(split) = split_delivery(call) {
        return Some(split);
    }
    if let Some(split) = split_send(call) {
        return Some(split);
    }
    if let Some(split) = split_reply(call) {
        return Some(split);
    }
    if let Some(split) = split_registration(call) {
        return Some(split);
    }
    if let Some(split) = split_lookup(call) {
        return Some(split);
    }
    if let Some(split) = split_input(call) {
        return Some(split);
    }
    if let Some(split) = split_drawing(call) {
        return Some(split);
    }
    split_clock(call)
}

/// A statement taken apart: the call that it makes, and its parts in their places.
pub fn split_statement(call: CallStatement) -> SplitStatement
    ensures name { result.name ≡ statement_name call }
    ensures value { result.parts.items ≡ statement_parts call }
    ensures fit { map place_of_part result.parts.items ≡ statement_places result.name }
{
    match found_split(call) {
        Some(split) => split,
        None => unreachable!(),
    }
}

/// The call that a statement makes.
pub fn statement_name(call: CallStatement) -> CallName
    ensures { result ≡ statement_name call }
{
    split_statement(call).name
}

/// The parts of a statement in their places.
pub fn statement_parts(call: CallStatement) -> Parts
    ensures { result.items ≡ statement_parts call }
{
    split_statement(call).parts
}

/// The statement that makes this call, of the parts in their places.
fn made_statement(name: CallName, parts: &[Part]) -> Option<CallStatement>
    ensures { result ≡ made_statement name parts.now }
{
    match name {
        CallName::Delivery(name) => made_delivery(name, parts),
        CallName::Send(name) => made_send(name, parts),
        CallName::Reply(name) => made_reply(name, parts),
        CallName::Registration(name) => made_registration(name, parts),
        CallName::Window(_) => None,
        CallName::Lookup(name) => made_lookup(name, parts),
        CallName::Input(name) => made_input(name, parts),
        CallName::Drawing(name) => made_drawing(name, parts),
        CallName::Clock(name) => made_clock(name, parts),
    }
}

/// The statement that makes this call, of the parts in their places. None comes exactly where no statement
/// makes it. A statement is made of its own call and parts again.
pub fn statement_of_parts(name: CallName, parts: &[Part]) -> Option<CallStatement>
    ensures value { result ≡ made_statement name parts.now }
    ensures back { (c : CallStatement) → statement_name c ≡ name → statement_parts c ≡ parts.now → result ≡ Some c }
{
    made_statement(name, parts)
}
