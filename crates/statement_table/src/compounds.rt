//! Compound statements whose words are operands alone, one row each.

ghost use Rattle.std.specs.Prelude.{◌≡◌, ◌≤◌, length};
ghost use Rattle.script_tree.specs.declared.statement.CompoundStatement.{CompoundStatement};
ghost use Rattle.statement_table.specs.Compounds.{compound_word as word_of, compound_places as places_of_compound, compound_name as name_of, compound_parts as parts_of_compound, made_compound as made_of};

use crate::part::{Part, Parts, Place, Places};
use crate::parts::{operand_in, operand_parts, operands_in};
use arrayvec::ArrayVec;
use script_tree::CompoundStatement;

/// Which compound statement it is.
#[derive(Clone, Copy, Debug, PartialEq, Eq)]
pub enum CompoundName {
    ShowWindow,
    EnableWindow,
    SetWindowPos,
    SetFocus,
    SetActive,
    SetCapture,
    ReleaseCapture,
    BeginPaint,
    UpdateWindow,
    PostAll,
    NotifyAll,
    Pump,
    Dialog,
}

/// Its word.
pub fn compound_word(name: CompoundName) -> &'static [u8]
    ensures { result.now ≡ word_of name }
{
    match name {
        CompoundName::ShowWindow => b"show_window",
        CompoundName::EnableWindow => b"enable_window",
        CompoundName::SetWindowPos => b"set_window_pos",
        CompoundName::SetFocus => b"set_focus",
        CompoundName::SetActive => b"set_active",
        CompoundName::SetCapture => b"set_capture",
        CompoundName::ReleaseCapture => b"release_capture",
        CompoundName::BeginPaint => b"begin_paint",
        CompoundName::UpdateWindow => b"update_window",
        CompoundName::PostAll => b"post_all",
        CompoundName::NotifyAll => b"notify_all",
        CompoundName::Pump => b"pump",
        CompoundName::Dialog => b"dialog",
    }
}

/// These places.
fn places_of(list: &[Place]) -> Places
    requires { length list.now ≤ 9 }
    ensures { result.items ≡ list.now }
{
    let mut places = ArrayVec::new();
    let _ = places.try_extend_from_slice(list);
    places
}

/// The places of the words behind it.
pub fn compound_places(name: CompoundName) -> Places
    ensures { result.items ≡ places_of_compound name }
{
    match name {
        CompoundName::ShowWindow => places_of(&[Place::Operand, Place::Operand]),
        CompoundName::EnableWindow => places_of(&[Place::Operand, Place::Operand]),
        CompoundName::SetWindowPos => places_of(&[
            Place::Operand,
            Place::Operand,
            Place::Operand,
            Place::Operand,
            Place::Operand,
            Place::Operand,
            Place::Operand,
        ]),
        CompoundName::SetFocus => places_of(&[Place::Operand]),
        CompoundName::SetActive => places_of(&[Place::Operand]),
        CompoundName::SetCapture => places_of(&[Place::Operand]),
        CompoundName::ReleaseCapture => places_of(&[]),
        CompoundName::BeginPaint => places_of(&[Place::Operand]),
        CompoundName::UpdateWindow => places_of(&[Place::Operand]),
        CompoundName::PostAll => places_of(&[Place::Operand, Place::Operand, Place::Operand]),
        CompoundName::NotifyAll => places_of(&[Place::Operand, Place::Operand, Place::Operand]),
        CompoundName::Pump => places_of(&[]),
        CompoundName::Dialog => places_of(&[Place::Operand]),
    }
}

/// Which compound statement this is.
pub fn compound_name(statement: CompoundStatement) -> CompoundName
    ensures { result ≡ name_of statement }
{
    match statement {
        CompoundStatement::ShowWindow(_, _) => CompoundName::ShowWindow,
        CompoundStatement::EnableWindow(_, _) => CompoundName::EnableWindow,
        CompoundStatement::SetWindowPos(_, _, _, _, _, _, _) => CompoundName::SetWindowPos,
        CompoundStatement::SetFocus(_) => CompoundName::SetFocus,
        CompoundStatement::SetActive(_) => CompoundName::SetActive,
        CompoundStatement::SetCapture(_) => CompoundName::SetCapture,
        CompoundStatement::ReleaseCapture => CompoundName::ReleaseCapture,
        CompoundStatement::BeginPaint(_) => CompoundName::BeginPaint,
        CompoundStatement::UpdateWindow(_) => CompoundName::UpdateWindow,
        CompoundStatement::PostAll(_, _, _) => CompoundName::PostAll,
        CompoundStatement::NotifyAll(_, _, _) => CompoundName::NotifyAll,
        CompoundStatement::Pump => CompoundName::Pump,
        CompoundStatement::Dialog(_) => CompoundName::Dialog,
    }
}

/// Its parts in their places.
pub fn compound_parts(statement: CompoundStatement) -> Parts
    ensures { result.items ≡ parts_of_compound statement }
{
    match statement {
        CompoundStatement::ShowWindow(window, on) => operand_parts(&[window, on]),
        CompoundStatement::EnableWindow(window, on) => operand_parts(&[window, on]),
        CompoundStatement::SetWindowPos(window, after, left, top, right, bottom, flags) => {
            operand_parts(&[window, after, left, top, right, bottom, flags])
        }
        CompoundStatement::SetFocus(window) => operand_parts(&[window]),
        CompoundStatement::SetActive(window) => operand_parts(&[window]),
        CompoundStatement::SetCapture(window) => operand_parts(&[window]),
        CompoundStatement::ReleaseCapture => operand_parts(&[]),
        CompoundStatement::BeginPaint(window) => operand_parts(&[window]),
        CompoundStatement::UpdateWindow(window) => operand_parts(&[window]),
        CompoundStatement::PostAll(number, wparam, lparam) => {
            operand_parts(&[number, wparam, lparam])
        }
        CompoundStatement::NotifyAll(number, wparam, lparam) => {
            operand_parts(&[number, wparam, lparam])
        }
        CompoundStatement::Pump => operand_parts(&[]),
        CompoundStatement::Dialog(window) => operand_parts(&[window]),
    }
}

/// The compound statement of this name, of the parts in their places. A statement is made of its own name and parts
/// again.
pub fn compound_of_parts(name: CompoundName, parts: &[Part]) -> CompoundStatement
    ensures value { result ≡ made_of name parts.now }
    ensures back { (c : CompoundStatement) → name_of c ≡ name → parts_of_compound c ≡ parts.now → result ≡ c }
{
    made_compound(name, parts)
}

/// The same.
fn made_compound(name: CompoundName, parts: &[Part]) -> CompoundStatement
    ensures { result ≡ made_of name parts.now }
{
    let [a, b, c, d, e, f] = operands_in(parts);
    match name {
        CompoundName::ShowWindow => CompoundStatement::ShowWindow(a, b),
        CompoundName::EnableWindow => CompoundStatement::EnableWindow(a, b),
        CompoundName::SetWindowPos => {
            CompoundStatement::SetWindowPos(a, b, c, d, e, f, operand_in(parts, 6))
        }
        CompoundName::SetFocus => CompoundStatement::SetFocus(a),
        CompoundName::SetActive => CompoundStatement::SetActive(a),
        CompoundName::SetCapture => CompoundStatement::SetCapture(a),
        CompoundName::ReleaseCapture => CompoundStatement::ReleaseCapture,
        CompoundName::BeginPaint => CompoundStatement::BeginPaint(a),
        CompoundName::UpdateWindow => CompoundStatement::UpdateWindow(a),
        CompoundName::PostAll => CompoundStatement::PostAll(a, b, c),
        CompoundName::NotifyAll => CompoundStatement::NotifyAll(a, b, c),
        CompoundName::Pump => CompoundStatement::Pump,
        CompoundName::Dialog => CompoundStatement::Dialog(a),
    }
}
