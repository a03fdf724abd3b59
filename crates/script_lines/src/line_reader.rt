//! Lines from their words.

ghost use Rattle.std.specs.Prelude.{◌≡◌, ◌≤◌, length, OnOk, IfOk, IfSome, map, option_map};
ghost use Rattle.std.specs.List.{AllByRecursion};
ghost use Rattle.script_lines.specs.LineLimits.{IsPart, IsLine};
ghost use Rattle.script_lines.specs.LineReading.{word_at, split_at, texts_of, part_at, parts_from, line_at};
ghost use Rattle.script_lines.specs.NameLimits.{AreKnown};

use crate::line::Line;
use crate::line_form::line_of_parts;
use crate::names::Names;
use crate::operands::{NameTables, operand_at};
use crate::rows::{command_at, command_places};
use crate::words::{comparison_at, letter_at, operator_at};
use arrayvec::ArrayVec;
use statement_table::{Part, Parts, Place};
use std::alloc::{AllocError, Global};

/// A line, or None where the words aren't one.
pub type FoundLine = Result<Option<Line>, AllocError>;

/// The parts of a text between the places of a byte.
pub fn split_at<'a>(alloc: Global, text: &'a [u8], byte: u8) -> Result<Vec<&'a [u8]>, AllocError>
    ensures { IfOk result (λ v. map (λ w. w.now) v.items ≡ split_at byte text.now) }
{
    text.split(|b| *b == byte).collect(alloc)
}

/// Puts the words of a line in place of those that were there, in the same room.
pub fn words_into<'a>(words: &mut Vec<&'a [u8]>, text: &'a [u8]) -> Result<(), AllocError>
    ensures { OnOk result (map (λ w. w.now) words.new.items ≡ split_at 32 text.now) }
{
    words.clear();
    words.extend(text.split(|b| *b == b' '))
}

/// The word at a place, empty where there is none.
pub fn word_at<'a>(words: &[&'a [u8]], place: usize) -> &'a [u8]
    ensures { result.now ≡ word_at (map (λ w. w.now) words.now) place }
{
    match words.get(place) {
        Some(word) => word,
        None => b"",
    }
}

/// The lines of a text, without what stands behind the last line feed.
#[tactic(auto, unfolding(crate::specs::LineReading::texts_of))]
pub fn texts_of<'a>(alloc: Global, bytes: &'a [u8]) -> Result<Vec<&'a [u8]>, AllocError>
    ensures { IfOk result (λ v. map (λ w. w.now) v.items ≡ texts_of bytes.now) }
{
    let mut texts = split_at(alloc, bytes, b'\n')?;
    texts.pop();
    Ok(texts)
}

/// The part that a word is in a place. A name that isn't there yet goes to the end of its list.
fn part_at(
    alloc: Global,
    tables: &NameTables,
    known: &mut Names,
    place: Place,
    word: &[u8],
) -> Result<Option<Part>, AllocError>
    requires { AreKnown known.old }
    ensures found { IfOk result (λ found. option_map (λ p. (p, known.new)) found ≡ part_at known.old place word.now) }
    ensures kept { AreKnown known.new }
    ensures fits { IfOk result (λ found. IfSome found IsPart) }
{
    let part = match place {
        Place::Letter => letter_at(word).map(Part::Letter),
        Place::Operand => operand_at(tables, word).map(Part::Operand),
        Place::Operator => operator_at(word).map(Part::Operator),
        Place::Comparison => comparison_at(word).map(Part::Comparison),
        Place::Name => known.name_at(alloc, word)?.map(Part::Name),
        Place::Beginning => known.begun_at(alloc, word)?.map(Part::Beginning),
        Place::Procedure => known.procedure_at(word).map(Part::Procedure),
    };
    Ok(part)
}

/// The parts that the words after the first are in these places.
fn parts_at(
    alloc: Global,
    tables: &NameTables,
    known: &mut Names,
    places: &[Place],
    words: &[&[u8]],
) -> Result<Option<Parts>, AllocError>
    requires known { AreKnown known.old }
    requires few { length places.now ≤ 9 }
    ensures found { IfOk result (λ found. option_map (λ ps. (ps.items, known.new)) found ≡ parts_from known.old places.now (map (λ w. w.now) words.now) 1) }
    ensures kept { AreKnown known.new }
    ensures fits { IfOk result (λ found. IfSome found (λ ps. AllByRecursion IsPart ps.items)) }
{
    let mut parts = ArrayVec::new();
    for (index, place) in places.iter().enumerate() {
        let word = word_at(words, index + 1);
        let Some(part) = part_at(alloc, tables, known, *place, word)? else {
            return Ok(None);
        };
        parts.push(part);
    }
    Ok(Some(parts))
}

/// The line with these words: its row is found by the first, and the others are its parts. None comes where
/// they are no line, name a procedure whose `proc` line doesn't stand above, begin one a second time, or have a
/// name too many.
#[tactic(auto, unfolding(crate::specs::LineReading::line_at))]
pub fn line_at(alloc: Global, tables: &NameTables, known: &mut Names, words: &[&[u8]]) -> FoundLine
    requires { AreKnown known.old }
    ensures found { IfOk result (λ found. option_map (λ l. (l, known.new)) found ≡ line_at known.old (map (λ w. w.now) words.now)) }
    ensures kept { AreKnown known.new }
    ensures fits { IfOk result (λ found. IfSome found IsLine) }
{
    let Some(command) = command_at(word_at(words, 0), words.len()) else {
        return Ok(None);
    };
    let places = command_places(command);
    let Some(parts) = parts_at(alloc, tables, known, &places, words)? else {
        return Ok(None);
    };
    Ok(line_of_parts(command, &parts))
}
