//! The word of a line that is wrong.

use itoa::Buffer;
use script_lines::{
    NameTables, Names, all_are_told, all_have_form, is_decimal, number_at, word_at,
};
use statement_table::Place;
use std::alloc::Global;

/// A word, and the place where it stands.
#[derive(Clone, Copy)]
pub struct Stood<'a> {
    pub place: Place,
    pub word: &'a [u8],
}

/// The first word of a line that hasn't the form of what stands in its place.
pub fn first_formless<'a>(places: &[Place], words: &[&'a [u8]]) -> Option<Stood<'a>> {
    for (index, place) in places.iter().enumerate() {
        let word = word_at(words, index + 1);
        if !all_have_form(&[*place], &[b"", word]) {
            return Some(Stood {
                place: *place,
                word,
            });
        }
    }
    None
}

/// The first upper-case name of a line that no message and no constant has.
fn first_unknown<'a>(alloc: Global, places: &[Place], words: &[&'a [u8]]) -> Option<Stood<'a>> {
    let tables = NameTables::new();
    let none = Names::new(alloc);
    for (index, place) in places.iter().enumerate() {
        let word = word_at(words, index + 1);
        if matches!(place, Place::Operand)
            && !all_are_told(&tables, &none, &[*place], &[b"", word])
        {
            return Some(Stood {
                place: *place,
                word,
            });
        }
    }
    None
}

/// The word of a line that names a procedure.
fn procedure_named<'a>(places: &[Place], words: &[&'a [u8]]) -> Option<Stood<'a>> {
    for (index, place) in places.iter().enumerate() {
        if matches!(place, Place::Procedure) {
            return Some(Stood {
                place: *place,
                word: word_at(words, index + 1),
            });
        }
    }
    None
}

/// The first word of a line that names what isn't known: a message or a constant, else the procedure.
pub fn first_untold<'a>(alloc: Global, places: &[Place], words: &[&'a [u8]]) -> Option<Stood<'a>> {
    match first_unknown(alloc, places, words) {
        Some(stood) => Some(stood),
        None => procedure_named(places, words),
    }
}

/// Whether digits are a number from this one to that.
fn is_within(digits: &[u8], least: u64, most: u64) -> bool {
    let number = number_at(digits);
    let mut buffer = Buffer::new();
    let is_exact = buffer.format(number).as_bytes() == digits;
    is_exact && least <= number && number <= most
}

/// Whether a word is a number that no operand may be.
fn is_beyond(word: &[u8]) -> bool {
    match word {
        [b'-', digits @ ..] => {
            is_decimal(digits) && !is_within(digits, 1, 9_223_372_036_854_775_808)
        }
        _ => is_decimal(word) && !is_within(word, 0, u64::MAX),
    }
}

/// The first number of a line that no operand may be.
pub fn first_beyond<'a>(places: &[Place], words: &[&'a [u8]]) -> Option<Stood<'a>> {
    for (index, place) in places.iter().enumerate() {
        let word = word_at(words, index + 1);
        if matches!(place, Place::Operand) && is_beyond(word) {
            return Some(Stood {
                place: *place,
                word,
            });
        }
    }
    None
}
