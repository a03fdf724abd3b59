//! The forms of words, for telling what is wrong with a line.

ghost use Rattle.std.specs.Prelude.{◌≡◌, ◌≤◌, length, map};
ghost use Rattle.std.specs.Char.{is_ascii_digit};
ghost use Rattle.std.specs.List.{list_all, list_any};
ghost use Rattle.script_lines.specs.Forms.{is_decimal, is_number, is_upper_letter, is_upper_byte, is_upper_name, is_printable_byte, is_printable, is_empty_word, has_form, is_told, is_new, all_pass};
ghost use Rattle.script_lines.specs.NameLimits.{AreKnown};

use crate::line_reader::word_at;
use crate::names::{Names, is_name};
use crate::operands::{NameTables, operand_at};
use crate::words::{comparison_at, letter_at, operator_at, variable_at};
use statement_table::Place;

/// Whether all bytes are digits.
fn all_digits(bytes: &[u8]) -> bool
    ensures { result ≡ list_all is_ascii_digit bytes.now }
{
    for byte in bytes {
        if !byte.is_ascii_digit() {
            return false;
        }
    }
    true
}

/// Whether a word is a decimal number without leading zeros, of any size.
pub fn is_decimal(word: &[u8]) -> bool
    ensures { result ≡ is_decimal word.now }
{
    let [first, rest @ ..] = word else {
        return false;
    };
    first.is_ascii_digit() && all_digits(rest) && (*first != b'0' || rest.is_empty())
}

/// Whether a word is such a number, or `-` and such a number.
fn is_number(word: &[u8]) -> bool
    ensures { result ≡ is_number word.now }
{
    let [first, rest @ ..] = word else {
        return false;
    };
    if *first == b'-' {
        is_decimal(rest)
    } else {
        is_decimal(word)
    }
}

/// Whether a byte is an upper-case letter.
fn is_upper_letter(byte: u8) -> bool
    ensures { result ≡ is_upper_letter byte }
{
    65 <= byte && byte <= 90
}

/// Whether a byte is an upper-case letter, a digit or `_`.
fn is_upper_byte(byte: u8) -> bool
    ensures { result ≡ is_upper_byte byte }
{
    is_upper_letter(byte) || (48 <= byte && byte <= 57) || byte == 95
}

/// Whether all bytes are such.
fn all_upper_bytes(bytes: &[u8]) -> bool
    ensures { result ≡ list_all is_upper_byte bytes.now }
{
    for byte in bytes {
        if !is_upper_byte(*byte) {
            return false;
        }
    }
    true
}

/// Whether a word may be the name of a message or a constant: an upper-case letter, and such bytes.
fn is_upper_name(word: &[u8]) -> bool
    ensures { result ≡ is_upper_name word.now }
{
    let [first, rest @ ..] = word else {
        return false;
    };
    is_upper_letter(*first) && all_upper_bytes(rest)
}

/// Whether all bytes of a line are printable: 0x20 to 0x7E.
pub fn is_printable(text: &[u8]) -> bool
    ensures { result ≡ is_printable text.now }
{
    for byte in text {
        if *byte < 32 || *byte > 126 {
            return false;
        }
    }
    true
}

/// Whether one of the words is empty: a line has a blank too many, or no word.
pub fn has_empty_word(words: &[&[u8]]) -> bool
    ensures { result ≡ list_any is_empty_word (map (λ w. w.now) words.now) }
{
    for word in words {
        if word.is_empty() {
            return true;
        }
    }
    false
}

/// Whether a word has the form of what stands in a place. A number has it whatever its size, and an
/// upper-case name whether it is known or not.
fn has_form(place: Place, word: &[u8]) -> bool
    ensures { result ≡ has_form place word.now }
{
    match place {
        Place::Letter => letter_at(word).is_some(),
        Place::Operand => is_number(word) || is_upper_name(word) || variable_at(word).is_some(),
        Place::Operator => operator_at(word).is_some(),
        Place::Comparison => comparison_at(word).is_some(),
        Place::Name => is_name(word),
        Place::Beginning => is_name(word),
        Place::Procedure => is_name(word),
    }
}

/// Whether a word names nothing unknown: an upper-case name is that of a message or a constant, and a
/// procedure has begun.
fn is_told(tables: &NameTables, known: &Names, place: Place, word: &[u8]) -> bool
    requires { AreKnown known.now }
    ensures { result ≡ is_told known.now place word.now }
{
    match place {
        Place::Operand => !is_upper_name(word) || operand_at(tables, word).is_some(),
        Place::Procedure => known.procedure_at(word).is_some(),
        _ => true,
    }
}

/// Whether a word is no procedure's name that begins a second time.
fn is_new(known: &Names, place: Place, word: &[u8]) -> bool
    requires { AreKnown known.now }
    ensures { result ≡ is_new known.now place word.now }
{
    match place {
        Place::Beginning => known.procedure_at(word).is_none(),
        _ => true,
    }
}

/// Whether all words after the first have their forms.
pub fn all_have_form(places: &[Place], words: &[&[u8]]) -> bool
    requires { length places.now ≤ 9 }
    ensures { result ≡ all_pass has_form places.now (map (λ w. w.now) words.now) 1 }
{
    for (index, place) in places.iter().enumerate() {
        if !has_form(*place, word_at(words, index + 1)) {
            return false;
        }
    }
    true
}

/// Whether no word after the first names what is unknown.
pub fn all_are_told(tables: &NameTables, known: &Names, places: &[Place], words: &[&[u8]]) -> bool
    requires known { AreKnown known.now }
    requires few { length places.now ≤ 9 }
    ensures { result ≡ all_pass (is_told known.now) places.now (map (λ w. w.now) words.now) 1 }
{
    for (index, place) in places.iter().enumerate() {
        if !is_told(tables, known, *place, word_at(words, index + 1)) {
            return false;
        }
    }
    true
}

/// Whether no word after the first is a procedure's name that begins a second time.
pub fn all_are_new(known: &Names, places: &[Place], words: &[&[u8]]) -> bool
    requires known { AreKnown known.now }
    requires few { length places.now ≤ 9 }
    ensures { result ≡ all_pass (is_new known.now) places.now (map (λ w. w.now) words.now) 1 }
{
    for (index, place) in places.iter().enumerate() {
        if !is_new(known, *place, word_at(words, index + 1)) {
            return false;
        }
    }
    true
}
