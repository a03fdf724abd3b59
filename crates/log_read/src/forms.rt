//! The forms of a log's words, for telling what is wrong with a line.

ghost use Rattle.std.specs.Prelude.{◌≡◌, ◌≤◌, length, map};
ghost use Rattle.std.specs.Char.{is_ascii_digit};
ghost use Rattle.std.specs.List.{list_all};
ghost use Rattle.script_lines.specs.Forms.{is_upper_letter, is_upper_byte, is_upper_name};
ghost use Rattle.script_lines.specs.Known.{known_of};
ghost use Rattle.script_lines.specs.NameLimits.{AreKnown, is_name};
ghost use Rattle.log_read.specs.Reasons.{is_signed, has_name, is_message_word, is_code_word, has_form, is_told, fields_pass, are_digits, is_count, are_counts};

use crate::values::{cause_at, name_at, procedure_at, source_at};
use call_fields::Field;
use log_text::Words;
use script_lines::{all_have_form, is_decimal, number_at, word_at};
use statement_table::Place;

/// Whether a word is a decimal number, or `-` and such a number other than 0.
fn is_signed(word: &[u8]) -> bool
    ensures { result ≡ is_signed word.now }
{
    let [first, digits @ ..] = word else {
        return false;
    };
    if *first == b'-' {
        is_decimal(digits) && digits != b"0".as_slice()
    } else {
        is_decimal(word)
    }
}

/// Whether a byte is an upper-case letter.
fn is_upper_letter(byte: u8) -> bool
    ensures { result ≡ is_upper_letter byte }
{
    65 <= byte && byte <= 90
}

/// Whether a byte is an upper-case letter, a digit or `_`.
fn is_upper_byte(byte: u8) -> bool
    ensures { result ≡ is_upper_byte byte }
{
    is_upper_letter(byte) || (48 <= byte && byte <= 57) || byte == 95
}

/// Whether all bytes are such.
fn all_upper_bytes(bytes: &[u8]) -> bool
    ensures { result ≡ list_all is_upper_byte bytes.now }
{
    for byte in bytes {
        if !is_upper_byte(*byte) {
            return false;
        }
    }
    true
}

/// Whether a word has the form of a message's name: an upper-case letter, and such bytes.
fn is_upper_name(word: &[u8]) -> bool
    ensures { result ≡ is_upper_name word.now }
{
    let [first, rest @ ..] = word else {
        return false;
    };
    is_upper_letter(*first) && all_upper_bytes(rest)
}

/// Whether a message with this number has a name, by which it is written.
fn has_name(words: &Words, number: u64) -> bool
    ensures { result ≡ has_name number }
{
    number <= 65535 && words.messages.name_of(number as u32).is_some()
}

/// Whether a word is an upper-case name, known or not, or a number of a message that has no name.
fn is_message_word(words: &Words, word: &[u8]) -> bool
    ensures { result ≡ is_message_word word.now }
{
    is_upper_name(word) || (is_decimal(word) && !has_name(words, number_at(word)))
}

/// Whether a word is one of those for a refusal, or a number.
fn is_code_word(word: &[u8]) -> bool
    ensures { result ≡ is_code_word word.now }
{
    word == b"full".as_slice()
        || word == b"not_now".as_slice()
        || word == b"no_target".as_slice()
        || is_decimal(word)
}

/// Whether a word has the form of a name of the script's.
fn is_name(word: &[u8]) -> bool
    ensures { result ≡ is_name word.now }
{
    all_have_form(&[Place::Name], &[b"", word])
}

/// Whether a word has the form of what stands in such a field. A number has it whatever its size, and a name whether it
/// is known or not.
fn has_form(words: &Words, field: Field, word: &[u8]) -> bool
    ensures { result ≡ has_form field word.now }
{
    match field {
        Field::Message | Field::ShortMessage => is_message_word(words, word),
        Field::Signed | Field::Pixel => is_signed(word),
        Field::Name | Field::Procedure => is_name(word),
        Field::Source => source_at(word).is_some(),
        Field::Cause => cause_at(word).is_some(),
        Field::Code => is_code_word(word),
        Field::Number | Field::Window | Field::Send | Field::Thread | Field::Count | Field::Byte =>
            is_decimal(word),
    }
}

/// Whether a word names nothing unknown: an upper-case name is that of a message, another name is one of the script.
fn is_told(words: &Words, field: Field, word: &[u8]) -> bool
    requires named { AreKnown (known_of words.now.script.now) }
    ensures { result ≡ is_told words.now.script.now field word.now }
{
    match field {
        Field::Message | Field::ShortMessage => {
            !is_upper_name(word) || words.messages.number_of(word).is_some()
        }
        Field::Name => name_at(words.script, word).is_some(),
        Field::Procedure => procedure_at(words.script, word).is_some(),
        _ => true,
    }
}

/// Whether all words from a place on have the forms of these fields.
pub fn all_have_fields(words: &Words, fields: &[Field], line: &[&[u8]], at: usize) -> bool
    requires few { length fields.now ≤ 9 }
    requires near { at ≤ 65535 }
    ensures { result ≡ fields_pass has_form fields.now (map (λ w. w.now) line.now) at }
{
    for (index, field) in fields.iter().enumerate() {
        if !has_form(words, *field, word_at(line, at + index)) {
            return false;
        }
    }
    true
}

/// Whether no word from a place on names what is unknown.
pub fn all_are_told(words: &Words, fields: &[Field], line: &[&[u8]], at: usize) -> bool
    requires named { AreKnown (known_of words.now.script.now) }
    requires few { length fields.now ≤ 9 }
    requires near { at ≤ 65535 }
    ensures { result ≡ fields_pass (is_told words.now.script.now) fields.now (map (λ w. w.now) line.now) at }
{
    for (index, field) in fields.iter().enumerate() {
        if !is_told(words, *field, word_at(line, at + index)) {
            return false;
        }
    }
    true
}

/// Whether all bytes are digits.
fn all_digits(bytes: &[u8]) -> bool
    ensures { result ≡ list_all is_ascii_digit bytes.now }
{
    for byte in bytes {
        if !byte.is_ascii_digit() {
            return false;
        }
    }
    true
}

/// Whether a word is digits, with leading zeros or not.
pub fn are_digits(word: &[u8]) -> bool
    ensures { result ≡ are_digits word.now }
{
    all_digits(word) && !word.is_empty()
}

/// Whether this name stands at a place, and a number behind it.
fn is_count(line: &[&[u8]], at: usize, name: &[u8]) -> bool
    requires near { at ≤ 65535 }
    ensures { result ≡ is_count (map (λ w. w.now) line.now) at name.now }
{
    word_at(line, at) == name && is_decimal(word_at(line, at + 1))
}

/// Whether the words behind the first one are those of the counts of sends, each with a number behind it.
#[tactic(auto, unfolding(crate::specs::Reasons::are_counts))]
pub fn are_counts(line: &[&[u8]]) -> bool
    ensures { result ≡ are_counts (map (λ w. w.now) line.now) }
{
    is_count(line, 1, b"begun")
        && is_count(line, 3, b"entered")
        && is_count(line, 5, b"proc")
        && is_count(line, 7, b"reply")
        && is_count(line, 9, b"loss")
        && is_count(line, 11, b"timeout")
        && is_count(line, 13, b"open")
}
