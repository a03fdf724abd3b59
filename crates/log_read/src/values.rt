//! The values of fields from their words, loosely: a number may have leading zeros, or be too large.

ghost use Rattle.std.specs.Prelude.{◌≡◌, ◌≤◌, ◌<◌, ◌^◌, length, IfSome, find, map, option_map};
ghost use Rattle.std.specs.List.{AllByRecursion, position_from};
ghost use Rattle.std.specs.Str.{bytes_eq};
ghost use Rattle.call_fields.specs.Words.{source_word, cause_word};
ghost use Rattle.script_lines.specs.Known.{known_of};
ghost use Rattle.script_lines.specs.NameLimits.{AreKnown};
ghost use Rattle.log_read.specs.Limits.{IsValue};
ghost use Rattle.log_read.specs.Reading.{small_at, signed_at, pixel_at, message_at, short_message_at, source_at, cause_at, code_at, name_at, procedure_at, value_at, values_from};

use arrayvec::ArrayVec;
use call_fields::{Field, Value, Values, cause_word, source_word};
use log_text::Words;
use script_lines::{number_at, word_at};
use script_tree::{Name, Procedure, Script};
use user_model::Origin;
use win_num::{Cause, Code, Hwnd, SendId, Thread};

static SOURCES: [Origin; 5] = [
    Origin::Posted,
    Origin::Quit,
    Origin::Input,
    Origin::Paint,
    Origin::Timer,
];

static CAUSES: [Cause; 5] = [
    Cause::Proc,
    Cause::Reply,
    Cause::Loss,
    Cause::Timeout,
    Cause::Hung,
];

/// A number of 8 bits.
fn byte_at(word: &[u8]) -> u8
    ensures { result ≡ small_at 8 word.now }
{
    number_at(word).min(255) as u8
}

/// A number of 32 bits.
pub fn small_at(word: &[u8]) -> u32
    ensures { result ≡ small_at 32 word.now }
{
    number_at(word).min(4294967295) as u32
}

/// A number with its sign.
pub fn signed_at(word: &[u8]) -> i64
    ensures { result ≡ signed_at word.now }
{
    let [first, digits @ ..] = word else {
        return 0;
    };
    if *first == b'-' {
        let below = number_at(digits).saturating_sub(1).min(9223372036854775807);
        return -(below as i64) - 1;
    }
    number_at(word).min(9223372036854775807) as i64
}

/// A place on the screen.
#[tactic(auto, unfolding(crate::specs::Reading::pixel_at))]
pub fn pixel_at(word: &[u8]) -> Option<i32>
    ensures { result ≡ pixel_at word.now }
{
    let value = signed_at(word);
    if -2147483648 <= value && value <= 2147483647 {
        Some(value as i32)
    } else {
        None
    }
}

/// A message by its name, or its number.
pub fn message_at(words: &Words, word: &[u8]) -> u64
    ensures { result ≡ message_at word.now }
{
    match words.messages.number_of(word) {
        Some(number) => u64::from(number),
        None => number_at(word),
    }
}

/// The same of 32 bits.
fn short_message_at(words: &Words, word: &[u8]) -> u32
    ensures { result ≡ short_message_at word.now }
{
    message_at(words, word).min(4294967295) as u32
}

/// The first of these sources that has the word.
fn source_in(all: &[Origin], word: &[u8]) -> Option<Origin>
    ensures { result ≡ find (λ o. bytes_eq (source_word o) word.now) all.now }
{
    for source in all {
        if source_word(*source) == word {
            return Some(*source);
        }
    }
    None
}

/// The source with this word.
#[tactic(auto, unfolding(crate::specs::Reading::source_at))]
pub fn source_at(word: &[u8]) -> Option<Origin>
    ensures { result ≡ source_at word.now }
{
    source_in(&SOURCES, word)
}

/// The first of these causes that has the word.
fn cause_in(all: &[Cause], word: &[u8]) -> Option<Cause>
    ensures { result ≡ find (λ c. bytes_eq (cause_word c) word.now) all.now }
{
    for cause in all {
        if cause_word(*cause) == word {
            return Some(*cause);
        }
    }
    None
}

/// The cause with this word.
#[tactic(auto, unfolding(crate::specs::Reading::cause_at))]
pub fn cause_at(word: &[u8]) -> Option<Cause>
    ensures { result ≡ cause_at word.now }
{
    cause_in(&CAUSES, word)
}

/// A code by its word, or its number.
#[tactic(auto, unfolding(crate::specs::Reading::code_at))]
fn code_at(word: &[u8]) -> Code
    ensures { result ≡ code_at word.now }
{
    if word == b"full".as_slice() {
        Code::Full
    } else if word == b"not_now".as_slice() {
        Code::NotNow
    } else if word == b"no_target".as_slice() {
        Code::NoTarget
    } else {
        Code::Win(number_at(word).min(65535) as u16)
    }
}

/// The place of a name.
fn name_in(names: &[Name], word: &[u8]) -> Option<usize>
    ensures found { result ≡ position_from (λ name. bytes_eq name word.now) 0 names.now }
    ensures within { IfSome result (λ place. place < length names.now) }
{
    for (place, name) in names.iter().enumerate() {
        if name.text() == word {
            return Some(place);
        }
    }
    None
}

/// The place of a procedure with this name.
fn procedure_in(procedures: &[Procedure], word: &[u8]) -> Option<usize>
    ensures found { result ≡ position_from (λ p. bytes_eq p.name word.now) 0 procedures.now }
    ensures within { IfSome result (λ place. place < length procedures.now) }
{
    for (place, procedure) in procedures.iter().enumerate() {
        if procedure.name().text() == word {
            return Some(place);
        }
    }
    None
}

/// The place of a name of the script.
#[tactic(auto, unfolding(crate::specs::Reading::name_at))]
pub fn name_at(script: &Script, word: &[u8]) -> Option<u32>
    requires named { AreKnown (known_of script.now) }
    ensures found { result ≡ name_at script.now word.now }
    ensures within { IfSome result (λ place. place < length script.now.names) }
{
    match name_in(script.names(), word) {
        Some(place) => Some(place as u32),
        None => None,
    }
}

/// The place of a procedure of the script.
#[tactic(auto, unfolding(crate::specs::Reading::procedure_at))]
pub fn procedure_at(script: &Script, word: &[u8]) -> Option<u32>
    requires named { AreKnown (known_of script.now) }
    ensures found { result ≡ procedure_at script.now word.now }
    ensures within { IfSome result (λ place. place < length script.now.procedures) }
{
    match procedure_in(script.procedures(), word) {
        Some(place) => Some(place as u32),
        None => None,
    }
}

/// The value that a word is in a field of this kind. None comes where it is no name of the script, no word of
/// the field, or beyond the screen's numbers.
fn value_at(words: &Words, field: Field, word: &[u8]) -> Option<Value>
    requires named { AreKnown (known_of words.now.script.now) }
    ensures found { result ≡ value_at words.now.script.now field word.now }
    ensures fits { IfSome result (IsValue words.now.script.now) }
{
    match field {
        Field::Number => Some(Value::Number(number_at(word))),
        Field::Message => Some(Value::Message(message_at(words, word))),
        Field::Signed => Some(Value::Signed(signed_at(word))),
        Field::Name => name_at(words.script, word).map(Value::Name),
        Field::Procedure => procedure_at(words.script, word).map(Value::Procedure),
        Field::Window => Some(Value::Window(Hwnd(small_at(word)))),
        Field::Send => Some(Value::Send(SendId(small_at(word)))),
        Field::Thread => Some(Value::Thread(Thread(byte_at(word)))),
        Field::Count => Some(Value::Count(small_at(word))),
        Field::ShortMessage => Some(Value::ShortMessage(short_message_at(words, word))),
        Field::Pixel => pixel_at(word).map(Value::Pixel),
        Field::Byte => Some(Value::Byte(byte_at(word))),
        Field::Source => source_at(word).map(Value::Source),
        Field::Cause => cause_at(word).map(Value::Cause),
        Field::Code => Some(Value::Code(code_at(word))),
    }
}

/// The values that the words from a place on are in fields of these kinds. None comes where one of them is none.
pub fn values_at(words: &Words, fields: &[Field], line: &[&[u8]], at: usize) -> Option<Values>
    requires named { AreKnown (known_of words.now.script.now) }
    requires few { length fields.now ≤ 9 }
    requires near { at ≤ 65535 }
    ensures found { option_map (λ vs. vs.items) result ≡ values_from words.now.script.now fields.now (map (λ w. w.now) line.now) at }
    ensures fits { IfSome result (λ vs. AllByRecursion (IsValue words.now.script.now) vs.items) }
{
    let mut values = ArrayVec::new();
    for (index, field) in fields.iter().enumerate() {
        let value = value_at(words, *field, word_at(line, at + index))?;
        values.push(value);
    }
    Some(values)
}
