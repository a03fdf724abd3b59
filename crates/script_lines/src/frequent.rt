//! The lines that scripts have most: a message is posted, taken or sent, with numbers and variables. Such a line is
//! told at once, without the tables, and is the one spelling of what it says.

ghost use Rattle.std.specs.Prelude.{◌≡◌, ◌↔◌, ◌⊎◌, ◌&&◌, ◌==◌, ◌∷◌, [], true, codes, nat_lt, length, decimal, map, slice_get, Some, IsTrue, IfSome};
ghost use Rattle.std.specs.Str.{all_ascii_digits};
ghost use Rattle.script_lines.specs.LineReading.{number_at};
ghost use Rattle.script_lines.specs.Frequent.{IsExact, IsFrequent};

use crate::line::Line;
use crate::words::variable_at;
use script_tree::{CallStatement, Operand};

/// How many digits a number has at most that is told here: the greatest of them is below 2^64.
pub const DIGIT_LIMIT: usize = 19;

/// The value of a word of digits.
#[tactic(auto, unfolding(crate::specs::LineReading::number_at))]
fn digits_value(word: &[u8]) -> Option<u64>
    ensures { IfSome result (λ n. (all_ascii_digits word.now ≡ true) × (n ≡ number_at word.now)) }
{
    let mut value = 0u64;
    for digit in word {
        if !digit.is_ascii_digit() {
            return None;
        }
        value = value
            .saturating_mul(10)
            .saturating_add((*digit - b'0') as u64);
    }
    Some(value)
}

/// Whether more stands behind a zero with which a word begins.
fn has_leading_zero(first: u8, word: &[u8]) -> bool
    ensures { result ≡ ((first == 48) && nat_lt 1 (length word.now)) }
{
    first == b'0' && word.len() > 1
}

/// The number whose one spelling a word is that begins with this byte.
fn exact_number(first: u8, word: &[u8]) -> Option<u64>
    requires { slice_get word.now 0 ≡ Some first }
    ensures { IfSome result (λ n. decimal n ≡ word.now) }
{
    if word.len() > DIGIT_LIMIT || has_leading_zero(first, word) {
        return None;
    }
    digits_value(word)
}

/// The number or the variable whose one spelling a word is.
#[tactic(auto, using(crate::proofs::FrequentLines::exact_variable))]
fn exact_operand(word: &[u8]) -> Option<Operand>
    ensures { IfSome result (IsExact word.now) }
{
    match word {
        [first, ..] if first.is_ascii_digit() => Some(Operand::Number(exact_number(*first, word)?)),
        _ => Some(Operand::Variable(variable_at(word)?)),
    }
}

/// Whether a word is this one.
fn is_word(word: &[u8], other: &[u8]) -> bool
    ensures { IsTrue result ↔ (word.now ≡ other.now) }
{
    word == other
}

/// The `get` with these words.
fn get_line(command: &[u8], window: &[u8], min: &[u8], max: &[u8]) -> Option<Line>
    ensures { IfSome result (IsFrequent (command.now ∷ window.now ∷ min.now ∷ max.now ∷ [])) }
{
    if !is_word(command, b"get") {
        return None;
    }
    let window = exact_operand(window)?;
    let min = exact_operand(min)?;
    let max = exact_operand(max)?;
    Some(Line::Call(CallStatement::Get(window, min, max)))
}

/// Whether a word begins a `post`, a `post_thread` or a `send`.
fn is_posting(command: &[u8]) -> bool
    ensures { IsTrue result ↔ ((command.now ≡ codes "post") ⊎ ((command.now ≡ codes "post_thread") ⊎ (command.now ≡ codes "send"))) }
{
    is_word(command, b"post") || is_word(command, b"post_thread") || is_word(command, b"send")
}

/// The `post`, `post_thread` or `send` with these words.
fn posting_line(
    command: &[u8],
    target: &[u8],
    message: &[u8],
    wparam: &[u8],
    lparam: &[u8],
) -> Option<Line>
    ensures { IfSome result (IsFrequent (command.now ∷ target.now ∷ message.now ∷ wparam.now ∷ lparam.now ∷ [])) }
{
    if !is_posting(command) {
        return None;
    }
    let target = exact_operand(target)?;
    let message = exact_operand(message)?;
    let wparam = exact_operand(wparam)?;
    let lparam = exact_operand(lparam)?;
    if is_word(command, b"post") {
        return Some(Line::Call(CallStatement::Post(target, message, wparam, lparam)));
    }
    if is_word(command, b"post_thread") {
        return Some(Line::Call(CallStatement::PostThread(target, message, wparam, lparam)));
    }
    if is_word(command, b"send") {
        return Some(Line::Call(CallStatement::Send(target, message, wparam, lparam)));
    }
    None
}

/// The line with these words where it is a `get`, `post`, `post_thread` or `send`, and each of its operands is a
/// number or a variable. None says nothing of the words.
pub fn frequent_line(words: &[&[u8]]) -> Option<Line>
    ensures { IfSome result (IsFrequent (map (λ w. w.now) words.now)) }
{
    match words {
        [command, window, min, max] => get_line(command, window, min, max),
        [command, target, message, wparam, lparam] => {
            posting_line(command, target, message, wparam, lparam)
        }
        _ => None,
    }
}
