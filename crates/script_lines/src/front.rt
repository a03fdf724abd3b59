//! Numbers at the front of a text, each the one spelling of its value.

ghost use Rattle.std.specs.Prelude.{◌≡◌, ◌≤◌, ◌++◌, true, decimal, length, take, IfSome};
ghost use Rattle.std.specs.Str.{all_ascii_digits};
ghost use Rattle.script_lines.specs.LineReading.{number_at};
ghost use Rattle.script_lines.specs.LineTexts.{blank_word};

use crate::frequent::DIGIT_LIMIT;

/// The value of the digits at the front of a text, and how many they are, as far as the limit.
fn front_digits(text: &[u8]) -> (u64, usize)
    ensures digits { all_ascii_digits (take result.1 text.now) ≡ true }
    ensures value { result.0 ≡ number_at (take result.1 text.now) }
    ensures few { result.1 ≤ 19 }
    ensures within { result.1 ≤ length text.now }
{
    let mut value = 0u64;
    for (digits, digit) in text.iter().enumerate() {
        if digits == DIGIT_LIMIT || !digit.is_ascii_digit() {
            return (value, digits);
        }
        value = value * 10 + (*digit - b'0') as u64;
    }
    (value, text.len())
}

/// What is left of a text of which the front has been taken.
#[derive(Drop)]
pub struct Rest<'a> {
    pub text: &'a [u8],
}

impl<'a> Rest<'a> {
    /// Takes a blank and a number. None says nothing of what is left.
    pub fn number(&mut self) -> Option<u64>
        ensures { IfSome result (λ n. self.old.text.now ≡ blank_word (decimal n) ++ self.new.text.now) }
    {
        let [blank, word @ ..] = self.text else {
            return None;
        };
        let [first, rest @ ..] = word else {
            return None;
        };
        if *blank != b' ' {
            return None;
        }
        if *first == b'0' {
            self.text = rest;
            return Some(0);
        }
        let (value, digits) = front_digits(word);
        if digits == 0 {
            return None;
        }
        self.text = &word[digits..];
        Some(value)
    }
}
