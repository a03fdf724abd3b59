//! Lines that are made from their last byte to their first.

ghost use Rattle.std.specs.Prelude.{◌≡◌, ◌+◌, ◌≤◌, [], ◌∷◌, ◌++◌, length, decimal};
ghost use Rattle.std.specs.Fmt.{signed_decimal};
ghost use Rattle.user_io.specs.Text.{operand};

use itoa::write_digits;
use std::marker::Model;

/// How many bytes a line has room for.
const ROOM: usize = 320;

/// A line that is made from its last byte to its first, in room of its own for 320 bytes: no piece of it takes memory.
#[derive(Drop)]
pub struct Line {
    bytes: [u8; ROOM],
    start: usize,
}

impl Model for Line {
    ghost use Rattle.std.specs.Prelude.{ℕ, ◌≤◌, List, drop};

    ghost Value = { List ℕ };

    ghost view = { λ l. drop l.start l.bytes };

    ghost invariant = { λ l. l.start ≤ 320 };
}

impl Line {
    /// A line without a byte.
    pub fn new() -> Line
        ensures { result ≡ [] }
    {
        Line {
            bytes: [0; ROOM],
            start: ROOM,
        }
    }

    /// What the line has.
    pub fn bytes(&self) -> &[u8]
        ensures { result.now ≡ self.now }
    {
        &self.bytes[self.start..]
    }

    /// Puts a byte before the line.
    #[inline(always)]
    fn prepend_byte(&mut self, byte: u8)
        requires { length self.old + 1 ≤ 320 }
        ensures { self.new ≡ byte ∷ self.old }
    {
        self.start -= 1;
        self.bytes[self.start] = byte;
    }

    /// Puts some bytes before the line.
    #[inline(always)]
    pub fn prepend_text(&mut self, text: &[u8])
        requires { length self.old + length text.now ≤ 320 }
        ensures { self.new ≡ text.now ++ self.old }
    {
        let start = self.start - text.len();
        self.bytes[start..self.start].copy_from_slice(text);
        self.start = start;
    }

    /// Puts a number in decimal before the line.
    #[inline(always)]
    #[tactic(auto, using(std::proofs::lemmas::Fmt::decimal_digit))]
    pub fn prepend_number(&mut self, number: u64)
        requires { length self.old + 20 ≤ 320 }
        ensures text { self.new ≡ decimal number ++ self.old }
        ensures room { length self.new ≤ length self.old + 20 }
    {
        if number < 10 {
            self.prepend_byte(b'0' + number as u8);
        } else {
            self.start = write_digits(number, &mut self.bytes, self.start);
        }
    }

    /// Puts a blank and a number in decimal before the line.
    #[inline(always)]
    pub fn prepend_operand(&mut self, number: u64)
        requires { length self.old + 21 ≤ 320 }
        ensures text { self.new ≡ operand number ++ self.old }
        ensures room { length self.new ≤ length self.old + 21 }
    {
        self.prepend_number(number);
        self.prepend_byte(b' ');
    }

    /// Puts a blank and a number in decimal before the line, with its sign where it is below 0.
    #[inline(always)]
    pub fn prepend_signed(&mut self, number: i64)
        requires { length self.old + 22 ≤ 320 }
        ensures text { self.new ≡ (32 ∷ signed_decimal number) ++ self.old }
        ensures room { length self.new ≤ length self.old + 22 }
    {
        self.prepend_number(number.unsigned_abs());
        if number < 0 {
            self.prepend_byte(b'-');
        }
        self.prepend_byte(b' ');
    }
}
