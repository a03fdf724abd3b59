//! Why a text is no script.

ghost use Rattle.std.specs.Prelude.{◌≡◌};
ghost use Rattle.script_text.specs.declared.fault.ReadFault.TheVariants.{Memory};

use std::alloc::AllocError;

/// What is wrong with a text: of a line the first of these that applies.
#[derive(Clone, Copy, Debug, PartialEq, Eq)]
pub enum Reason {
    /// A byte that isn't allowed, or no line feed.
    Bytes,
    /// The first word can't stand there, or the number of words or the blanks are wrong.
    Words,
    /// A word has the wrong form.
    Operand,
    /// A name of a message, a constant or a procedure that isn't known there.
    Name,
    /// A procedure's name a second time.
    Repeated,
    /// A number or a count beyond its limit.
    Limit,
    /// The text ends too early.
    End,
    /// The text is too long.
    Long,
}

/// Where and why a text was refused.
#[derive(Clone, Copy, Debug, PartialEq, Eq)]
pub struct Refusal {
    /// The first bad line, from 1 on; 0 where the text is too long.
    pub line: u32,
    /// What is wrong there.
    pub reason: Reason,
}

/// Why there is no script.
#[derive(Clone, Copy, Debug, PartialEq, Eq)]
pub enum ReadFault {
    /// No script has this text.
    Refused(Refusal),
    /// No memory was left for the script.
    Memory,
}

impl From<AllocError> for ReadFault {
    ghost from_gives = { λ _ e. e ≡ Memory };

    fn from(_error: AllocError) -> ReadFault {
        ReadFault::Memory
    }
}
