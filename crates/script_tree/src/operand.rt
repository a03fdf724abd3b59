//! Operands and tests.

/// One of the eight variables that a script sets, `a` to `h`.
#[derive(Clone, Copy, PartialEq, Eq)]
pub enum Letter {
    A,
    B,
    C,
    D,
    E,
    F,
    G,
    H,
}

/// A variable of a thread. All are 64-bit numbers, and 0 at its start.
#[derive(Clone, Copy, PartialEq, Eq)]
pub enum Variable {
    /// `a` to `h`.
    Letter(Letter),
    /// `r`: the last result.
    Result,
    /// `err`: the number of the last refusal, or 0.
    Error,
    /// `ghwnd`: the window of the last message got.
    GotWindow,
    /// `gmsg`: its number.
    GotMessage,
    /// `gwp`: its wParam.
    GotWparam,
    /// `glp`: its lParam.
    GotLparam,
    /// `gtime`: its time, in milliseconds of the virtual clock.
    GotTime,
    /// `hwnd`: the window of the innermost running procedure; 0 outside of one.
    Window,
    /// `msg`: the number of its message.
    Message,
    /// `wp`: its wParam.
    Wparam,
    /// `lp`: its lParam.
    Lparam,
}

/// What stands in a place for a number. Operands that are spelled differently are different, also
/// where they have the same value.
#[derive(Clone, Copy, PartialEq, Eq)]
pub enum Operand {
    /// A number in decimal.
    Number(u64),
    /// A minus sign and a number from 1 to 9223372036854775808; its value is the two's complement of 64
    /// bits.
    Minus(u64),
    /// The name of the message of this number.
    Message(u32),
    /// The name of the constant of this ordinal, from 0.
    Constant(u32),
    /// A variable.
    Variable(Variable),
}

/// An operator, modulo 2^64.
#[derive(Clone, Copy, PartialEq, Eq)]
pub enum Operator {
    /// `+`
    Plus,
    /// `-`
    Minus,
    /// `&`: the bits that both have.
    And,
    /// `|`: the bits that one of both has.
    Or,
}

/// A comparison of numbers without sign.
#[derive(Clone, Copy, PartialEq, Eq)]
pub enum Comparison {
    /// `=`
    Equal,
    /// `!=`
    Different,
    /// `<`
    Below,
}

/// Two operands and how they must compare.
#[derive(Clone, Copy, PartialEq, Eq)]
pub struct Test {
    pub left: Operand,
    pub comparison: Comparison,
    pub right: Operand,
}
