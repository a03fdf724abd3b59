//! The lines of procedures and threads.

use call_table::CallName;
use script_tree::{CallStatement, CompoundStatement, Creation, Letter, Operand, Operator, Test};
use statement_table::CompoundName;

/// A line of a procedure or a thread.
#[derive(Clone, Copy)]
pub enum Line {
    /// `proc NAME`: the place of the name in the list of procedures, from 0.
    Procedure(u32),
    /// `thread`
    Thread,
    /// `let V A`
    Let(Letter, Operand),
    /// `let V A OP B`
    Compute(Letter, Operand, Operator, Operand),
    /// `if A CMP B`
    If(Test),
    /// `else`
    Else,
    /// `while A CMP B`
    While(Test),
    /// `end`
    End,
    /// `return A`
    Return(Operand),
    /// A call with its operands.
    Call(CallStatement),
    /// `sleep MS`
    Sleep(Operand),
    /// `create CLASS TITLE PARENT STYLE EX L T R B`
    Create(Creation),
    /// `destroy W`
    Destroy(Operand),
    /// One of the other compound statements, with its operands.
    Compound(CompoundStatement),
    /// `default`
    Default,
}

/// Which line it is.
#[derive(Clone, Copy)]
pub enum Command {
    Procedure,
    Thread,
    /// A `let` of one operand.
    Let,
    /// A `let` of two operands.
    Compute,
    If,
    Else,
    While,
    End,
    Return,
    /// A statement that makes this call, where there is one.
    Call(CallName),
    Sleep,
    Create,
    Destroy,
    Compound(CompoundName),
    Default,
}
