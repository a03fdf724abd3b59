//! A script as one list of lines.

ghost use Rattle.std.specs.Prelude.{◌≡◌, ◌-◌, IfOk, slice_get, unwrap_or};
ghost use Rattle.script_proc.specs.Programs.{IsProgramOf};

use crate::compile::{put_procedures, put_threads};
use script_tree::{
    CallStatement, CompoundStatement, Creation, Letter, Operand, Operator, Script, Test,
};
use std::alloc::{AllocError, Global};

/// A line of a program: a statement that stands alone, or the border of a block. What it says it borrows from the
/// script. A number says how many of the lines behind it are passed over.
#[derive(Clone, Copy)]
pub enum Line<'s> {
    Let(Letter, &'s Operand),
    Compute(Letter, Operator, &'s Operand, &'s Operand),
    /// An `if`: where the test fails, its first body is passed over.
    If(&'s Test, usize),
    /// Behind the first body of an `if`: the other body is passed over.
    Else(usize),
    /// A `while`: where the test fails, its body is passed over.
    While(&'s Test, usize),
    /// The end of a pass of a `while`, or of the body of a procedure or a thread.
    End,
    Return(&'s Operand),
    Call(&'s CallStatement),
    Sleep(&'s Operand),
    Create(&'s Creation),
    Destroy(&'s Operand),
    Compound(&'s CompoundStatement),
    Default,
}

/// A script as one list of lines: the bodies of its procedures and threads, one behind the other. It borrows the script.
#[derive(Drop)]
pub struct Program<'s> {
    budget: u32,
    lines: Vec<Line<'s>>,
    procedures: Vec<usize>,
    threads: Vec<usize>,
}

impl<'s> Program<'s> {
    /// The program of a script. `AllocError` comes only for want of memory.
    pub fn new(alloc: Global, script: &'s Script) -> Result<Program<'s>, AllocError>
        ensures { IfOk result (IsProgramOf script.now) }
    {
        let mut lines = Vec::new(alloc);
        lines.push(Line::End)?;
        let procedures = put_procedures(alloc, script.procedures(), &mut lines)?;
        let threads = put_threads(alloc, script.threads(), &mut lines)?;
        Ok(Program {
            budget: script.budget(),
            lines,
            procedures,
            threads,
        })
    }

    /// How many entries a thread may make in the history.
    pub fn budget(&self) -> u32
        ensures { result ≡ self.now.budget }
    {
        self.budget
    }

    /// Its lines.
    pub fn lines(&self) -> &[Line<'s>]
        ensures { result.now ≡ self.now.lines.items }
    {
        &self.lines
    }

    /// Where the body of a procedure begins, from procedure 0 on.
    pub fn procedure(&self, number: u32) -> usize
        ensures { result ≡ unwrap_or (slice_get self.now.procedures.items number) 0 }
    {
        self.procedures.get(number as usize).copied().unwrap_or(0)
    }

    /// Where the body of a thread begins, from thread 1 on.
    pub fn thread(&self, thread: u8) -> usize
        ensures { result ≡ unwrap_or (slice_get self.now.threads.items (thread - 1)) 0 }
    {
        let place = (thread as usize).saturating_sub(1);
        self.threads.get(place).copied().unwrap_or(0)
    }
}
