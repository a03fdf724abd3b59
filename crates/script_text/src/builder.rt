//! Trees from their lines, with a stack of open blocks.

ghost use Rattle.std.specs.Prelude.{◌≡◌, ◌++◌, ◌∷◌, ◌==◌, [], length, IfOk, IfSome, OnOk, is_some, true, not, Some, None, if◌then◌else◌};
ghost use Rattle.std.specs.List.{list_any};
ghost use Rattle.script_text.specs.Building.{opening_lines, open_lines, built_lines, kind_of, kinds, nest_of, IsSound};
ghost use Rattle.script_text.specs.Lines.{body_lines, code_lines, statement_lines};
ghost use Rattle.script_text.specs.Reasons.{is_if_open};
ghost use Rattle.script_text.specs.Nesting.{nested, nests, none_open, is_procedure, block_entered, block_opened, procedure_entered, procedure_opened, top_opened, else_opened, closed};
ghost use Rattle.script_lines.specs.declared.line.Line.TheVariants.{If, Else, While, End, Call};

use script_lines::Line;
use script_tree::{Body, CallStatement, Statement, Test};
use std::alloc::{AllocError, Global};
use std::collections::VecDeque;

/// How many lines may stand open: that of a procedure or thread, and 32 blocks.
const OPEN_LIMIT: usize = 33;

/// The line with which an open block began.
#[derive(Drop)]
pub enum Opening {
    /// The `proc` of the procedure of this number.
    Procedure(u32),
    Thread,
    If(Test),
    /// The `else` of an `if`, with the statements before it.
    Else(Test, Vec<Statement>),
    While(Test),
}

/// An open block with its statements so far.
#[derive(Drop)]
pub struct Block {
    opening: Opening,
    statements: Vec<Statement>,
}

/// The bodies of procedures and of threads, in order.
#[derive(Drop)]
pub struct Bodies {
    pub procedures: Vec<Body>,
    pub threads: Vec<Body>,
}

/// The bodies that are whole, and the open blocks, the innermost first.
#[derive(Drop)]
pub struct Builder {
    procedures: Vec<Body>,
    threads: Vec<Body>,
    blocks: VecDeque<Block>,
}

/// Opens a block.
fn open_block(
    alloc: Global,
    blocks: &mut VecDeque<Block>,
    opening: Opening,
) -> Result<(), AllocError>
    ensures lines { OnOk result (open_lines blocks.new.items ≡ open_lines blocks.old.items ++ opening_lines opening) }
    ensures kinds { OnOk result (kinds blocks.new.items ≡ kind_of opening ∷ kinds blocks.old.items) }
{
    let statements = Vec::new(alloc);
    blocks.push_front(Block {
        opening,
        statements,
    })?;
    Ok(())
}

/// Opens a block at the top; false where another stands open.
fn open_top(
    alloc: Global,
    blocks: &mut VecDeque<Block>,
    opening: Opening,
) -> Result<bool, AllocError>
    ensures lines { IfOk result (λ taken. taken ≡ true → open_lines blocks.new.items ≡ open_lines blocks.old.items ++ opening_lines opening) }
    ensures kinds { IfOk result (λ taken. (if taken then Some (kinds blocks.new.items) else None) ≡ top_opened (kind_of opening) (kinds blocks.old.items)) }
{
    if !blocks.is_empty() {
        return Ok(false);
    }
    open_block(alloc, blocks, opening)?;
    Ok(true)
}

/// Adds a statement to the innermost block; false where none is open.
#[inline(always)]
fn add_statement(blocks: &mut VecDeque<Block>, statement: Statement) -> Result<bool, AllocError>
    ensures lines { IfOk result (λ taken. taken ≡ true → open_lines blocks.new.items ≡ open_lines blocks.old.items ++ statement_lines statement) }
    ensures kinds { IfOk result (λ taken. (if taken then Some (kinds blocks.new.items) else None) ≡ block_entered (kinds blocks.old.items)) }
{
    let Some(block) = blocks.front_mut() else {
        return Ok(false);
    };
    block.statements.push(statement)?;
    Ok(true)
}

/// Whether it is that of a procedure.
fn is_procedure(opening: &Opening) -> bool
    ensures { result ≡ is_procedure (kind_of opening.now) }
{
    match opening {
        Opening::Procedure(_) => true,
        Opening::Thread => false,
        Opening::If(_) => false,
        Opening::Else(_, _) => false,
        Opening::While(_) => false,
    }
}

/// Whether it is that of an `if` without its `else`.
fn is_if(opening: &Opening) -> bool
    ensures { result ≡ is_if_open (kind_of opening.now ∷ []) }
{
    match opening {
        Opening::Procedure(_) => false,
        Opening::Thread => false,
        Opening::If(_) => true,
        Opening::Else(_, _) => false,
        Opening::While(_) => false,
    }
}

/// Whether a procedure stands open.
fn in_procedure(blocks: &VecDeque<Block>) -> bool
    ensures { result ≡ list_any is_procedure (kinds blocks.now.items) }
{
    blocks.iter().any(|block| is_procedure(&block.opening))
}

/// Adds a statement that stands in procedures only.
fn add_in_procedure(blocks: &mut VecDeque<Block>, statement: Statement) -> Result<bool, AllocError>
    ensures lines { IfOk result (λ taken. taken ≡ true → open_lines blocks.new.items ≡ open_lines blocks.old.items ++ statement_lines statement) }
    ensures kinds { IfOk result (λ taken. (if taken then Some (kinds blocks.new.items) else None) ≡ procedure_entered (kinds blocks.old.items)) }
{
    if !in_procedure(blocks) {
        return Ok(false);
    }
    add_statement(blocks, statement)
}

/// An `if` without `else`.
fn closed_if(test: Test, statements: Vec<Statement>) -> Statement
    ensures { statement_lines result ≡ If test ∷ (body_lines statements.items ++ End ∷ []) }
{
    Statement::If(test, statements)
}

/// An `if` with both bodies.
fn closed_else(test: Test, first: Vec<Statement>, second: Vec<Statement>) -> Statement
    ensures { statement_lines result ≡ If test ∷ (body_lines first.items ++ Else ∷ (body_lines second.items ++ End ∷ [])) }
{
    Statement::IfElse(test, first, second)
}

/// A `while`.
fn closed_while(test: Test, statements: Vec<Statement>) -> Statement
    ensures { statement_lines result ≡ While test ∷ (body_lines statements.items ++ End ∷ []) }
{
    Statement::While(test, statements)
}

/// Opens a block inside of another.
fn open_inner(
    alloc: Global,
    blocks: &mut VecDeque<Block>,
    opening: Opening,
) -> Result<bool, AllocError>
    ensures lines { IfOk result (λ taken. taken ≡ true → open_lines blocks.new.items ≡ open_lines blocks.old.items ++ opening_lines opening) }
    ensures kinds { IfOk result (λ taken. (if taken then Some (kinds blocks.new.items) else None) ≡ block_opened (kind_of opening) (kinds blocks.old.items)) }
{
    if blocks.is_empty() || blocks.len() >= OPEN_LIMIT {
        return Ok(false);
    }
    open_block(alloc, blocks, opening)?;
    Ok(true)
}

/// Begins the other body of an `if`.
fn open_else(alloc: Global, blocks: &mut VecDeque<Block>) -> Result<bool, AllocError>
    ensures lines { IfOk result (λ taken. taken ≡ true → open_lines blocks.new.items ≡ open_lines blocks.old.items ++ Else ∷ []) }
    ensures kinds { IfOk result (λ taken. (if taken then Some (kinds blocks.new.items) else None) ≡ else_opened (kinds blocks.old.items)) }
{
    let Some(block) = blocks.pop_front() else {
        return Ok(false);
    };
    let Block {
        opening,
        statements,
    } = block;
    match opening {
        Opening::If(test) => {
            open_block(alloc, blocks, Opening::Else(test, statements))?;
            Ok(true)
        }
        Opening::Procedure(_) => Ok(false),
        Opening::Thread => Ok(false),
        Opening::Else(_, _) => Ok(false),
        Opening::While(_) => Ok(false),
    }
}

/// Puts a body behind those before it; false where a block stands open around it.
fn close_body(
    bodies: &mut Vec<Body>,
    blocks: &VecDeque<Block>,
    statements: Vec<Statement>,
) -> Result<bool, AllocError>
    ensures bodies { IfOk result (λ taken. taken ≡ true → bodies.new.items ≡ bodies.old.items ++ statements.items ∷ []) }
    ensures kinds { IfOk result (λ taken. taken ≡ none_open (kinds blocks.now.items)) }
{
    if !blocks.is_empty() {
        return Ok(false);
    }
    bodies.push(Body::new(statements))?;
    Ok(true)
}

impl Builder {
    /// Nothing yet.
    pub fn new(alloc: Global) -> Builder
        ensures { (result.procedures.items ≡ []) × (result.threads.items ≡ []) × (result.blocks.items ≡ []) }
    {
        Builder {
            procedures: Vec::new(alloc),
            threads: Vec::new(alloc),
            blocks: VecDeque::new(alloc),
        }
    }

    /// Ends the innermost block.
    fn close(&mut self) -> Result<bool, AllocError>
        requires { IsSound self.old.procedures.items self.old.threads.items self.old.blocks.items }
        ensures lines { IfOk result (λ taken. taken ≡ true → built_lines self.new.procedures.items self.new.threads.items self.new.blocks.items ≡ built_lines self.old.procedures.items self.old.threads.items self.old.blocks.items ++ End ∷ []) }
        ensures nest { IfOk result (λ taken. (if taken then Some (nest_of self.new.procedures.items self.new.threads.items self.new.blocks.items) else None) ≡ closed (nest_of self.old.procedures.items self.old.threads.items self.old.blocks.items) (kinds self.old.blocks.items)) }
    {
        let Some(block) = self.blocks.pop_front() else {
            return Ok(false);
        };
        let Block {
            opening,
            statements,
        } = block;
        match opening {
            Opening::Procedure(_) => close_body(&mut self.procedures, &self.blocks, statements),
            Opening::Thread => close_body(&mut self.threads, &self.blocks, statements),
            Opening::If(test) => add_statement(&mut self.blocks, closed_if(test, statements)),
            Opening::Else(test, first) => {
                add_statement(&mut self.blocks, closed_else(test, first, statements))
            }
            Opening::While(test) => {
                add_statement(&mut self.blocks, closed_while(test, statements))
            }
        }
    }

    /// Begins a procedure: before all threads, with the next number.
    fn open_procedure(&mut self, alloc: Global, number: u32) -> Result<bool, AllocError>
        ensures lines { IfOk result (λ taken. taken ≡ true → open_lines self.new.blocks.items ≡ open_lines self.old.blocks.items ++ opening_lines (Opening.Procedure number)) }
        ensures kinds { IfOk result (λ taken. (if taken then Some (kinds self.new.blocks.items) else None) ≡ procedure_opened number (nest_of self.old.procedures.items self.old.threads.items self.old.blocks.items)) }
        ensures bodies { (self.new.procedures.items ≡ self.old.procedures.items) × (self.new.threads.items ≡ self.old.threads.items) }
    {
        if !self.threads.is_empty() || number as usize != self.procedures.len() {
            return Ok(false);
        }
        open_top(alloc, &mut self.blocks, Opening::Procedure(number))
    }

    /// Whether a block stands open.
    pub fn is_open(&self) -> bool
        ensures { result ≡ not (none_open (kinds self.now.blocks.items)) }
    {
        !self.blocks.is_empty()
    }

    /// Whether a thread has ended.
    pub fn has_thread(&self) -> bool
        ensures { result ≡ not (length self.now.threads.items == 0) }
    {
        !self.threads.is_empty()
    }

    /// Whether the innermost block is an `if` without its `else`.
    pub fn is_if_open(&self) -> bool
        ensures { result ≡ is_if_open (kinds self.now.blocks.items) }
    {
        match self.blocks.front() {
            Some(block) => is_if(&block.opening),
            None => false,
        }
    }

    /// Whether a procedure stands open.
    pub fn is_in_procedure(&self) -> bool
        ensures { result ≡ list_any is_procedure (kinds self.now.blocks.items) }
    {
        in_procedure(&self.blocks)
    }

    /// Takes the line of a call's statement; false where it can't stand there.
    pub fn take_call(&mut self, call: CallStatement) -> Result<bool, AllocError>
        ensures lines { IfOk result (λ taken. taken ≡ true → built_lines self.new.procedures.items self.new.threads.items self.new.blocks.items ≡ built_lines self.old.procedures.items self.old.threads.items self.old.blocks.items ++ Call call ∷ []) }
        ensures nest { IfOk result (λ taken. (if taken then Some (nest_of self.new.procedures.items self.new.threads.items self.new.blocks.items) else None) ≡ nested (nest_of self.old.procedures.items self.old.threads.items self.old.blocks.items) (Call call)) }
    {
        add_statement(&mut self.blocks, Statement::Call(call))
    }

    /// Takes one line more; false where it can't stand there.
    pub fn take(&mut self, alloc: Global, line: Line) -> Result<bool, AllocError>
        requires { IsSound self.old.procedures.items self.old.threads.items self.old.blocks.items }
        ensures lines { IfOk result (λ taken. taken ≡ true → built_lines self.new.procedures.items self.new.threads.items self.new.blocks.items ≡ built_lines self.old.procedures.items self.old.threads.items self.old.blocks.items ++ line ∷ []) }
        ensures nest { IfOk result (λ taken. (if taken then Some (nest_of self.new.procedures.items self.new.threads.items self.new.blocks.items) else None) ≡ nested (nest_of self.old.procedures.items self.old.threads.items self.old.blocks.items) line) }
    {
        let blocks = &mut self.blocks;
        match line {
            Line::Procedure(number) => self.open_procedure(alloc, number),
            Line::Thread => open_top(alloc, blocks, Opening::Thread),
            Line::Let(letter, value) => add_statement(blocks, Statement::Let(letter, value)),
            Line::Compute(letter, left, operator, right) => {
                add_statement(blocks, Statement::Compute(letter, left, operator, right))
            }
            Line::If(test) => open_inner(alloc, blocks, Opening::If(test)),
            Line::Else => open_else(alloc, blocks),
            Line::While(test) => open_inner(alloc, blocks, Opening::While(test)),
            Line::End => self.close(),
            Line::Return(value) => add_in_procedure(blocks, Statement::Return(value)),
            Line::Call(call) => add_statement(blocks, Statement::Call(call)),
            Line::Sleep(time) => add_statement(blocks, Statement::Sleep(time)),
            Line::Create(creation) => add_statement(blocks, Statement::Create(creation)),
            Line::Destroy(window) => add_statement(blocks, Statement::Destroy(window)),
            Line::Compound(compound) => add_statement(blocks, Statement::Compound(compound)),
            Line::Default => add_in_procedure(blocks, Statement::Default),
        }
    }

    /// The bodies, where no block is open.
    pub fn finish(self) -> Option<Bodies>
        ensures lines { IfSome result (λ bodies. code_lines bodies.procedures.items bodies.threads.items ≡ built_lines self.procedures.items self.threads.items self.blocks.items) }
        ensures open { is_some result ≡ none_open (kinds self.blocks.items) }
    {
        if self.blocks.is_empty() {
            Some(Bodies {
                procedures: self.procedures,
                threads: self.threads,
            })
        } else {
            None
        }
    }
}
