//! Bodies as lines of a program.

ghost use Rattle.std.specs.Prelude.{◌≡◌, ◌∷◌, [], ◌≤◌, IfOk, OnOk, vec_len};
ghost use Rattle.script_proc.specs.Programs.{IsAlone, Says, IsPut, StartsAt, EachStarts, procedure_body, itself, Grows};

use crate::program::Line;
use script_tree::{Body, Procedure, Statement};
use std::alloc::{AllocError, Global};

/// The line of a statement without a body.
fn alone<'s>(statement: &'s Statement) -> Line<'s>
    requires { IsAlone statement.now }
    ensures { Says result statement.now }
{
    match statement {
        Statement::Let(letter, value) => Line::Let(*letter, value),
        Statement::Compute(letter, left, operator, right) => {
            Line::Compute(*letter, *operator, left, right)
        }
        Statement::Return(value) => Line::Return(value),
        Statement::Call(call) => Line::Call(call),
        Statement::Sleep(time) => Line::Sleep(time),
        Statement::Create(creation) => Line::Create(creation),
        Statement::Destroy(window) => Line::Destroy(window),
        Statement::Compound(compound) => Line::Compound(compound),
        Statement::Default => Line::Default,
        _ => unreachable!(),
    }
}

/// Adds the lines of a statement.
#[cycle(compile)]
fn put_statement<'s>(statement: &'s Statement, lines: &mut Vec<Line<'s>>) -> Result<(), AllocError>
    ensures put { OnOk result (IsPut (statement.now ∷ []) lines.old.items lines.new.items) }
    ensures grows { vec_len lines.old ≤ vec_len lines.new }
{
    let from = lines.len();
    match statement {
        Statement::If(test, body) => {
            lines.push(Line::If(test, 0))?;
            put_body(body, lines)?;
            let passed = lines.len() - from - 1;
            lines[from] = Line::If(test, passed);
        }
        Statement::IfElse(test, first, second) => {
            lines.push(Line::If(test, 0))?;
            put_body(first, lines)?;
            let middle = lines.len();
            lines.push(Line::Else(0))?;
            put_body(second, lines)?;
            let passed = lines.len() - middle - 1;
            lines[middle] = Line::Else(passed);
            lines[from] = Line::If(test, middle - from);
        }
        Statement::While(test, body) => {
            lines.push(Line::While(test, 0))?;
            put_body(body, lines)?;
            lines.push(Line::End)?;
            let passed = lines.len() - from - 1;
            lines[from] = Line::While(test, passed);
        }
        _ => lines.push(alone(statement))?,
    }
    Ok(())
}

/// Adds the lines of statements.
#[cycle(compile)]
fn put_body<'s>(statements: &'s [Statement], lines: &mut Vec<Line<'s>>) -> Result<(), AllocError>
    ensures put { OnOk result (IsPut statements.now lines.old.items lines.new.items) }
    ensures grows { vec_len lines.old ≤ vec_len lines.new }
{
    for statement in statements {
        put_statement(statement, lines)?;
    }
    Ok(())
}

/// Adds the lines of a whole body, and answers where it begins. Room for as many lines as it has at least is taken at once.
fn put_whole<'s>(
    statements: &'s [Statement],
    lines: &mut Vec<Line<'s>>,
) -> Result<usize, AllocError>
    ensures begins { IfOk result (λ place. StartsAt lines.new.items place statements.now) }
    ensures grows { OnOk result (Grows lines.old.items lines.new.items) }
{
    let place = lines.len();
    lines.reserve(statements.len() + 1)?;
    put_body(statements, lines)?;
    lines.push(Line::End)?;
    Ok(place)
}

/// Adds the bodies of procedures, and answers where each begins.
pub fn put_procedures<'s>(
    alloc: Global,
    procedures: &'s [Procedure],
    lines: &mut Vec<Line<'s>>,
) -> Result<Vec<usize>, AllocError>
    ensures begin { IfOk result (λ places. EachStarts procedure_body lines.new.items places.items procedures.now) }
    ensures grows { OnOk result (Grows lines.old.items lines.new.items) }
{
    let mut places = Vec::new(alloc);
    for procedure in procedures {
        let place = put_whole(procedure.body().statements(), lines)?;
        places.push(place)?;
    }
    Ok(places)
}

/// Adds the bodies of threads, and answers where each begins.
pub fn put_threads<'s>(
    alloc: Global,
    threads: &'s [Body],
    lines: &mut Vec<Line<'s>>,
) -> Result<Vec<usize>, AllocError>
    ensures begin { IfOk result (λ places. EachStarts itself lines.new.items places.items threads.now) }
    ensures grows { OnOk result (Grows lines.old.items lines.new.items) }
{
    let mut places = Vec::new(alloc);
    for body in threads {
        let place = put_whole(body.statements(), lines)?;
        places.push(place)?;
    }
    Ok(places)
}
