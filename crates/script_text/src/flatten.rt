//! Lines of bodies.

ghost use Rattle.std.specs.Prelude.{◌≡◌, ◌++◌, ◌∷◌, [], OnOk, IfOk};
ghost use Rattle.script_text.specs.Lines.{IsAlone, statement_lines, body_lines};
ghost use Rattle.script_lines.specs.declared.line.Line.TheVariants.{End};

use script_lines::Line;
use script_tree::{Body, Statement};
use std::alloc::{AllocError, Global};

/// The line of a statement without a body.
fn alone(statement: &Statement) -> Line
    requires { IsAlone statement.now }
    ensures { statement_lines statement.now ≡ result ∷ [] }
{
    match statement {
        Statement::Let(letter, value) => Line::Let(*letter, *value),
        Statement::Compute(letter, left, operator, right) => {
            Line::Compute(*letter, *left, *operator, *right)
        }
        Statement::Return(value) => Line::Return(*value),
        Statement::Call(call) => Line::Call(*call),
        Statement::Sleep(time) => Line::Sleep(*time),
        Statement::Create(creation) => Line::Create(*creation),
        Statement::Destroy(window) => Line::Destroy(*window),
        Statement::Compound(compound) => Line::Compound(*compound),
        Statement::Default => Line::Default,
        _ => unreachable!(),
    }
}

/// Adds the lines of a statement.
#[cycle(flatten)]
fn put_statement(statement: &Statement, lines: &mut Vec<Line>) -> Result<(), AllocError>
    ensures { OnOk result (lines.new.items ≡ lines.old.items ++ statement_lines statement.now) }
{
    match statement {
        Statement::If(test, body) => {
            lines.push(Line::If(*test))?;
            put_body(body, lines)?;
            lines.push(Line::End)?
        }
        Statement::IfElse(test, first, second) => {
            lines.push(Line::If(*test))?;
            put_body(first, lines)?;
            lines.push(Line::Else)?;
            put_body(second, lines)?;
            lines.push(Line::End)?
        }
        Statement::While(test, body) => {
            lines.push(Line::While(*test))?;
            put_body(body, lines)?;
            lines.push(Line::End)?
        }
        _ => lines.push(alone(statement))?,
    }
    Ok(())
}

/// Adds the lines of statements.
#[cycle(flatten)]
fn put_body(statements: &[Statement], lines: &mut Vec<Line>) -> Result<(), AllocError>
    ensures { OnOk result (lines.new.items ≡ lines.old.items ++ body_lines statements.now) }
{
    for statement in statements {
        put_statement(statement, lines)?;
    }
    Ok(())
}

/// The lines of a body, and its `end`.
pub fn flatten(alloc: Global, body: &Body) -> Result<Vec<Line>, AllocError>
    ensures { IfOk result (λ lines. lines.items ≡ body_lines body.now ++ End ∷ []) }
{
    let mut lines = Vec::new(alloc);
    put_body(body.statements(), &mut lines)?;
    lines.push(Line::End)?;
    Ok(lines)
}
