//! The script that is made from a number.

ghost use Rattle.std.specs.Prelude.{◌≡◌, ◌<◌, ◌≤◌, [], ◌∷◌, ◌++◌, IfOk};
ghost use Rattle.script_lines.specs.declared.line.Line.TheVariants.{While, End};
ghost use Rattle.script_text.specs.Lines.{statement_lines, body_lines};
ghost use Rattle.user_app.specs.Made.{IsMade, letter, post, get_any, fewer, goes_on, sender_lines, receiver_lines};

use script_tree::{
    Body, CallStatement, Comparison, Letter, Operand, Operator, Script, Statement, Test, Variable,
};
use std::alloc::{AllocError, Global};
use win_num::names::WM_QUIT;

/// The first message of a class's own (Microsoft, WM_USER).
const WM_USER: u32 = 1024;

/// A letter as an operand.
fn letter(name: Letter) -> Operand
    ensures { result ≡ letter name }
{
    Operand::Variable(Variable::Letter(name))
}

/// The post of a message to the second thread.
fn post(message: u32, wparam: Operand) -> CallStatement
    ensures { result ≡ post message wparam }
{
    CallStatement::PostThread(
        Operand::Number(2),
        Operand::Message(message),
        wparam,
        Operand::Number(0),
    )
}

/// The next message, whichever it is.
fn get_any() -> CallStatement
    ensures { result ≡ get_any }
{
    CallStatement::Get(Operand::Number(0), Operand::Number(0), Operand::Number(0))
}

/// Whether the posts are not yet so many.
fn fewer(count: u32) -> Test
    ensures { result ≡ fewer count }
{
    Test {
        left: letter(Letter::A),
        comparison: Comparison::Below,
        right: Operand::Number(u64::from(count)),
    }
}

/// Whether the last message was not that of quit.
fn goes_on() -> Test
    ensures { result ≡ goes_on }
{
    Test {
        left: Operand::Variable(Variable::Result),
        comparison: Comparison::Equal,
        right: Operand::Number(1),
    }
}

/// A loop over these statements.
fn looped(test: Test, pass: Vec<Statement>) -> Statement
    ensures { statement_lines result ≡ While test ∷ (body_lines pass.items ++ End ∷ []) }
{
    Statement::While(test, pass)
}

/// Two statements.
fn pair(alloc: Global, first: Statement, second: Statement) -> Result<Vec<Statement>, AllocError>
    ensures { IfOk result (λ body. body.items ≡ first ∷ second ∷ []) }
{
    let mut body = Vec::new(alloc);
    body.push(first)?;
    body.push(second)?;
    Ok(body)
}

/// The thread that posts so many messages, and then quit.
fn sender(alloc: Global, count: u32) -> Result<Vec<Statement>, AllocError>
    ensures { IfOk result (λ body. body_lines body.items ≡ sender_lines count) }
{
    let counted = letter(Letter::A);
    let next = Statement::Call(post(WM_USER, counted));
    let one_more = Statement::Compute(Letter::A, counted, Operator::Plus, Operand::Number(1));
    let pass = pair(alloc, next, one_more)?;
    let last = Statement::Call(post(WM_QUIT, Operand::Number(0)));
    pair(alloc, looped(fewer(count), pass), last)
}

/// The thread that adds up what it gets, until quit.
fn receiver(alloc: Global) -> Result<Vec<Statement>, AllocError>
    ensures { IfOk result (λ body. body_lines body.items ≡ receiver_lines) }
{
    let got = Operand::Variable(Variable::GotWparam);
    let add = Statement::Compute(Letter::B, letter(Letter::B), Operator::Plus, got);
    let pass = pair(alloc, add, Statement::Call(get_any()))?;
    pair(alloc, Statement::Call(get_any()), looped(goes_on(), pass))
}

/// The script that is made from a number from 1 to 60000. `AllocError` comes only for want of memory.
pub fn made_script(alloc: Global, count: u32) -> Result<Script, AllocError>
    requires some { 0 < count }
    requires few { count ≤ 60000 }
    ensures { IfOk result (λ script. IsMade count script) }
{
    let mut threads = Vec::new(alloc);
    threads.push(Body::new(sender(alloc, count)?))?;
    threads.push(Body::new(receiver(alloc)?))?;
    Ok(Script::new(
        8,
        4,
        65536,
        Vec::new(alloc),
        Vec::new(alloc),
        Vec::new(alloc),
        threads,
    ))
}
