//! The lines of which long scripts mostly consist, straight from their text: a message is posted, taken or sent, and
//! each operand is a number. Such a line is told without a list of its words, and is the one spelling of what it says.

ghost use Rattle.std.specs.Prelude.{◌≡◌, ◌++◌, ◌∷◌, [], codes, decimal, IfSome};
ghost use Rattle.std.specs.List.{flat_map};
ghost use Rattle.script_lines.specs.LineReading.{split_at};
ghost use Rattle.script_lines.specs.LineTexts.{blank_word};
ghost use Rattle.script_lines.specs.Frequent.{IsFrequent};
ghost use Rattle.script_lines.specs.declared.line.Line.TheVariants.{Call};

use crate::front::Rest;
use script_tree::{CallStatement, Operand};

/// The `get` with the numbers that this text lists.
fn get_call(numbers: &[u8]) -> Option<CallStatement>
    ensures { IfSome result (λ call. IsFrequent (split_at 32 (codes "get" ++ numbers.now)) (Call call)) }
{
    let mut rest = Rest { text: numbers };
    let window = rest.number()?;
    let min = rest.number()?;
    let max = rest.number()?;
    if !rest.text.is_empty() {
        return None;
    }
    Some(CallStatement::Get(
        Operand::Number(window),
        Operand::Number(min),
        Operand::Number(max),
    ))
}

/// The numbers of a line that posts or sends.
#[derive(Clone, Copy)]
struct Posting {
    target: u64,
    message: u64,
    wparam: u64,
    lparam: u64,
}

/// The four numbers that a text lists.
fn four_numbers(text: &[u8]) -> Option<Posting>
    ensures { IfSome result (λ p. text.now ≡ flat_map blank_word (decimal p.target ∷ decimal p.message ∷ decimal p.wparam ∷ decimal p.lparam ∷ [])) }
{
    let mut rest = Rest { text };
    let target = rest.number()?;
    let message = rest.number()?;
    let wparam = rest.number()?;
    let lparam = rest.number()?;
    if !rest.text.is_empty() {
        return None;
    }
    Some(Posting {
        target,
        message,
        wparam,
        lparam,
    })
}

/// The `post` with the numbers that this text lists.
fn post_call(numbers: &[u8]) -> Option<CallStatement>
    ensures { IfSome result (λ call. IsFrequent (split_at 32 (codes "post" ++ numbers.now)) (Call call)) }
{
    let posting = four_numbers(numbers)?;
    Some(CallStatement::Post(
        Operand::Number(posting.target),
        Operand::Number(posting.message),
        Operand::Number(posting.wparam),
        Operand::Number(posting.lparam),
    ))
}

/// The `post_thread` with the numbers that this text lists.
fn post_thread_call(numbers: &[u8]) -> Option<CallStatement>
    ensures { IfSome result (λ call. IsFrequent (split_at 32 (codes "post_thread" ++ numbers.now)) (Call call)) }
{
    let posting = four_numbers(numbers)?;
    Some(CallStatement::PostThread(
        Operand::Number(posting.target),
        Operand::Number(posting.message),
        Operand::Number(posting.wparam),
        Operand::Number(posting.lparam),
    ))
}

/// The `send` with the numbers that this text lists.
fn send_call(numbers: &[u8]) -> Option<CallStatement>
    ensures { IfSome result (λ call. IsFrequent (split_at 32 (codes "send" ++ numbers.now)) (Call call)) }
{
    let posting = four_numbers(numbers)?;
    Some(CallStatement::Send(
        Operand::Number(posting.target),
        Operand::Number(posting.message),
        Operand::Number(posting.wparam),
        Operand::Number(posting.lparam),
    ))
}

/// The call of the line with this text where it is a `get`, `post`, `post_thread` or `send`, and each of its operands
/// is a number. None says nothing of the text.
pub fn numbered_call(text: &[u8]) -> Option<CallStatement>
    ensures { IfSome result (λ call. IsFrequent (split_at 32 text.now) (Call call)) }
{
    match text {
        [b'g', b'e', b't', numbers @ ..] => get_call(numbers),
        [
            b'p',
            b'o',
            b's',
            b't',
            b'_',
            b't',
            b'h',
            b'r',
            b'e',
            b'a',
            b'd',
            numbers @ ..,
        ] => post_thread_call(numbers),
        [b'p', b'o', b's', b't', numbers @ ..] => post_call(numbers),
        [b's', b'e', b'n', b'd', numbers @ ..] => send_call(numbers),
        _ => None,
    }
}
