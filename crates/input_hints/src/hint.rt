//! The line for people.
#![tactic(auto, using(user_io::proofs::Texts::two))]

ghost use Rattle.std.specs.Prelude.{◌≡◌, ◌++◌, ℕ, List, IfOk, OnOk, codes};
ghost use Rattle.user_io.specs.Text.{Adds, operand};
ghost use Rattle.input_hints.specs.Hints.{quoted, line_of, place_text, hint_text};

use crate::expected::{log_expected, script_expected};
use crate::shown::put_quoted;
use script_lines::{split_at, word_at};
use script_text::{Reason, Refusal};
use std::alloc::{AllocError, Global};
use user_io::text::{put_operand, put_text};

/// The line of a text that a refusal tells; empty where there is none of this number.
fn line_of<'a>(alloc: Global, text: &'a [u8], refusal: Refusal) -> Result<&'a [u8], AllocError>
    ensures { IfOk result (λ line. line.now ≡ line_of text.now refusal.line) }
{
    let lines = split_at(alloc, text, b'\n')?;
    Ok(word_at(&lines, (refusal.line as usize).saturating_sub(1)))
}

/// Adds where it is: the number of the line, and where there is a line its text.
fn put_place(
    out: &mut Vec<u8>,
    text: &[u8],
    refusal: Refusal,
    line: &[u8],
) -> Result<(), AllocError>
    requires { line.now ≡ line_of text.now refusal.line }
    ensures { OnOk result (Adds out.old.items out.new.items (place_text text.now refusal refusal.reason)) }
{
    match refusal.reason {
        Reason::Long => Ok(()),
        Reason::End => put_number(out, refusal),
        _ => put_numbered(out, refusal, line),
    }
}

/// Adds `line N: `.
fn put_number(out: &mut Vec<u8>, refusal: Refusal) -> Result<(), AllocError>
    ensures { OnOk result (Adds out.old.items out.new.items (codes "line" ++ (operand refusal.line ++ codes ": "))) }
{
    put_text(out, b"line")?;
    put_operand(out, u64::from(refusal.line))?;
    put_text(out, b": ")
}

/// Adds `line N: 'TEXT': `.
fn put_numbered(out: &mut Vec<u8>, refusal: Refusal, line: &[u8]) -> Result<(), AllocError>
    ensures { OnOk result (Adds out.old.items out.new.items (codes "line" ++ (operand refusal.line ++ (codes ": " ++ (quoted line.now ++ codes ": "))))) }
{
    put_text(out, b"line")?;
    put_operand(out, u64::from(refusal.line))?;
    put_text(out, b": ")?;
    put_quoted(out, line)?;
    put_text(out, b": ")
}

/// The whole line.
fn whole_hint(
    alloc: Global,
    text: &[u8],
    refusal: Refusal,
    line: &[u8],
    expected: &[u8],
) -> Result<Vec<u8>, AllocError>
    requires { line.now ≡ line_of text.now refusal.line }
    ensures { IfOk result (λ hint. hint.items ≡ hint_text text.now refusal expected.now) }
{
    let mut out = Vec::new(alloc);
    put_place(&mut out, text, refusal, line)?;
    put_text(&mut out, expected)?;
    put_text(&mut out, b"\n")?;
    Ok(out)
}

/// A line for people: where a script is bad that is refused so, the line itself, shortened and printable, and what was
/// expected there. What is expected is told in free words.
pub fn script_hint(alloc: Global, text: &[u8], refusal: Refusal) -> Result<Vec<u8>, AllocError>
    ensures { IfOk result (λ hint. (expected : List ℕ) × (hint.items ≡ hint_text text.now refusal expected)) }
{
    let line = line_of(alloc, text, refusal)?;
    let expected = script_expected(alloc, refusal.line, refusal.reason, line)?;
    whole_hint(alloc, text, refusal, line, &expected)
}

/// The same where the bad line is one of the log behind a script.
pub fn log_hint(alloc: Global, text: &[u8], refusal: Refusal) -> Result<Vec<u8>, AllocError>
    ensures { IfOk result (λ hint. (expected : List ℕ) × (hint.items ≡ hint_text text.now refusal expected)) }
{
    let line = line_of(alloc, text, refusal)?;
    let expected = log_expected(alloc, refusal.reason, line)?;
    whole_hint(alloc, text, refusal, line, &expected)
}
