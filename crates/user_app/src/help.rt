//! Help for people where an input was refused.

ghost use Rattle.std.specs.Prelude.{◌≤◌, length, map, IfOk, IfSome};
ghost use Rattle.std.specs.String.{string_bytes};
ghost use Rattle.script_text.specs.declared.fault.ReadFault.TheVariants as reads;
ghost use Rattle.script_text.specs.Refusals.{HasCause};
ghost use Rattle.user_app.specs.Inputs.{IsNoPair};
ghost use Rattle.user_app.specs.Mistakes.{ShowsBadScript, ShowsBadPair, ShowsMistake};

use crate::input::{CHECK_LIMIT, read_pair};
use crate::parts::split_input;
use crate::request::{Request, read_words};
use input_hints::{log_hint, script_hint};
use script_text::{ReadFault, Refusal, read};
use std::alloc::{AllocError, Global};

/// The refusal of a text that is no script.
fn script_refusal(alloc: Global, text: &[u8]) -> Option<Refusal>
    ensures { IfSome result (λ refusal. HasCause text.now (reads.Refused refusal)) }
{
    match read(alloc, text) {
        Err(ReadFault::Refused(refusal)) => Some(refusal),
        _ => None,
    }
}

/// The line for people on a text that is no script.
fn script_mistake(alloc: Global, text: &[u8]) -> Result<Option<Vec<u8>>, AllocError>
    ensures { IfOk result (λ told. IfSome told (λ line. ShowsBadScript text.now line.items)) }
{
    match script_refusal(alloc, text) {
        Some(refusal) => Ok(Some(script_hint(alloc, text, refusal)?)),
        None => Ok(None),
    }
}

/// The refusal of a text that is no script with a log.
fn pair_refusal(alloc: Global, text: &[u8]) -> Option<Refusal>
    requires { length text.now ≤ 268435456 }
    ensures { IfSome result (IsNoPair text.now) }
{
    match read_pair(alloc, text) {
        Err(ReadFault::Refused(refusal)) => Some(refusal),
        _ => None,
    }
}

/// The line for people on a text that is no script with a log.
fn pair_mistake(alloc: Global, text: &[u8]) -> Result<Option<Vec<u8>>, AllocError>
    requires { length text.now ≤ 268435456 }
    ensures { IfOk result (λ told. IfSome told (λ line. ShowsBadPair text.now line.items)) }
{
    let (front, _) = split_input(text);
    let is_script = script_refusal(alloc, front).is_none();
    match pair_refusal(alloc, text) {
        Some(refusal) if is_script => Ok(Some(log_hint(alloc, text, refusal)?)),
        Some(refusal) => Ok(Some(script_hint(alloc, text, refusal)?)),
        None => Ok(None),
    }
}

/// A line for people on an input that is refused where the words ask for what reads it: where the input is bad, the line
/// itself, shortened and printable, and what was expected there. It is a help and no format, and no status rests on it.
/// None comes where the input isn't refused, where it is longer than that of a check may be, and for other words.
pub fn mistake(alloc: Global, words: &[String], input: &[u8]) -> Result<Option<Vec<u8>>, AllocError>
    ensures { IfOk result (λ told. IfSome told (λ line. ShowsMistake (map string_bytes words.now) input.now line.items)) }
{
    match read_words(words) {
        Request::Run(_) | Request::Threads(_) => script_mistake(alloc, input),
        Request::Check if input.len() <= CHECK_LIMIT => pair_mistake(alloc, input),
        _ => Ok(None),
    }
}
