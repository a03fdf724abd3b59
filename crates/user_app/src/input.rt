//! The input: a script, and for a check a log of it behind.

ghost use Rattle.std.specs.Prelude.{◌≡◌, ◌≤◌, ◌++◌, length, map, IfOk, IfErr, IsErrOf};
ghost use Rattle.std.specs.Io.KnownBytes.{Consumes, IsAtEnd};
ghost use Rattle.user_io.specs.Outside.{Rose};
ghost use Rattle.script_text.specs.declared.fault.Refusal.{Refusal};
ghost use Rattle.script_text.specs.Limits.{IsScript};
ghost use Rattle.script_lines.specs.LineReading.{texts_of};
ghost use Rattle.script_text.specs.Spelling.{spelling};
ghost use Rattle.log_read.specs.Limits.{IsLog};
ghost use Rattle.log_read.specs.Logs.{spelling as log_spelling};
ghost use Rattle.user_app.specs.Inputs.{IsInput, HasNoPair, ReadNoPair, early_reason, cut_reason, cut_by, behind};
ghost use Rattle.user_app.specs.Outcomes.{ReadNoScript};

use crate::parts::split_input;
use crate::refusal::TOO_LONG;
use log_read::{Log, read_log};
use script_lines::{is_printable, texts_of};
use script_text::{ReadFault, Reason, Refusal, SCRIPT_LIMIT, read};
use script_tree::Script;
use std::alloc::{AllocError, Global};
use user_io::{ReadEnd, Source, read_all};

/// The most bytes of a script with a log.
pub const CHECK_LIMIT: usize = 268_435_456;

/// Why there is no script, or no script with a log.
#[derive(Clone, Copy, Debug, PartialEq, Eq)]
pub enum InputFault {
    /// The source failed: its count of faults has risen.
    Failed,
    /// The text is none, or it is too long.
    Refused(Refusal),
    /// No memory was left.
    Memory,
}

/// The script that is all that the source has left. Where there is more than a script may have, one byte past that is
/// read, and no further.
pub fn read_script<S: Source>(alloc: Global, source: &mut S) -> Result<Script, InputFault>
    ensures script { IfOk result (λ s. IsScript s) }
    ensures input { IfOk result (λ s. Consumes (S.left source.old) (S.left source.new) (spelling s)) }
    ensures end { IfOk result (λ s. IsAtEnd (S.left source.new)) }
    ensures refused { (refusal : Refusal) → IsErrOf result (InputFault.Refused refusal) → ReadNoScript (S.left source.old) (S.left source.new) refusal }
    ensures failed { IsErrOf result InputFault.Failed → Rose (S.faults source.old) (S.faults source.new) }
    ensures unfailed { IfOk result (λ s. S.faults source.new ≡ S.faults source.old) }
    ensures unfailed_too { (refusal : Refusal) → IsErrOf result (InputFault.Refused refusal) → S.faults source.new ≡ S.faults source.old }
{
    let text = match read_all(alloc, source, SCRIPT_LIMIT) {
        Ok(text) => text,
        Err(ReadEnd::Failed) => return Err(InputFault::Failed),
        Err(ReadEnd::TooLong) => return Err(InputFault::Refused(TOO_LONG)),
        Err(ReadEnd::Memory) => return Err(InputFault::Memory),
    };
    match read(alloc, &text) {
        Ok(script) => Ok(script),
        Err(ReadFault::Refused(refusal)) => Err(InputFault::Refused(refusal)),
        Err(ReadFault::Memory) => Err(InputFault::Memory),
    }
}

/// What is wrong with the first line of a log that stands where its script should go on.
fn early_reason(alloc: Global, log: &[u8]) -> Result<Reason, AllocError>
    ensures { IfOk result (λ reason. reason ≡ early_reason (texts_of log.now)) }
{
    let texts = texts_of(alloc, log)?;
    let [line, ..] = texts.as_slice() else {
        return Ok(Reason::Bytes);
    };
    if is_printable(line) {
        Ok(Reason::Words)
    } else {
        Ok(Reason::Bytes)
    }
}

/// What is wrong with the first bad line of a script, with this log behind it.
fn cut_reason(alloc: Global, reason: Reason, log: &[u8]) -> Result<Reason, AllocError>
    ensures { IfOk result (λ told. told ≡ cut_reason reason log.now) }
{
    match reason {
        Reason::End => {
            if log.is_empty() {
                Ok(Reason::End)
            } else {
                early_reason(alloc, log)
            }
        }
        _ => Ok(reason),
    }
}

/// The refusal of a text whose script is refused so, with this log behind it.
fn cut_by(alloc: Global, log: &[u8], refusal: Refusal) -> Result<Refusal, AllocError>
    ensures { IfOk result (λ told. told ≡ cut_by log.now refusal) }
{
    let reason = cut_reason(alloc, refusal.reason, log)?;
    Ok(Refusal {
        line: refusal.line,
        reason,
    })
}

/// The refusal of a text whose log is refused so, with this script before it.
fn behind(alloc: Global, script: &[u8], refusal: Refusal) -> Result<Refusal, AllocError>
    requires short { length script.now ≤ 1048576 }
    requires few { refusal.line ≤ 268435457 }
    ensures { IfOk result (λ told. told ≡ behind script.now refusal) }
{
    let texts = texts_of(alloc, script)?;
    Ok(Refusal {
        line: texts.len() as u32 + refusal.line,
        reason: refusal.reason,
    })
}

/// The script and the log that a text is. `Refused` comes exactly where it is no script before the first line that
/// begins with the word `log`, or no log of that script from there on; the lines of the log are counted on from those of the script.
/// A script that is too long is told so before its lines are looked at.
pub fn read_pair(alloc: Global, text: &[u8]) -> Result<(Script, Log), ReadFault>
    requires short { length text.now ≤ 268435456 }
    ensures script { IfOk result (λ r. IsScript r.0) }
    ensures log { IfOk result (λ r. IsLog r.0 r.1) }
    ensures text { IfOk result (λ r. text.now ≡ spelling r.0 ++ log_spelling r.0 r.1) }
    ensures cause { IfErr result (HasNoPair text.now) }
{
    let (front, back) = split_input(text);
    if front.len() > SCRIPT_LIMIT {
        return Err(ReadFault::Refused(TOO_LONG));
    }
    let script = match read(alloc, front) {
        Ok(script) => script,
        Err(ReadFault::Refused(refusal)) => {
            return Err(ReadFault::Refused(cut_by(alloc, back, refusal)?));
        }
        Err(ReadFault::Memory) => return Err(ReadFault::Memory),
    };
    match read_log(alloc, &script, back) {
        Ok(log) => Ok((script, log)),
        Err(ReadFault::Refused(refusal)) => {
            Err(ReadFault::Refused(behind(alloc, front, refusal)?))
        }
        Err(ReadFault::Memory) => Err(ReadFault::Memory),
    }
}

/// The script and the log that are all that the source has left. Where there is more than such a text may have, one
/// byte past that is read, and no further.
pub fn read_input<S: Source>(alloc: Global, source: &mut S) -> Result<(Script, Log), InputFault>
    ensures input { IfOk result (λ r. IsInput (S.left source.old) (S.left source.new) r.0 r.1) }
    ensures refused { (refusal : Refusal) → IsErrOf result (InputFault.Refused refusal) → ReadNoPair (S.left source.old) (S.left source.new) refusal }
    ensures failed { IsErrOf result InputFault.Failed → Rose (S.faults source.old) (S.faults source.new) }
    ensures unfailed { IfOk result (λ r. S.faults source.new ≡ S.faults source.old) }
    ensures unfailed_too { (refusal : Refusal) → IsErrOf result (InputFault.Refused refusal) → S.faults source.new ≡ S.faults source.old }
{
    let text = match read_all(alloc, source, CHECK_LIMIT) {
        Ok(text) => text,
        Err(ReadEnd::Failed) => return Err(InputFault::Failed),
        Err(ReadEnd::TooLong) => return Err(InputFault::Refused(TOO_LONG)),
        Err(ReadEnd::Memory) => return Err(InputFault::Memory),
    };
    match read_pair(alloc, &text) {
        Ok(pair) => Ok(pair),
        Err(ReadFault::Refused(refusal)) => Err(InputFault::Refused(refusal)),
        Err(ReadFault::Memory) => Err(InputFault::Memory),
    }
}
