//! The first bad line of a text, and what is wrong there: one fold over the lines, by what may stand next.

ghost use Rattle.std.specs.Prelude.{◌≡◌, ◌+◌, ◌-◌, ◌^◌, ◌++◌, ◌∷◌, [], ℕ, List, map, min, Some, None, IfOk, IfSome};
ghost use Rattle.script_lines.specs.Known.{known_of};
ghost use Rattle.script_lines.specs.LineReading.{split_at};
ghost use Rattle.script_lines.specs.NameLimits.{AreKnown};
ghost use Rattle.log_read.specs.declared.phase.Phase.{Phase};
ghost use Rattle.log_read.specs.Grammar.{IsStep};
ghost use Rattle.log_read.specs.Judging.{IsBadAt, AreGood};
ghost use Rattle.log_read.specs.Refusals.{IsNoLog, IsFirstBad};

use crate::lines::{counts_of, end_of, entry_of, extra_of, is_row};
use crate::phase::{Phase, below_entry, with_rows};
use crate::reasons::line_reason;
use log_text::{End, Words};
use script_lines::split_at;
use script_text::{Reason, Refusal};
use std::alloc::{AllocError, Global};

/// What may stand behind an entry or the line of the end. None comes where the text is neither.
fn after_entries(alloc: Global, words: &Words, text: &[u8]) -> Result<Option<Phase>, AllocError>
    requires named { AreKnown (known_of words.now.script.now) }
    ensures taken { IfOk result (λ found. IfSome found (IsStep words.now.script.now Phase.Entries text.now)) }
    ensures again { IfOk result (λ found. (next : Phase) → IsStep words.now.script.now Phase.Entries text.now next → found ≡ Some next) }
{
    if let Some(end) = end_of(alloc, text)? {
        return Ok(Some(Phase::Extras(end)));
    }
    match entry_of(alloc, words, text)? {
        Some(entry) => Ok(Some(below_entry(words.script, entry.answer))),
        None => Ok(None),
    }
}

/// What may stand behind an extra line after this end or the counts of sends. None comes where the text is neither.
fn after_extras(
    alloc: Global,
    words: &Words,
    end: End,
    text: &[u8],
) -> Result<Option<Phase>, AllocError>
    requires named { AreKnown (known_of words.now.script.now) }
    ensures taken { IfOk result (λ found. IfSome found (IsStep words.now.script.now (Phase.Extras end) text.now)) }
    ensures again { IfOk result (λ found. (next : Phase) → IsStep words.now.script.now (Phase.Extras end) text.now next → found ≡ Some next) }
{
    if extra_of(alloc, words, end, text)?.is_some() {
        return Ok(Some(Phase::Extras(end)));
    }
    if counts_of(alloc, text)?.is_some() {
        return Ok(Some(Phase::Over));
    }
    Ok(None)
}

/// What may stand behind a text, where this may stand. None comes where the text can't stand there.
fn after_line(
    alloc: Global,
    words: &Words,
    phase: Phase,
    text: &[u8],
) -> Result<Option<Phase>, AllocError>
    requires named { AreKnown (known_of words.now.script.now) }
    ensures taken { IfOk result (λ found. IfSome found (IsStep words.now.script.now phase text.now)) }
    ensures again { IfOk result (λ found. (next : Phase) → IsStep words.now.script.now phase text.now next → found ≡ Some next) }
{
    match phase {
        Phase::First => {
            if text == b"log 1".as_slice() {
                Ok(Some(Phase::Entries))
            } else {
                Ok(None)
            }
        }
        Phase::Entries => after_entries(alloc, words, text),
        Phase::Rows(more) => {
            if is_row(words.script, text) {
                Ok(Some(with_rows(more)))
            } else {
                Ok(None)
            }
        }
        Phase::Extras(end) => after_extras(alloc, words, end, text),
        Phase::Over => Ok(None),
    }
}

/// The first of these lines with which no log begins: how many stand before it, and what is wrong there.
fn first_bad(
    alloc: Global,
    words: &Words,
    texts: &[&[u8]],
) -> Result<Option<(usize, Reason)>, AllocError>
    requires named { AreKnown (known_of words.now.script.now) }
    ensures bad { IfOk result (λ found. IfSome found (λ x. IsBadAt words.now.script.now (map (λ w. w.now) texts.now) x.0 x.1)) }
    ensures good { IfOk result (λ found. found ≡ None → AreGood words.now.script.now (map (λ w. w.now) texts.now)) }
{
    let mut phase = Phase::First;
    for (before, text) in texts.iter().enumerate() {
        let Some(next) = after_line(alloc, words, phase, text)? else {
            let reason = line_reason(alloc, words, phase, text)?;
            return Ok(Some((before, reason)));
        };
        phase = next;
    }
    Ok(None)
}

/// The refusal of the line behind so many others.
fn refusal_at(before: usize, reason: Reason) -> Refusal
    ensures { (result.line ≡ min (before + 1) (2 ^ 32 - 1)) × (result.reason ≡ reason) }
{
    Refusal {
        line: before.min(4_294_967_294) as u32 + 1,
        reason,
    }
}

/// The first bad line of a text with these whole lines and this rest behind them, and what is wrong there.
fn refusal_of(
    alloc: Global,
    words: &Words,
    texts: &[&[u8]],
    rest: &[u8],
) -> Result<Refusal, AllocError>
    requires named { AreKnown (known_of words.now.script.now) }
    ensures { IfOk result (λ refusal. (bytes : List ℕ) → map (λ w. w.now) texts.now ++ rest.now ∷ [] ≡ split_at 10 bytes → IsFirstBad words.now.script.now bytes refusal) }
{
    if let Some((before, reason)) = first_bad(alloc, words, texts)? {
        return Ok(refusal_at(before, reason));
    }
    if rest.is_empty() {
        Ok(refusal_at(texts.len(), Reason::End))
    } else {
        Ok(refusal_at(texts.len(), Reason::Bytes))
    }
}

/// The first bad line of a text that is no log of the script, and what is wrong there.
pub fn first_refusal(alloc: Global, words: &Words, bytes: &[u8]) -> Result<Refusal, AllocError>
    requires named { AreKnown (known_of words.now.script.now) }
    requires other { IsNoLog words.now.script.now bytes.now }
    ensures { IfOk result (IsFirstBad words.now.script.now bytes.now) }
{
    let mut texts = split_at(alloc, bytes, b'\n')?;
    match texts.pop() {
        Some(rest) => refusal_of(alloc, words, &texts, rest),
        None => Ok(refusal_at(0, Reason::End)),
    }
}
