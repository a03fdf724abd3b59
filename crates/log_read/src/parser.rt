//! Taking the text of a log apart, loosely.

ghost use Rattle.std.specs.Prelude.{◌≡◌, ◌∷◌, List, map, option_map, Some, IfSome, IfOk};
ghost use Rattle.std.specs.List.{AllByRecursion};
ghost use Rattle.user_model.specs.declared.entry.SendCount.{SendCount};
ghost use Rattle.script_lines.specs.Known.{known_of};
ghost use Rattle.script_lines.specs.NameLimits.{AreKnown};
ghost use Rattle.log_text.specs.declared.end.End.{End};
ghost use Rattle.log_read.specs.declared.log.Extra.{Extra};
ghost use Rattle.log_read.specs.Limits.{IsExtra, AreCounts, IsLog};
ghost use Rattle.log_read.specs.Logs.{LogTree, spelling};
ghost use Rattle.log_read.specs.Words.{inner_words, end_words, extra_words, counts_words};
ghost use Rattle.script_lines.specs.LineTexts.{joined};

use crate::ending::{counts_at, end_at, extras_at};
use crate::entries::{Body, entries_at};
use crate::log::{Extra, Log};
use log_text::{End, Words};
use script_lines::{split_at, texts_of, word_at};
use std::alloc::{AllocError, Global};
use user_model::SendCount;

/// The end and the extra lines of a log.
#[derive(Drop)]
struct Ending {
    end: End,
    extras: Vec<Extra>,
}

/// The end and the extra lines that these lines say.
fn ending_at(alloc: Global, words: &Words, lines: &[&[u8]]) -> Result<Option<Ending>, AllocError>
    requires named { AreKnown (known_of words.now.script.now) }
    ensures fits { IfOk result (λ found. IfSome found (λ e. AllByRecursion (IsExtra words.now.script.now e.end) e.extras.items)) }
    ensures again { IfOk result (λ found. (end : End) (xs : List Extra) → AllByRecursion (IsExtra words.now.script.now end) xs → map (λ w. w.now) lines.now ≡ map joined (end_words end ∷ map (extra_words words.now.script.now) xs) → (option_map (λ e. e.end) found ≡ Some end) × (option_map (λ e. e.extras.items) found ≡ Some xs)) }
{
    let [first, others @ ..] = lines else {
        return Ok(None);
    };
    let line = split_at(alloc, first, b' ')?;
    let Some(end) = end_at(word_at(&line, 1)) else {
        return Ok(None);
    };
    match extras_at(alloc, words, end, others)? {
        Some(extras) => Ok(Some(Ending { end, extras })),
        None => Ok(None),
    }
}

/// The counts of sends that a line says.
fn sends_at(alloc: Global, text: &[u8]) -> Result<SendCount, AllocError>
    ensures fits { IfOk result AreCounts }
    ensures again { IfOk result (λ sends. (c : SendCount) → AreCounts c → text.now ≡ joined (counts_words c) → sends ≡ c) }
{
    let line = split_at(alloc, text, b' ')?;
    Ok(counts_at(&line))
}

/// The log of these lines between the first and the last, and of this last line.
fn log_at(
    alloc: Global,
    words: &Words,
    lines: &[&[u8]],
    last: &[u8],
) -> Result<Option<Log>, AllocError>
    requires named { AreKnown (known_of words.now.script.now) }
    ensures fits { IfOk result (λ found. IfSome found (IsLog words.now.script.now)) }
    ensures again { IfOk result (λ found. (l : LogTree) → IsLog words.now.script.now l → map (λ w. w.now) lines.now ≡ map joined (inner_words words.now.script.now l) → last.now ≡ joined (counts_words l.sends) → found ≡ Some l) }
{
    let sends = sends_at(alloc, last)?;
    let Some(body) = entries_at(alloc, words, lines)? else {
        return Ok(None);
    };
    let Body { entries, end_place } = body;
    match ending_at(alloc, words, &lines[end_place..])? {
        Some(ending) => Ok(Some(Log::new(entries, ending.end, ending.extras, sends))),
        None => Ok(None),
    }
}

/// The log that a text may spell.
pub fn parse(alloc: Global, words: &Words, bytes: &[u8]) -> Result<Option<Log>, AllocError>
    requires named { AreKnown (known_of words.now.script.now) }
    ensures fits { IfOk result (λ found. IfSome found (IsLog words.now.script.now)) }
    ensures again { IfOk result (λ found. (l : LogTree) → IsLog words.now.script.now l → bytes.now ≡ spelling words.now.script.now l → found ≡ Some l) }
{
    let texts = texts_of(alloc, bytes)?;
    let [_, lines @ .., last] = texts.as_slice() else {
        return Ok(None);
    };
    log_at(alloc, words, lines, last)
}
