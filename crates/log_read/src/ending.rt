//! The lines after the entries from their words.

ghost use Rattle.std.specs.Prelude.{◌≡◌, List, map, option_map, find, Some, IfSome, IfOk};
ghost use Rattle.std.specs.List.{AllByRecursion};
ghost use Rattle.std.specs.Str.{bytes_eq};
ghost use Rattle.user_model.specs.declared.entry.SendCount.{SendCount};
ghost use Rattle.script_lines.specs.Known.{known_of};
ghost use Rattle.script_lines.specs.LineTexts.{joined};
ghost use Rattle.script_lines.specs.NameLimits.{AreKnown};
ghost use Rattle.log_text.specs.declared.end.End.{End};
ghost use Rattle.log_read.specs.declared.log.Extra.{Extra};
ghost use Rattle.log_read.specs.Limits.{IsExtra, AreCounts};
ghost use Rattle.log_read.specs.Reading.{end_at};
ghost use Rattle.log_text.specs.Endings.{end_word};
ghost use Rattle.log_read.specs.Words.{extra_words, counts_words};

use crate::entries::{actor_at, call_at};
use crate::log::Extra;
use crate::values::small_at;
use log_text::{End, Words, end_word};
use script_lines::{split_at, word_at};
use std::alloc::{AllocError, Global};
use user_model::SendCount;

static ENDS: [End; 4] = [End::Done, End::Stuck, End::Spent, End::Cut];

/// The first of these ends that has the word.
fn end_in(all: &[End], word: &[u8]) -> Option<End>
    ensures { result ≡ find (λ e. bytes_eq (end_word e) word.now) all.now }
{
    for end in all {
        if end_word(*end).as_bytes() == word {
            return Some(*end);
        }
    }
    None
}

/// The end with this word.
#[tactic(auto, unfolding(crate::specs::Reading::end_at))]
pub fn end_at(word: &[u8]) -> Option<End>
    ensures { result ≡ end_at word.now }
{
    end_in(&ENDS, word)
}

/// The extra line with these words. None comes after an end that has no extra lines.
pub fn extra_at(words: &Words, end: End, line: &[&[u8]]) -> Option<Extra>
    requires named { AreKnown (known_of words.now.script.now) }
    ensures fits { IfSome result (IsExtra words.now.script.now end) }
    ensures again { (x : Extra) → IsExtra words.now.script.now end x → map (λ w. w.now) line.now ≡ extra_words words.now.script.now x → result ≡ Some x }
{
    let thread = actor_at(word_at(line, 1))?;
    match end {
        End::Stuck => {
            let call = call_at(words, line, 2)?;
            Some(Extra::Waits(thread, call))
        }
        End::Spent => Some(Extra::Spent(thread)),
        End::Done | End::Cut => None,
    }
}

/// The extra lines. None comes where one of them is none.
pub fn extras_at(
    alloc: Global,
    words: &Words,
    end: End,
    lines: &[&[u8]],
) -> Result<Option<Vec<Extra>>, AllocError>
    requires named { AreKnown (known_of words.now.script.now) }
    ensures fits { IfOk result (λ found. IfSome found (λ xs. AllByRecursion (IsExtra words.now.script.now end) xs.items)) }
    ensures again { IfOk result (λ found. (xs : List Extra) → AllByRecursion (IsExtra words.now.script.now end) xs → map (λ w. w.now) lines.now ≡ map joined (map (extra_words words.now.script.now) xs) → option_map (λ v. v.items) found ≡ Some xs) }
{
    let mut extras = Vec::new(alloc);
    for text in lines {
        let line = split_at(alloc, text, b' ')?;
        let Some(extra) = extra_at(words, end, &line) else {
            return Ok(None);
        };
        extras.push(extra)?;
    }
    Ok(Some(extras))
}

/// The counts of sends.
pub fn counts_at(line: &[&[u8]]) -> SendCount
    ensures fits { AreCounts result }
    ensures again { (c : SendCount) → AreCounts c → map (λ w. w.now) line.now ≡ counts_words c → result ≡ c }
{
    SendCount {
        begun: small_at(word_at(line, 2)),
        entered: small_at(word_at(line, 4)),
        by_proc: small_at(word_at(line, 6)),
        by_reply: small_at(word_at(line, 8)),
        by_loss: small_at(word_at(line, 10)),
        by_timeout: small_at(word_at(line, 12)),
        unfinished: small_at(word_at(line, 14)),
    }
}
