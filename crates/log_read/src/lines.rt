//! Single lines of a log, exactly: what was found is written again, and compared.
#![tactic(auto, using(user_io::proofs::Texts::two))]

ghost use Rattle.std.specs.Prelude.{◌≡◌, ◌↔◌, ◌++◌, ◌∷◌, [], ℕ, List, IsTrue, IfOk, IfSome, Some};
ghost use Rattle.user_model.specs.declared.entry.Entry.{Entry};
ghost use Rattle.user_model.specs.declared.entry.SendCount.{SendCount};
ghost use Rattle.script_lines.specs.Known.{known_of};
ghost use Rattle.script_lines.specs.LineTexts.{joined};
ghost use Rattle.script_lines.specs.NameLimits.{AreKnown};
ghost use Rattle.log_text.specs.declared.end.End.{End};
ghost use Rattle.log_read.specs.declared.log.Extra.{Extra};
ghost use Rattle.log_read.specs.Grammar.{IsRowLine};
ghost use Rattle.log_read.specs.Limits.{IsEntry, IsExtra, AreCounts};
ghost use Rattle.log_read.specs.Reading.{are_colours};
ghost use Rattle.log_read.specs.Words.{entry_words, end_words, extra_words, counts_words};

use crate::ending::{counts_at, end_at, extra_at};
use crate::entries::entry_at;
use crate::log::Extra;
use crate::writer::put_extra;
use log_text::{End, Words, put_end_line, put_entry, put_sends_line};
use script_lines::{split_at, word_at};
use script_tree::Script;
use std::alloc::{AllocError, Global};
use user_model::{Entry, SendCount};

/// Whether a line without its line feed is this text.
fn is_line(line: &[u8], text: &[u8]) -> bool
    ensures { (front : List ℕ) → line.now ≡ front ++ (10 ∷ []) → IsTrue result ↔ (front ≡ text.now) }
{
    let [front @ .., _] = line else {
        return false;
    };
    front == text
}

/// The entry whose line this is.
pub fn entry_of(alloc: Global, words: &Words, text: &[u8]) -> Result<Option<Entry>, AllocError>
    requires named { AreKnown (known_of words.now.script.now) }
    ensures fits { IfOk result (λ found. IfSome found (λ e. IsEntry words.now.script.now e × (text.now ≡ joined (entry_words words.now.script.now e)))) }
    ensures again { IfOk result (λ found. (e : Entry) → IsEntry words.now.script.now e → text.now ≡ joined (entry_words words.now.script.now e) → found ≡ Some e) }
{
    let line = split_at(alloc, text, b' ')?;
    let Some(entry) = entry_at(words, &line) else {
        return Ok(None);
    };
    let mut out = Vec::new(alloc);
    put_entry(&mut out, words, entry)?;
    if !is_line(&out, text) {
        return Ok(None);
    }
    Ok(Some(entry))
}

/// The end whose line this is.
pub fn end_of(alloc: Global, text: &[u8]) -> Result<Option<End>, AllocError>
    ensures fits { IfOk result (λ found. IfSome found (λ end. text.now ≡ joined (end_words end))) }
    ensures again { IfOk result (λ found. (end : End) → text.now ≡ joined (end_words end) → found ≡ Some end) }
{
    let line = split_at(alloc, text, b' ')?;
    let Some(end) = end_at(word_at(&line, 1)) else {
        return Ok(None);
    };
    let mut out = Vec::new(alloc);
    put_end_line(&mut out, end)?;
    if !is_line(&out, text) {
        return Ok(None);
    }
    Ok(Some(end))
}

/// The extra line after this end that this is.
pub fn extra_of(
    alloc: Global,
    words: &Words,
    end: End,
    text: &[u8],
) -> Result<Option<Extra>, AllocError>
    requires named { AreKnown (known_of words.now.script.now) }
    ensures fits { IfOk result (λ found. IfSome found (λ x. IsExtra words.now.script.now end x × (text.now ≡ joined (extra_words words.now.script.now x)))) }
    ensures again { IfOk result (λ found. (x : Extra) → IsExtra words.now.script.now end x → text.now ≡ joined (extra_words words.now.script.now x) → found ≡ Some x) }
{
    let line = split_at(alloc, text, b' ')?;
    let Some(extra) = extra_at(words, end, &line) else {
        return Ok(None);
    };
    let mut out = Vec::new(alloc);
    put_extra(&mut out, words, extra)?;
    if !is_line(&out, text) {
        return Ok(None);
    }
    Ok(Some(extra))
}

/// The counts of sends whose line this is.
pub fn counts_of(alloc: Global, text: &[u8]) -> Result<Option<SendCount>, AllocError>
    ensures fits { IfOk result (λ found. IfSome found (λ c. AreCounts c × (text.now ≡ joined (counts_words c)))) }
    ensures again { IfOk result (λ found. (c : SendCount) → AreCounts c → text.now ≡ joined (counts_words c) → found ≡ Some c) }
{
    let line = split_at(alloc, text, b' ')?;
    let sends = counts_at(&line);
    let mut out = Vec::new(alloc);
    put_sends_line(&mut out, sends)?;
    if !is_line(&out, text) {
        return Ok(None);
    }
    Ok(Some(sends))
}

/// Whether all bytes are digits of colours.
fn are_colours(text: &[u8]) -> bool
    ensures { result ≡ are_colours text.now }
{
    for byte in text {
        if !matches!(*byte, b'0'..=b'9' | b'a'..=b'f') {
            return false;
        }
    }
    true
}

/// Whether this is a row of a frame on the script's screen.
#[tactic(auto)]
pub fn is_row(script: &Script, text: &[u8]) -> bool
    ensures { IsTrue result ↔ IsRowLine script.now text.now }
{
    are_colours(text) && text.len() == usize::from(script.width())
}
