//! Entries from their words.

ghost use Rattle.std.specs.Prelude.{◌≡◌, ◌<◌, ◌≤◌, ◌++◌, ◌∷◌, List, ℕ, length, map, option_map, true, Some, IfSome, IfOk};
ghost use Rattle.std.specs.List.{AllByRecursion};
ghost use Rattle.user_model.specs.declared.call.Call.{Call};
ghost use Rattle.user_model.specs.declared.entry.Answer.{Answer};
ghost use Rattle.user_model.specs.declared.entry.Entry.{Entry};
ghost use Rattle.script_lines.specs.Known.{known_of};
ghost use Rattle.script_lines.specs.LineTexts.{joined};
ghost use Rattle.script_lines.specs.NameLimits.{AreKnown};
ghost use Rattle.log_read.specs.Limits.{IsCall, IsAnswer, IsEntry, IsLogEntry, keeps_frame};
ghost use Rattle.log_read.specs.Logs.{LogEntryTree};
ghost use Rattle.log_read.specs.Reading.{actor_at, is_end_line, line_count};
ghost use Rattle.log_read.specs.Words.{call_words, answer_words, entry_words, frame_words, entries_words};

use crate::frames::frame_at;
use crate::log::LogEntry;
use crate::values::values_at;
use answer_table::{answer_form, answer_named, answer_of_parts};
use call_table::{call_form, call_name, call_named, call_of_parts};
use log_text::Words;
use script_lines::{number_at, split_at, word_at};
use script_tree::Script;
use std::alloc::{AllocError, Global};
use user_model::{Answer, Call, Entry};
use win_num::Thread;

/// The greatest number of an actor.
const LAST_ACTOR: u64 = 15;

/// The actor with this number. None comes where it is above 15.
#[tactic(auto, unfolding(crate::specs::Reading::actor_at))]
pub fn actor_at(word: &[u8]) -> Option<Thread>
    ensures found { result ≡ actor_at word.now }
    ensures fits { IfSome result (λ t. t.0 ≤ 15) }
{
    let number = number_at(word);
    if number <= LAST_ACTOR {
        Some(Thread(number as u8))
    } else {
        None
    }
}

/// The call whose word stands at a place, and whose fields stand behind it.
pub fn call_at(words: &Words, line: &[&[u8]], at: usize) -> Option<Call>
    requires named { AreKnown (known_of words.now.script.now) }
    requires near { at ≤ 255 }
    ensures fits { IfSome result (IsCall words.now.script.now) }
    ensures again { (c : Call) (front rest : List (List ℕ)) → IsCall words.now.script.now c → map (λ w. w.now) line.now ≡ front ++ call_words words.now.script.now c rest → at ≡ length front → result ≡ Some c }
{
    let name = call_named(word_at(line, at))?;
    let values = values_at(words, call_form(name).fields, line, at + 1)?;
    call_of_parts(name, &values)
}

/// The answer whose word stands at a place, and whose fields stand behind it.
fn answer_at(words: &Words, line: &[&[u8]], at: usize) -> Option<Answer>
    requires named { AreKnown (known_of words.now.script.now) }
    requires near { at ≤ 255 }
    ensures fits { IfSome result (IsAnswer words.now.script.now) }
    ensures again { (a : Answer) (front : List (List ℕ)) → IsAnswer words.now.script.now a → map (λ w. w.now) line.now ≡ front ++ answer_words words.now.script.now a → at ≡ length front → result ≡ Some a }
{
    let name = answer_named(word_at(line, at))?;
    let values = values_at(words, answer_form(name).fields, line, at + 1)?;
    answer_of_parts(name, &values)
}

/// The entry with these words.
pub fn entry_at(words: &Words, line: &[&[u8]]) -> Option<Entry>
    requires named { AreKnown (known_of words.now.script.now) }
    ensures fits { IfSome result (IsEntry words.now.script.now) }
    ensures again { (e : Entry) → IsEntry words.now.script.now e → map (λ w. w.now) line.now ≡ entry_words words.now.script.now e → result ≡ Some e }
{
    let who = actor_at(word_at(line, 0))?;
    let call = call_at(words, line, 1)?;
    let answer = answer_at(words, line, 3 + call_form(call_name(call)).fields.len())?;
    Some(Entry { who, call, answer })
}

/// Whether the entry of an answer kept a frame, whose lines stand behind its own.
pub fn keeps_frame(answer: Answer) -> bool
    ensures { result ≡ keeps_frame answer }
{
    matches!(answer, Answer::Snap(_))
}

/// How many lines an entry has that was answered so: its own, and where it kept a frame the rows of the screen.
fn line_count(script: &Script, answer: Answer) -> usize
    ensures count { result ≡ line_count script.now answer }
    ensures some { 0 < result }
    ensures few { result ≤ 65536 }
{
    if keeps_frame(answer) {
        usize::from(script.height()) + 1
    } else {
        1
    }
}

/// The entry of this line, with its frame, where it kept one, from the first lines below.
fn log_entry_at(
    alloc: Global,
    words: &Words,
    text: &[u8],
    below: &[&[u8]],
) -> Result<Option<LogEntry>, AllocError>
    requires named { AreKnown (known_of words.now.script.now) }
    ensures fits { IfOk result (λ found. IfSome found (IsLogEntry words.now.script.now)) }
    ensures again { IfOk result (λ found. (e : LogEntryTree) (rest : List (List ℕ)) → IsLogEntry words.now.script.now e → text.now ≡ joined (entry_words words.now.script.now e.entry) → map (λ w. w.now) below.now ≡ map joined (frame_words words.now.script.now e.frame) ++ rest → found ≡ Some e) }
{
    let line = split_at(alloc, text, b' ')?;
    let Some(entry) = entry_at(words, &line) else {
        return Ok(None);
    };
    if !keeps_frame(entry.answer) {
        return Ok(Some(LogEntry::new(entry, None)));
    }
    let Some(colours) = frame_at(alloc, words.script, below)? else {
        return Ok(None);
    };
    Ok(Some(LogEntry::new(entry, Some(colours))))
}

/// Whether a line that is no row of a frame begins with an e, as that of the end does, and those of entries don't.
fn is_end_line(text: &[u8]) -> bool
    ensures { result ≡ is_end_line text.now }
{
    matches!(text, [b'e', ..])
}

/// The entries of a log's lines, and the place of the line behind them, that of the end.
#[derive(Drop)]
pub struct Body {
    pub entries: Vec<LogEntry>,
    pub end_place: usize,
}

/// The entries of these lines, each with its frame, up to the line of the end. None comes where a line above it is
/// none of an entry, where rows of a frame are wanting, or where no line is that of the end.
pub fn entries_at(alloc: Global, words: &Words, lines: &[&[u8]]) -> Result<Option<Body>, AllocError>
    requires named { AreKnown (known_of words.now.script.now) }
    ensures fits { IfOk result (λ found. IfSome found (λ body. AllByRecursion (IsLogEntry words.now.script.now) body.entries.items)) }
    ensures within { IfOk result (λ found. IfSome found (λ body. body.end_place < length lines.now)) }
    ensures again { IfOk result (λ found. (es : List LogEntryTree) (end : List ℕ) (rest : List (List ℕ)) → AllByRecursion (IsLogEntry words.now.script.now) es → is_end_line end ≡ true → map (λ w. w.now) lines.now ≡ map joined (entries_words words.now.script.now es) ++ end ∷ rest → (option_map (λ body. body.entries.items) found ≡ Some es) × (option_map (λ body. body.end_place) found ≡ Some (length (entries_words words.now.script.now es)))) }
{
    let mut entries = Vec::new(alloc);
    let mut place = 0;
    while place < lines.len() {
        if is_end_line(lines[place]) {
            return Ok(Some(Body {
                entries,
                end_place: place,
            }));
        }
        let Some(entry) = log_entry_at(alloc, words, lines[place], &lines[place + 1..])? else {
            return Ok(None);
        };
        place += line_count(words.script, entry.entry().answer);
        entries.push(entry)?;
    }
    Ok(None)
}
