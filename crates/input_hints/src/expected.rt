//! What was expected of a line, in words.

use crate::forms::{Stood, first_beyond, first_formless, first_untold};
use crate::shown::put_quoted;
use script_lines::{
    Command, command_at, command_places, has_empty_word, is_printable, line_of_parts, split_at,
    word_at,
};
use script_text::Reason;
use statement_table::Place;
use std::alloc::{AllocError, Global};
use user_io::text::{put_number, put_text};

/// The line of this number, from 1 on, where it stands before the procedures and threads.
fn head_form(number: u32) -> Option<&'static [u8]> {
    match number {
        1 => Some(b"'user 1' stands here"),
        2 => Some(b"'screen W H' stands here, W from 1 to 128 and H from 1 to 64"),
        3 => Some(b"'budget N' stands here, N from 1 to 65536"),
        4 => Some(b"'order' stands here, and behind it at most 65536 numbers from 1 to 15"),
        _ => None,
    }
}

/// What is wrong with the bytes of a line.
pub fn bytes_expected(line: &[u8]) -> &'static [u8] {
    if is_printable(line) {
        b"the line has no line feed at its end"
    } else if line.contains(&b'\r') {
        b"a carriage return; each line ends with a line feed alone"
    } else if line.contains(&b'\t') {
        b"a tab; words stand one space apart, with none before or after"
    } else {
        b"a byte that is no printable ASCII"
    }
}

/// Where such a line can stand, for one that can't stand where it does.
fn standing(command: Command) -> &'static [u8] {
    match command {
        Command::Procedure => b"a procedure stands before all threads, and in no other block",
        Command::Thread => b"a thread stands in no other block; an 'end' may be missing above",
        Command::Else => b"'else' stands in an 'if', once, behind the blocks within",
        Command::Return | Command::Default => b"it stands in procedures alone",
        Command::End => b"no block is open that it could end",
        _ => b"it stands in a procedure or in a thread; an 'end' above may be one too many",
    }
}

/// Adds how many words stand behind the first one of such a line.
fn put_count(out: &mut Vec<u8>, command: Command, word: &[u8]) -> Result<(), AllocError> {
    if matches!(command, Command::Let | Command::Compute) {
        return put_text(out, b"'let V A' or 'let V A OP B' was expected");
    }
    put_text(out, b"words behind ")?;
    put_quoted(out, word)?;
    put_text(out, b": ")?;
    put_number(out, command_places(command).len() as u64)
}

/// Adds what is wrong with the blanks, the first word or the number of words.
fn put_words(out: &mut Vec<u8>, words: &[&[u8]]) -> Result<(), AllocError> {
    if words.len() <= 1 && word_at(words, 0).is_empty() {
        return put_text(out, b"an empty line; a script has none");
    }
    if has_empty_word(words) {
        return put_text(
            out,
            b"words stand one space apart, with none before or after",
        );
    }
    let word = word_at(words, 0);
    let Some(command) = command_at(word, words.len()) else {
        return put_text(out, b"no statement begins with this word");
    };
    if line_of_parts(command, &[]).is_none() {
        return put_text(out, b"no statement makes this call");
    }
    if words.len() != command_places(command).len() + 1 {
        return put_count(out, command, word);
    }
    put_text(out, standing(command))
}

/// What a word has to be in this place.
fn form_of(place: Place) -> &'static [u8] {
    match place {
        Place::Letter => b" is none of the variables a to h",
        Place::Operand => b" is no number, no name of a message or a constant, and no variable",
        Place::Operator => b" is none of + - & |",
        Place::Comparison => b" is none of = != <",
        Place::Name | Place::Beginning | Place::Procedure => {
            b" is no name: a lower-case letter, and at most 31 of a to z, 0 to 9 and _"
        }
    }
}

/// Adds a word, and what is wrong with it.
fn put_stood(out: &mut Vec<u8>, stood: Stood, text: &[u8]) -> Result<(), AllocError> {
    put_quoted(out, stood.word)?;
    put_text(out, text)
}

/// Adds the word with the wrong form.
fn put_formless(out: &mut Vec<u8>, places: &[Place], words: &[&[u8]]) -> Result<(), AllocError> {
    match first_formless(places, words) {
        Some(stood) => put_stood(out, stood, form_of(stood.place)),
        None => put_text(out, b"a word has the wrong form"),
    }
}

/// Adds the name that isn't known.
fn put_untold(
    alloc: Global,
    out: &mut Vec<u8>,
    places: &[Place],
    words: &[&[u8]],
) -> Result<(), AllocError> {
    match first_untold(alloc, places, words) {
        Some(stood) if matches!(stood.place, Place::Procedure) => {
            put_stood(out, stood, b" is no procedure that begins above")
        }
        Some(stood) => put_stood(out, stood, b" is no message and no constant"),
        None => put_text(out, b"a name isn't known"),
    }
}

/// What of a script such a line brings beyond its limit.
fn limit_of(command: Command) -> &'static [u8] {
    match command {
        Command::Procedure => b"a script has at most 64 procedures",
        Command::Thread => b"a script has at most 15 threads",
        Command::If | Command::While => b"blocks nest at most 32 deep",
        _ => b"a script has at most 1024 names of classes, titles and messages",
    }
}

/// Adds the number or the count that is beyond its limit.
fn put_limit(
    out: &mut Vec<u8>,
    command: Command,
    places: &[Place],
    words: &[&[u8]],
) -> Result<(), AllocError> {
    match first_beyond(places, words) {
        Some(stood) => put_stood(
            out,
            stood,
            b" isn't 0 to 18446744073709551615 or -1 to -9223372036854775808",
        ),
        None => put_text(out, limit_of(command)),
    }
}

/// Adds what was expected of a line of procedures and threads with these words.
fn put_code(
    alloc: Global,
    out: &mut Vec<u8>,
    reason: Reason,
    words: &[&[u8]],
) -> Result<(), AllocError> {
    let Some(command) = command_at(word_at(words, 0), words.len()) else {
        return put_words(out, words);
    };
    let places = command_places(command);
    match reason {
        Reason::Operand => put_formless(out, &places, words),
        Reason::Name => put_untold(alloc, out, &places, words),
        Reason::Repeated => put_text(out, b"a procedure of this name stands above"),
        Reason::Limit => put_limit(out, command, &places, words),
        _ => put_words(out, words),
    }
}

/// Adds what was expected of this line of a script, from 1 on.
fn put_line(
    alloc: Global,
    out: &mut Vec<u8>,
    number: u32,
    reason: Reason,
    line: &[u8],
) -> Result<(), AllocError> {
    if let Some(form) = head_form(number) {
        return put_text(out, form);
    }
    let words = split_at(alloc, line, b' ')?;
    put_code(alloc, out, reason, &words)
}

/// What was expected where a script ends too early, behind so many lines but one.
fn end_expected(number: u32) -> &'static [u8] {
    match head_form(number) {
        Some(form) => form,
        None => {
            b"the text ends here; each 'proc', 'thread', 'if' and 'while' has its 'end', and there is a thread"
        }
    }
}

/// What was expected at this line of a script, from 1 on, which is bad for this reason.
pub fn script_expected(
    alloc: Global,
    number: u32,
    reason: Reason,
    line: &[u8],
) -> Result<Vec<u8>, AllocError> {
    let mut out = Vec::new(alloc);
    match reason {
        Reason::Long => put_text(&mut out, b"the text is too long")?,
        Reason::End => put_text(&mut out, end_expected(number))?,
        Reason::Bytes => put_text(&mut out, bytes_expected(line))?,
        _ => put_line(alloc, &mut out, number, reason, line)?,
    }
    Ok(out)
}

/// What was expected at a line of a log that is bad for this reason.
pub fn log_expected(alloc: Global, reason: Reason, line: &[u8]) -> Result<Vec<u8>, AllocError> {
    let text: &[u8] = match reason {
        Reason::Bytes => bytes_expected(line),
        Reason::Words => b"no line of a log has these words here",
        Reason::Operand => b"a word has the wrong form for a log",
        Reason::Name => b"a name that neither the script nor a message has",
        Reason::Repeated | Reason::Limit => b"a number beyond its limit",
        Reason::End => b"the text ends here, and the log isn't whole",
        Reason::Long => b"the text is too long",
    };
    let mut out = Vec::new(alloc);
    put_text(&mut out, text)?;
    Ok(out)
}
