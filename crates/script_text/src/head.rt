//! The lines before the procedures and threads, one by one.

ghost use Rattle.std.specs.Prelude.{◌≡◌, ◌++◌, ◌∷◌, [], map, decimal, drop, length, OnOk, IfOk};
ghost use Rattle.std.specs.List.{flat_map, list_all};
ghost use Rattle.user_io.specs.Text.{Adds};
ghost use Rattle.script_lines.specs.LineReading.{number_at, split_at};
ghost use Rattle.script_lines.specs.LineTexts.{blank_word};
ghost use Rattle.script_text.specs.Grammar.{head_word, is_between, are_head_numbers, head_text};
ghost use Rattle.script_text.specs.Heads.{is_head_text, numbers_behind};
ghost use Rattle.script_text.specs.Limits.{is_turn};
ghost use Rattle.script_text.specs.Reasons.{is_head_length, is_head_form, head_reason};

use crate::fault::Reason;
use script_lines::{has_empty_word, is_decimal, number_at, split_at, word_at};
use std::alloc::{AllocError, Global};
use user_io::text::{put_operand as put_decimal, put_text};

/// A line before the procedures and threads.
#[derive(Clone, Copy)]
pub enum HeadLine {
    /// `user 1`
    User,
    /// `screen W H`
    Screen,
    /// `budget N`
    Budget,
    /// `order T*`
    Order,
}

/// The first word of such a line.
fn head_word(line: HeadLine) -> &'static [u8]
    ensures { result.now ≡ head_word line }
{
    match line {
        HeadLine::User => b"user",
        HeadLine::Screen => b"screen",
        HeadLine::Budget => b"budget",
        HeadLine::Order => b"order",
    }
}

/// Whether such a line has so many words, the first one counted.
fn is_head_length(line: HeadLine, words: usize) -> bool
    ensures { result ≡ is_head_length line words }
{
    match line {
        HeadLine::User => words == 2,
        HeadLine::Screen => words == 3,
        HeadLine::Budget => words == 2,
        HeadLine::Order => 1 <= words,
    }
}

/// Whether a further word of such a line has its form.
fn is_head_form(line: HeadLine, word: &[u8]) -> bool
    ensures { result ≡ is_head_form line word.now }
{
    match line {
        HeadLine::User => word == b"1".as_slice(),
        _ => is_decimal(word),
    }
}

/// Whether all words of such a line have this form.
fn all_head_forms(line: HeadLine, words: &[&[u8]]) -> bool
    ensures { result ≡ list_all (is_head_form line) (map (λ w. w.now) words.now) }
{
    for word in words {
        if !is_head_form(line, word) {
            return false;
        }
    }
    true
}

/// Whether all further words of such a line have their form.
fn has_head_form(line: HeadLine, words: &[&[u8]]) -> bool
    ensures { result ≡ list_all (is_head_form line) (drop 1 (map (λ w. w.now) words.now)) }
{
    let [_, rest @ ..] = words else {
        return true;
    };
    all_head_forms(line, rest)
}

/// What is wrong with a line that stands in the place of this one, and isn't it.
pub fn head_reason(line: HeadLine, words: &[&[u8]]) -> Reason
    ensures { result ≡ head_reason line (map (λ w. w.now) words.now) }
{
    if has_empty_word(words)
        || word_at(words, 0) != head_word(line)
        || !is_head_length(line, words.len())
    {
        return Reason::Words;
    }
    if has_head_form(line, words) {
        Reason::Limit
    } else {
        Reason::Operand
    }
}

/// The numbers that words are.
fn numbers_of(alloc: Global, words: &[&[u8]]) -> Result<Vec<u64>, AllocError>
    ensures { IfOk result (λ v. v.items ≡ map number_at (map (λ w. w.now) words.now)) }
{
    let mut numbers = Vec::new(alloc);
    for word in words {
        numbers.push(number_at(word))?;
    }
    Ok(numbers)
}

/// The numbers behind the first word of a line.
fn numbers_behind(alloc: Global, text: &[u8]) -> Result<Vec<u64>, AllocError>
    ensures { IfOk result (λ v. v.items ≡ numbers_behind text.now) }
{
    let words = split_at(alloc, text, b' ')?;
    let [_, rest @ ..] = words.as_slice() else {
        return Ok(Vec::new(alloc));
    };
    numbers_of(alloc, rest)
}

/// Whether all numbers are those of threads.
fn all_threads(order: &[u64]) -> bool
    ensures { result ≡ list_all is_turn order.now }
{
    for turn in order {
        if *turn < 1 || *turn > 15 {
            return false;
        }
    }
    true
}

/// Whether a number is in a range.
fn is_between(least: u64, most: u64, number: u64) -> bool
    ensures { result ≡ is_between least most number }
{
    least <= number && number <= most
}

/// Whether these numbers may stand in such a line.
fn are_head_numbers(line: HeadLine, numbers: &[u64]) -> bool
    ensures { result ≡ are_head_numbers line numbers.now }
{
    match (line, numbers) {
        (HeadLine::User, [version]) => *version == 1,
        (HeadLine::Screen, [width, height]) => {
            is_between(1, 128, *width) && is_between(1, 64, *height)
        }
        (HeadLine::Budget, [budget]) => is_between(1, 65536, *budget),
        (HeadLine::Order, _) => all_threads(numbers) && numbers.len() <= 65536,
        _ => false,
    }
}

/// Adds a blank and a number, for each number.
fn put_numbers(out: &mut Vec<u8>, numbers: &[u64]) -> Result<(), AllocError>
    ensures { OnOk result (Adds out.old.items out.new.items (flat_map blank_word (map decimal numbers.now))) }
{
    for number in numbers {
        put_decimal(out, *number)?;
    }
    Ok(())
}

/// The text of such a line with these numbers, without its line feed.
#[tactic(auto, using(user_io::proofs::Texts::two))]
fn head_text(alloc: Global, line: HeadLine, numbers: &[u64]) -> Result<Vec<u8>, AllocError>
    ensures { IfOk result (λ out. out.items ≡ head_text line numbers.now) }
{
    let mut out = Vec::new(alloc);
    put_text(&mut out, head_word(line))?;
    put_numbers(&mut out, numbers)?;
    Ok(out)
}

/// Whether a text is such a line, within its limits. Only want of memory is an error.
#[tactic(auto, unfolding(crate::specs::Heads::is_head_text))]
pub fn is_head(alloc: Global, line: HeadLine, text: &[u8]) -> Result<bool, AllocError>
    ensures { IfOk result (λ good. good ≡ is_head_text line text.now) }
{
    let numbers = numbers_behind(alloc, text)?;
    if !are_head_numbers(line, &numbers) {
        return Ok(false);
    }
    let spelled = head_text(alloc, line, &numbers)?;
    Ok(spelled.as_slice() == text)
}
