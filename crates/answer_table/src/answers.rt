//! The forms of answers: each group has its rows in a file of its own.

ghost use Rattle.std.specs.Prelude.{◌≡◌, map, find, option_map, Some, IfSome};
ghost use Rattle.std.specs.Option.{option_or};
ghost use Rattle.std.specs.Str.{bytes_eq};
ghost use Rattle.user_model.specs.declared.entry.Answer.{Answer};
ghost use Rattle.call_fields.specs.Forms.{read_form};
ghost use Rattle.call_fields.specs.Values.{field_of};
ghost use Rattle.answer_table.specs.declared.answers.AnswerName.{AnswerName};
ghost use Rattle.answer_table.specs.Answers.{IsAnswerOf, answer_named, answer_name, answer_parts, answer_row, found_split, made_answer};
ghost use Rattle.answer_table.specs.Splits.{read_split};

use crate::drawing::{DRAWING_ANSWERS, DrawingAnswer, drawing_form, made_drawing, split_drawing};
use crate::messages::{MESSAGE_ANSWERS, MessageAnswer, made_message, message_form, split_message};
use crate::plain::{PLAIN_ANSWERS, PlainAnswer, made_plain, plain_form, split_plain};
use crate::sends::{SEND_ANSWERS, SendAnswer, made_send, send_form, split_send};
use crate::split::SplitAnswer;
use call_fields::{Form, Value, Values};
use user_model::Answer;

/// The forms of answers, by groups.
#[derive(Clone, Copy, Debug, PartialEq, Eq)]
pub enum AnswerName {
    /// It speaks of no message and no send.
    Plain(PlainAnswer),
    /// It speaks of a message.
    Message(MessageAnswer),
    /// It speaks of a send.
    Send(SendAnswer),
    /// It speaks of the pixels of a window or of the screen.
    Drawing(DrawingAnswer),
}

/// The word of a form, and the kinds of its fields.
pub fn answer_form(name: AnswerName) -> Form
    ensures { read_form result ≡ answer_row name }
{
    match name {
        AnswerName::Plain(name) => plain_form(name),
        AnswerName::Message(name) => message_form(name),
        AnswerName::Send(name) => send_form(name),
        AnswerName::Drawing(name) => drawing_form(name),
    }
}

/// The first of these forms that has the word.
fn answer_in(answers: &[AnswerName], word: &[u8]) -> Option<AnswerName>
    ensures { result ≡ find (λ n. bytes_eq (answer_row n).word word.now) answers.now }
{
    for name in answers {
        if answer_form(*name).word == word {
            return Some(*name);
        }
    }
    None
}

/// What was found, else the first of these forms that has the word.
fn or_in(found: Option<AnswerName>, answers: &[AnswerName], word: &[u8]) -> Option<AnswerName>
    ensures { result ≡ option_or found (find (λ n. bytes_eq (answer_row n).word word.now) answers.now) }
{
    match found {
        Some(name) => Some(name),
        None => answer_in(answers, word),
    }
}

/// The form of an answer with this word. None comes exactly where none has it.
#[tactic(auto, unfolding(crate::specs::Answers::answer_named))]
pub fn answer_named(word: &[u8]) -> Option<AnswerName>
    ensures value { result ≡ answer_named word.now }
    ensures found { IfSome result (λ n. (answer_row n).word ≡ word.now) }
    ensures back { (n : AnswerName) → (answer_row n).word ≡ word.now → result ≡ Some n }
{
    let found = answer_in(&PLAIN_ANSWERS, word);
    let found = or_in(found, &MESSAGE_ANSWERS, word);
    let found = or_in(found, &SEND_ANSWERS, word);
    or_in(found, &DRAWING_ANSWERS, word)
}

/// An answer taken apart by the first group that has it. The groups after it are not asked.
fn found_split(answer: Answer) -> Option<SplitAnswer>
    ensures { option_map read_split result ≡ found_split answer }
{
    if let Some(split) = split_plain(answer) {
        return Some(split);
    }
    if let Some(split) = split_message(answer) {
        return Some(split);
    }
    if let Some(split) = split_send(answer) {
        return Some(split);
    }
    split_drawing(answer)
}

/// An answer taken apart: which form it has, and the values of its fields.
pub fn split_answer(answer: Answer) -> SplitAnswer
    ensures name { result.name ≡ answer_name answer }
    ensures value { result.values.items ≡ answer_parts answer }
    ensures fit { map field_of result.values.items ≡ (answer_row result.name).fields }
{
    match found_split(answer) {
        Some(split) => split,
        None => unreachable!(),
    }
}

/// Which form an answer has.
pub fn answer_name(answer: Answer) -> AnswerName
    ensures { result ≡ answer_name answer }
{
    split_answer(answer).name
}

/// The values of the fields of an answer.
pub fn answer_parts(answer: Answer) -> Values
    ensures value { result.items ≡ answer_parts answer }
    ensures fit { map field_of result.items ≡ (answer_row (answer_name answer)).fields }
{
    split_answer(answer).values
}

/// The answer of this form, of the values at its places.
fn made_answer(name: AnswerName, values: &[Value]) -> Answer
    ensures { result ≡ made_answer name values.now }
{
    match name {
        AnswerName::Plain(name) => made_plain(name, values),
        AnswerName::Message(name) => made_message(name, values),
        AnswerName::Send(name) => made_send(name, values),
        AnswerName::Drawing(name) => made_drawing(name, values),
    }
}

/// The answer of this form with these values. None comes exactly where no answer has them.
pub fn answer_of_parts(name: AnswerName, values: &[Value]) -> Option<Answer>
    ensures found { IfSome result (IsAnswerOf name values.now) }
    ensures back { (a : Answer) → IsAnswerOf name values.now a → result ≡ Some a }
{
    let answer = made_answer(name, values);
    if answer_parts(answer).as_slice() == values {
        Some(answer)
    } else {
        None
    }
}
