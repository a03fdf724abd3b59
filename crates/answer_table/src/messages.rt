//! Answers that speak of a message, one row each.

ghost use Rattle.std.specs.Prelude.{◌≡◌, option_map};
ghost use Rattle.call_fields.specs.Forms.{read_form};
ghost use Rattle.call_fields.specs.Values.{window_at, short_message_at, number_at, pixel_at};
ghost use Rattle.answer_table.specs.Messages.{message_row, split_message, made_message, message_of};
ghost use Rattle.answer_table.specs.Splits.{read_split};

use crate::answers::AnswerName;
use crate::answers::AnswerName::Message;
use crate::split::{SplitAnswer, split_of};
use call_fields::{
    Field, Form, Value, count_at, number_at, pixel_at, procedure_at, row_of, short_message_at,
    source_at, window_at,
};
use user_model::Answer;
use win_num::{Msg, Point};

/// The forms of these answers.
#[derive(Clone, Copy, Debug, PartialEq, Eq)]
pub enum MessageAnswer {
    Posted,
    Input,
    Called,
    Got,
}

/// These forms.
pub static MESSAGE_ANSWERS: [AnswerName; 4] = [
    Message(MessageAnswer::Posted),
    Message(MessageAnswer::Input),
    Message(MessageAnswer::Called),
    Message(MessageAnswer::Got),
];

/// The word of an answer of this group, and the kinds of its fields.
pub fn message_form(name: MessageAnswer) -> Form
    ensures { read_form result ≡ message_row name }
{
    match name {
        MessageAnswer::Posted => row_of(b"posted", &[Field::Count]),
        MessageAnswer::Input => row_of(b"input", &[Field::Count]),
        MessageAnswer::Called => row_of(b"called", &[Field::Procedure]),
        MessageAnswer::Got => row_of(
            b"got",
            &[
                Field::Source,
                Field::Count,
                Field::Window,
                Field::ShortMessage,
                Field::Number,
                Field::Number,
                Field::Number,
                Field::Pixel,
                Field::Pixel,
            ],
        ),
    }
}

/// Takes apart an answer of this group. None comes exactly where it is of another.
pub fn split_message(answer: Answer) -> Option<SplitAnswer>
    ensures { option_map read_split result ≡ split_message answer }
{
    match answer {
        Answer::Posted(number) => split_of(Message(MessageAnswer::Posted), &[Value::Count(number)]),
        Answer::Input(number) => split_of(Message(MessageAnswer::Input), &[Value::Count(number)]),
        Answer::Called(procedure) => split_of(
            Message(MessageAnswer::Called),
            &[Value::Procedure(procedure)],
        ),
        Answer::Got {
            origin,
            number,
            msg,
        } => split_of(
            Message(MessageAnswer::Got),
            &[
                Value::Source(origin),
                Value::Count(number),
                Value::Window(msg.hwnd),
                Value::ShortMessage(msg.number),
                Value::Number(msg.wparam),
                Value::Number(msg.lparam),
                Value::Number(msg.time),
                Value::Pixel(msg.point.x),
                Value::Pixel(msg.point.y),
            ],
        ),
        _ => None,
    }
}

/// The message whose numbers stand from the third place on.
fn message_at(values: &[Value]) -> Msg
    ensures { result ≡ message_of (window_at values.now 2) (short_message_at values.now 3) (number_at values.now 4) (number_at values.now 5) (number_at values.now 6) (pixel_at values.now 7) (pixel_at values.now 8) }
{
    Msg {
        hwnd: window_at(values, 2),
        number: short_message_at(values, 3),
        wparam: number_at(values, 4),
        lparam: number_at(values, 5),
        time: number_at(values, 6),
        point: Point {
            x: pixel_at(values, 7),
            y: pixel_at(values, 8),
        },
    }
}

/// The answer of this form, of the values at its places.
pub fn made_message(name: MessageAnswer, values: &[Value]) -> Answer
    ensures { result ≡ made_message name values.now }
{
    match name {
        MessageAnswer::Posted => Answer::Posted(count_at(values, 0)),
        MessageAnswer::Input => Answer::Input(count_at(values, 0)),
        MessageAnswer::Called => Answer::Called(procedure_at(values, 0)),
        MessageAnswer::Got => Answer::Got {
            origin: source_at(values, 0),
            number: count_at(values, 1),
            msg: message_at(values),
        },
    }
}
