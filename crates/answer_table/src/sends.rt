//! Answers that speak of a send, one row each.

ghost use Rattle.std.specs.Prelude.{◌≡◌, option_map};
ghost use Rattle.call_fields.specs.Forms.{read_form};
ghost use Rattle.answer_table.specs.Sends.{send_row, split_send, made_send};
ghost use Rattle.answer_table.specs.Splits.{read_split};

use crate::answers::AnswerName;
use crate::answers::AnswerName::Send;
use crate::split::{FRAME_FIELDS, SplitAnswer, split_frame, split_of};
use call_fields::{
    Field, Form, Value, cause_at, number_at, procedure_at, row_of, send_at, short_message_at,
    window_at,
};
use user_model::Answer;

/// The forms of these answers.
#[derive(Clone, Copy, Debug, PartialEq, Eq)]
pub enum SendAnswer {
    Inside,
    Begun,
    Left,
    Enter,
    Callback,
    Done,
}

/// These forms.
pub static SEND_ANSWERS: [AnswerName; 6] = [
    Send(SendAnswer::Inside),
    Send(SendAnswer::Begun),
    Send(SendAnswer::Left),
    Send(SendAnswer::Enter),
    Send(SendAnswer::Callback),
    Send(SendAnswer::Done),
];

/// The word of an answer of this group, and the kinds of its fields.
pub fn send_form(name: SendAnswer) -> Form
    ensures { read_form result ≡ send_row name }
{
    match name {
        SendAnswer::Inside => row_of(b"inside", &[Field::Send, Field::Procedure]),
        SendAnswer::Begun => row_of(b"begun", &[Field::Send]),
        SendAnswer::Left => row_of(b"left", &[Field::Send]),
        SendAnswer::Enter => row_of(b"enter", &FRAME_FIELDS),
        SendAnswer::Callback => row_of(b"callback", &FRAME_FIELDS),
        SendAnswer::Done => row_of(b"done", &[Field::Number, Field::Cause]),
    }
}

/// Takes apart an answer of this group. None comes exactly where it is of another.
pub fn split_send(answer: Answer) -> Option<SplitAnswer>
    ensures { option_map read_split result ≡ split_send answer }
{
    match answer {
        Answer::Inside(send, procedure) => split_of(
            Send(SendAnswer::Inside),
            &[Value::Send(send), Value::Procedure(procedure)],
        ),
        Answer::Begun(send) => split_of(Send(SendAnswer::Begun), &[Value::Send(send)]),
        Answer::Left(send) => split_of(Send(SendAnswer::Left), &[Value::Send(send)]),
        Answer::Enter {
            send,
            proc_no,
            hwnd,
            number,
            wparam,
            lparam,
        } => split_frame(
            Send(SendAnswer::Enter),
            (send, proc_no, hwnd, number, wparam, lparam),
        ),
        Answer::Callback {
            send,
            proc_no,
            hwnd,
            number,
            extra,
            result,
        } => split_frame(
            Send(SendAnswer::Callback),
            (send, proc_no, hwnd, number, extra, result),
        ),
        Answer::Done { result, cause } => split_of(
            Send(SendAnswer::Done),
            &[Value::Number(result), Value::Cause(cause)],
        ),
        _ => None,
    }
}

/// The answer of this form, of the values at its places.
pub fn made_send(name: SendAnswer, values: &[Value]) -> Answer
    ensures { result ≡ made_send name values.now }
{
    match name {
        SendAnswer::Inside => Answer::Inside(send_at(values, 0), procedure_at(values, 1)),
        SendAnswer::Begun => Answer::Begun(send_at(values, 0)),
        SendAnswer::Left => Answer::Left(send_at(values, 0)),
        SendAnswer::Enter => Answer::Enter {
            send: send_at(values, 0),
            proc_no: procedure_at(values, 1),
            hwnd: window_at(values, 2),
            number: short_message_at(values, 3),
            wparam: number_at(values, 4),
            lparam: number_at(values, 5),
        },
        SendAnswer::Callback => Answer::Callback {
            send: send_at(values, 0),
            proc_no: procedure_at(values, 1),
            hwnd: window_at(values, 2),
            number: short_message_at(values, 3),
            extra: number_at(values, 4),
            result: number_at(values, 5),
        },
        SendAnswer::Done => Answer::Done {
            result: number_at(values, 0),
            cause: cause_at(values, 1),
        },
    }
}
