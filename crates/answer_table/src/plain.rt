//! Answers that speak of no message and no send, one row each.

ghost use Rattle.std.specs.Prelude.{◌≡◌, option_map};
ghost use Rattle.call_fields.specs.Forms.{read_form};
ghost use Rattle.answer_table.specs.Plain.{plain_row, split_plain, made_plain};
ghost use Rattle.answer_table.specs.Splits.{read_split};

use crate::answers::AnswerName;
use crate::answers::AnswerName::Plain;
use crate::split::{SplitAnswer, split_of};
use call_fields::{Field, Form, Value, code_at, number_at, row_of, thread_at, window_at};
use user_model::Answer;

/// The forms of these answers.
#[derive(Clone, Copy, Debug, PartialEq, Eq)]
pub enum PlainAnswer {
    Okay,
    Ended,
    Nothing,
    Wait,
    Stuck,
    Gone,
    Running,
    Value,
    Window,
    Was,
    Tell,
    Last,
    Finished,
    Advanced,
    Busy,
    Refused,
}

/// These forms.
pub static PLAIN_ANSWERS: [AnswerName; 16] = [
    Plain(PlainAnswer::Okay),
    Plain(PlainAnswer::Ended),
    Plain(PlainAnswer::Nothing),
    Plain(PlainAnswer::Wait),
    Plain(PlainAnswer::Stuck),
    Plain(PlainAnswer::Gone),
    Plain(PlainAnswer::Running),
    Plain(PlainAnswer::Value),
    Plain(PlainAnswer::Window),
    Plain(PlainAnswer::Was),
    Plain(PlainAnswer::Tell),
    Plain(PlainAnswer::Last),
    Plain(PlainAnswer::Finished),
    Plain(PlainAnswer::Advanced),
    Plain(PlainAnswer::Busy),
    Plain(PlainAnswer::Refused),
];

/// The word of an answer of this group, and the kinds of its fields.
pub fn plain_form(name: PlainAnswer) -> Form
    ensures { read_form result ≡ plain_row name }
{
    match name {
        PlainAnswer::Okay => row_of(b"ok", &[]),
        PlainAnswer::Ended => row_of(b"ended", &[]),
        PlainAnswer::Nothing => row_of(b"none", &[]),
        PlainAnswer::Wait => row_of(b"wait", &[]),
        PlainAnswer::Stuck => row_of(b"stuck", &[]),
        PlainAnswer::Gone => row_of(b"gone", &[]),
        PlainAnswer::Running => row_of(b"running", &[]),
        PlainAnswer::Value => row_of(b"value", &[Field::Number]),
        PlainAnswer::Window => row_of(b"window", &[Field::Window]),
        PlainAnswer::Was => row_of(b"was", &[Field::Window]),
        PlainAnswer::Tell => row_of(b"tell", &[Field::Window]),
        PlainAnswer::Last => row_of(b"last", &[Field::Window]),
        PlainAnswer::Finished => row_of(b"result", &[Field::Number]),
        PlainAnswer::Advanced => row_of(b"advanced", &[Field::Number]),
        PlainAnswer::Busy => row_of(b"busy", &[Field::Thread]),
        PlainAnswer::Refused => row_of(b"refused", &[Field::Code]),
    }
}

/// Takes apart an answer of this group. None comes exactly where it is of another.
pub fn split_plain(answer: Answer) -> Option<SplitAnswer>
    ensures { option_map read_split result ≡ split_plain answer }
{
    match answer {
        Answer::Okay => split_of(Plain(PlainAnswer::Okay), &[]),
        Answer::Ended => split_of(Plain(PlainAnswer::Ended), &[]),
        Answer::Nothing => split_of(Plain(PlainAnswer::Nothing), &[]),
        Answer::Wait => split_of(Plain(PlainAnswer::Wait), &[]),
        Answer::Stuck => split_of(Plain(PlainAnswer::Stuck), &[]),
        Answer::Gone => split_of(Plain(PlainAnswer::Gone), &[]),
        Answer::Running => split_of(Plain(PlainAnswer::Running), &[]),
        Answer::Value(value) => split_of(Plain(PlainAnswer::Value), &[Value::Number(value)]),
        Answer::Window(window) => split_of(Plain(PlainAnswer::Window), &[Value::Window(window)]),
        Answer::Was(window) => split_of(Plain(PlainAnswer::Was), &[Value::Window(window)]),
        Answer::Tell(window) => split_of(Plain(PlainAnswer::Tell), &[Value::Window(window)]),
        Answer::Last(window) => split_of(Plain(PlainAnswer::Last), &[Value::Window(window)]),
        Answer::Finished(result) => {
            split_of(Plain(PlainAnswer::Finished), &[Value::Number(result)])
        }
        Answer::Advanced(time) => split_of(Plain(PlainAnswer::Advanced), &[Value::Number(time)]),
        Answer::Busy(thread) => split_of(Plain(PlainAnswer::Busy), &[Value::Thread(thread)]),
        Answer::Refused(code) => split_of(Plain(PlainAnswer::Refused), &[Value::Code(code)]),
        _ => None,
    }
}

/// The answer of this form, of the values at its places.
pub fn made_plain(name: PlainAnswer, values: &[Value]) -> Answer
    ensures { result ≡ made_plain name values.now }
{
    match name {
        PlainAnswer::Okay => Answer::Okay,
        PlainAnswer::Ended => Answer::Ended,
        PlainAnswer::Nothing => Answer::Nothing,
        PlainAnswer::Wait => Answer::Wait,
        PlainAnswer::Stuck => Answer::Stuck,
        PlainAnswer::Gone => Answer::Gone,
        PlainAnswer::Running => Answer::Running,
        PlainAnswer::Value => Answer::Value(number_at(values, 0)),
        PlainAnswer::Window => Answer::Window(window_at(values, 0)),
        PlainAnswer::Was => Answer::Was(window_at(values, 0)),
        PlainAnswer::Tell => Answer::Tell(window_at(values, 0)),
        PlainAnswer::Last => Answer::Last(window_at(values, 0)),
        PlainAnswer::Finished => Answer::Finished(number_at(values, 0)),
        PlainAnswer::Advanced => Answer::Advanced(number_at(values, 0)),
        PlainAnswer::Busy => Answer::Busy(thread_at(values, 0)),
        PlainAnswer::Refused => Answer::Refused(code_at(values, 0)),
    }
}
