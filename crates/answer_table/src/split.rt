//! An answer taken apart, and what the answers share that begin a frame.

ghost use Rattle.std.specs.Prelude.{◌≡◌, ◌≤◌, [], ◌∷◌, length, option_map};
ghost use Rattle.call_fields.specs.declared.value.Value.TheVariants as values;
ghost use Rattle.answer_table.specs.Splits.{read_split, split};

use crate::answers::AnswerName;
use call_fields::{Field, Value, Values, values_of};
use win_num::{Hwnd, SendId};

/// Which form an answer has, and the values of its fields.
#[derive(Debug, Drop)]
pub struct SplitAnswer {
    pub name: AnswerName,
    pub values: Values,
}

/// A send, its procedure, its window, its message, and two numbers more.
pub static FRAME_FIELDS: [Field; 6] = [
    Field::Send,
    Field::Procedure,
    Field::Window,
    Field::ShortMessage,
    Field::Number,
    Field::Number,
];

/// An answer of this form with these values.
pub fn split_of(name: AnswerName, list: &[Value]) -> Option<SplitAnswer>
    requires { length list.now ≤ 9 }
    ensures { option_map read_split result ≡ split name list.now }
{
    let values = values_of(list);
    Some(SplitAnswer { name, values })
}

/// What an answer says that begins a frame: its send, its procedure, its window, its message, and two numbers more.
pub type Frame = (SendId, u32, Hwnd, u32, u64, u64);

/// An answer of this form that begins a frame.
pub fn split_frame(name: AnswerName, frame: Frame) -> Option<SplitAnswer>
    ensures { option_map read_split result ≡ split name (values.Send frame.0 ∷ values.Procedure frame.1 ∷ values.Window frame.2 ∷ values.ShortMessage frame.3 ∷ values.Number frame.4 ∷ values.Number frame.5 ∷ []) }
{
    split_of(
        name,
        &[
            Value::Send(frame.0),
            Value::Procedure(frame.1),
            Value::Window(frame.2),
            Value::ShortMessage(frame.3),
            Value::Number(frame.4),
            Value::Number(frame.5),
        ],
    )
}
