//! Answers that speak of the pixels of a window or of the screen, one row each.

ghost use Rattle.std.specs.Prelude.{◌≡◌, option_map};
ghost use Rattle.call_fields.specs.Forms.{read_form};
ghost use Rattle.answer_table.specs.Drawing.{drawing_row, split_drawing, made_drawing};
ghost use Rattle.answer_table.specs.Splits.{read_split};

use crate::answers::AnswerName;
use crate::answers::AnswerName::Drawing;
use crate::split::{SplitAnswer, split_of};
use call_fields::{Field, Form, Value, byte_at, count_at, pixel_at, row_of};
use user_model::Answer;

/// The forms of these answers.
#[derive(Clone, Copy, Debug, PartialEq, Eq)]
pub enum DrawingAnswer {
    Update,
    Painting,
    Snap,
}

/// These forms.
pub static DRAWING_ANSWERS: [AnswerName; 3] = [
    Drawing(DrawingAnswer::Update),
    Drawing(DrawingAnswer::Painting),
    Drawing(DrawingAnswer::Snap),
];

/// The word of an answer of this group, and the kinds of its fields.
pub fn drawing_form(name: DrawingAnswer) -> Form
    ensures { read_form result ≡ drawing_row name }
{
    match name {
        DrawingAnswer::Update => row_of(
            b"update",
            &[
                Field::Byte,
                Field::Pixel,
                Field::Pixel,
                Field::Pixel,
                Field::Pixel,
            ],
        ),
        DrawingAnswer::Painting => row_of(
            b"painting",
            &[
                Field::Byte,
                Field::Pixel,
                Field::Pixel,
                Field::Pixel,
                Field::Pixel,
            ],
        ),
        DrawingAnswer::Snap => row_of(b"snap", &[Field::Count]),
    }
}

/// Takes apart an answer of this group. None comes exactly where it is of another.
pub fn split_drawing(answer: Answer) -> Option<SplitAnswer>
    ensures { option_map read_split result ≡ split_drawing answer }
{
    match answer {
        Answer::Update { kind, l, t, r, b } => split_of(
            Drawing(DrawingAnswer::Update),
            &[
                Value::Byte(kind),
                Value::Pixel(l),
                Value::Pixel(t),
                Value::Pixel(r),
                Value::Pixel(b),
            ],
        ),
        Answer::Painting { erase, l, t, r, b } => split_of(
            Drawing(DrawingAnswer::Painting),
            &[
                Value::Byte(erase),
                Value::Pixel(l),
                Value::Pixel(t),
                Value::Pixel(r),
                Value::Pixel(b),
            ],
        ),
        Answer::Snap(frame) => split_of(Drawing(DrawingAnswer::Snap), &[Value::Count(frame)]),
        _ => None,
    }
}

/// The answer of this form, of the values at its places.
pub fn made_drawing(name: DrawingAnswer, values: &[Value]) -> Answer
    ensures { result ≡ made_drawing name values.now }
{
    match name {
        DrawingAnswer::Update => Answer::Update {
            kind: byte_at(values, 0),
            l: pixel_at(values, 1),
            t: pixel_at(values, 2),
            r: pixel_at(values, 3),
            b: pixel_at(values, 4),
        },
        DrawingAnswer::Painting => Answer::Painting {
            erase: byte_at(values, 0),
            l: pixel_at(values, 1),
            t: pixel_at(values, 2),
            r: pixel_at(values, 3),
            b: pixel_at(values, 4),
        },
        DrawingAnswer::Snap => Answer::Snap(count_at(values, 0)),
    }
}
