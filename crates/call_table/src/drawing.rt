//! Calls about the pixels of windows: those that are to be painted, and their colours, one row each.

ghost use Rattle.std.specs.Prelude.{◌≡◌, ◌∷◌, [], option_map};
ghost use Rattle.call_fields.specs.Forms.{read_form};
ghost use Rattle.call_fields.specs.declared.value.Value.TheVariants as values;
ghost use Rattle.call_table.specs.Drawing.{drawing_row, split_drawing, made_drawing};
ghost use Rattle.call_table.specs.Splits.{read_split, split};

use crate::calls::CallName;
use crate::calls::CallName::Drawing;
use crate::split::{SplitCall, split_numbers, split_of};
use call_fields::Field::{Number, Signed};
use call_fields::{Form, Value, number_at, row_of, signed_at};
use user_model::Call;

/// The names of these calls.
#[derive(Clone, Copy, Debug, PartialEq, Eq)]
pub enum DrawingCall {
    Invalidate,
    Validate,
    UpdateRect,
    BeginPaint,
    EndPaint,
    Fill,
    Erase,
    Snap,
}

/// These calls.
pub static DRAWING_CALLS: [CallName; 8] = [
    Drawing(DrawingCall::Invalidate),
    Drawing(DrawingCall::Validate),
    Drawing(DrawingCall::UpdateRect),
    Drawing(DrawingCall::BeginPaint),
    Drawing(DrawingCall::EndPaint),
    Drawing(DrawingCall::Fill),
    Drawing(DrawingCall::Erase),
    Drawing(DrawingCall::Snap),
];

/// The word of a call of this group, and the kinds of its fields.
pub fn drawing_form(name: DrawingCall) -> Form
    ensures { read_form result ≡ drawing_row name }
{
    match name {
        DrawingCall::Invalidate => row_of(
            b"invalidate",
            &[Number, Signed, Signed, Signed, Signed, Number],
        ),
        DrawingCall::Validate => row_of(b"validate", &[Number, Signed, Signed, Signed, Signed]),
        DrawingCall::UpdateRect => row_of(b"update_rect", &[Number]),
        DrawingCall::BeginPaint => row_of(b"begin_paint", &[Number]),
        DrawingCall::EndPaint => row_of(b"end_paint", &[Number]),
        DrawingCall::Fill => row_of(b"fill", &[Number, Signed, Signed, Signed, Signed, Number]),
        DrawingCall::Erase => row_of(b"erase", &[Number]),
        DrawingCall::Snap => row_of(b"snap", &[]),
    }
}

/// The left, top, right and bottom edge of a rectangle.
type Edges = (i64, i64, i64, i64);

/// A call of this name for a rectangle of a window, with one number more.
fn split_rectangle(name: CallName, window: u64, edges: Edges, last: u64) -> Option<SplitCall>
    ensures { option_map read_split result ≡ split name (values.Number window ∷ values.Signed edges.0 ∷ values.Signed edges.1 ∷ values.Signed edges.2 ∷ values.Signed edges.3 ∷ values.Number last ∷ []) }
{
    split_of(
        name,
        &[
            Value::Number(window),
            Value::Signed(edges.0),
            Value::Signed(edges.1),
            Value::Signed(edges.2),
            Value::Signed(edges.3),
            Value::Number(last),
        ],
    )
}

/// Takes apart a call of this group. None comes exactly where it is of another.
pub fn split_drawing(call: Call) -> Option<SplitCall>
    ensures { option_map read_split result ≡ split_drawing call }
{
    match call {
        Call::Invalidate(window, left, top, right, bottom, erase) => split_rectangle(
            Drawing(DrawingCall::Invalidate),
            window,
            (left, top, right, bottom),
            erase,
        ),
        Call::Validate(window, left, top, right, bottom) => split_of(
            Drawing(DrawingCall::Validate),
            &[
                Value::Number(window),
                Value::Signed(left),
                Value::Signed(top),
                Value::Signed(right),
                Value::Signed(bottom),
            ],
        ),
        Call::UpdateRect(window) => split_numbers(Drawing(DrawingCall::UpdateRect), &[window]),
        Call::BeginPaint(window) => split_numbers(Drawing(DrawingCall::BeginPaint), &[window]),
        Call::EndPaint(window) => split_numbers(Drawing(DrawingCall::EndPaint), &[window]),
        Call::Fill(window, left, top, right, bottom, colour) => split_rectangle(
            Drawing(DrawingCall::Fill),
            window,
            (left, top, right, bottom),
            colour,
        ),
        Call::Erase(window) => split_numbers(Drawing(DrawingCall::Erase), &[window]),
        Call::Snap => split_numbers(Drawing(DrawingCall::Snap), &[]),
        _ => None,
    }
}

/// The call of this name, of the values at its places.
pub fn made_drawing(name: DrawingCall, values: &[Value]) -> Call
    ensures { result ≡ made_drawing name values.now }
{
    let window = number_at(values, 0);
    match name {
        DrawingCall::Invalidate => Call::Invalidate(
            window,
            signed_at(values, 1),
            signed_at(values, 2),
            signed_at(values, 3),
            signed_at(values, 4),
            number_at(values, 5),
        ),
        DrawingCall::Validate => Call::Validate(
            window,
            signed_at(values, 1),
            signed_at(values, 2),
            signed_at(values, 3),
            signed_at(values, 4),
        ),
        DrawingCall::UpdateRect => Call::UpdateRect(window),
        DrawingCall::BeginPaint => Call::BeginPaint(window),
        DrawingCall::EndPaint => Call::EndPaint(window),
        DrawingCall::Fill => Call::Fill(
            window,
            signed_at(values, 1),
            signed_at(values, 2),
            signed_at(values, 3),
            signed_at(values, 4),
            number_at(values, 5),
        ),
        DrawingCall::Erase => Call::Erase(window),
        DrawingCall::Snap => Call::Snap,
    }
}
