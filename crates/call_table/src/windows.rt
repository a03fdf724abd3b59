//! Calls that make, change or drop windows, one row each.

ghost use Rattle.std.specs.Prelude.{◌≡◌, option_map};
ghost use Rattle.call_fields.specs.Forms.{read_form};
ghost use Rattle.call_table.specs.Windows.{window_row, split_window, made_window};
ghost use Rattle.call_table.specs.Splits.{read_split};

use crate::calls::CallName;
use crate::calls::CallName::Window;
use crate::split::{SplitCall, split_numbers, split_of};
use call_fields::Field::{Name, Number, Signed};
use call_fields::{Form, Value, name_at, number_at, numbers_at, row_of, signed_at};
use user_model::Call;

/// The names of these calls.
#[derive(Clone, Copy, Debug, PartialEq, Eq)]
pub enum WindowCall {
    NewWindow,
    Doom,
    Unmake,
    Drop,
    Place,
    Show,
    Enable,
}

/// These calls.
pub static WINDOW_CALLS: [CallName; 7] = [
    Window(WindowCall::NewWindow),
    Window(WindowCall::Doom),
    Window(WindowCall::Unmake),
    Window(WindowCall::Drop),
    Window(WindowCall::Place),
    Window(WindowCall::Show),
    Window(WindowCall::Enable),
];

/// The word of a call of this group, and the kinds of its fields.
pub fn window_form(name: WindowCall) -> Form
    ensures { read_form result ≡ window_row name }
{
    match name {
        WindowCall::NewWindow => row_of(
            b"new_window",
            &[
                Name, Name, Number, Number, Number, Signed, Signed, Signed, Signed,
            ],
        ),
        WindowCall::Doom => row_of(b"doom", &[Number]),
        WindowCall::Unmake => row_of(b"unmake", &[Number]),
        WindowCall::Drop => row_of(b"drop", &[Number]),
        WindowCall::Place => row_of(
            b"place",
            &[Number, Signed, Signed, Signed, Signed, Signed, Number],
        ),
        WindowCall::Show => row_of(b"show", &[Number, Number]),
        WindowCall::Enable => row_of(b"enable", &[Number, Number]),
    }
}

/// Takes apart a call of this group. None comes exactly where it is of another.
pub fn split_window(call: Call) -> Option<SplitCall>
    ensures { option_map read_split result ≡ split_window call }
{
    match call {
        Call::NewWindow(class, title, parent, style, extended, left, top, right, bottom) =>
            split_of(
                Window(WindowCall::NewWindow),
                &[
                    Value::Name(class),
                    Value::Name(title),
                    Value::Number(parent),
                    Value::Number(style),
                    Value::Number(extended),
                    Value::Signed(left),
                    Value::Signed(top),
                    Value::Signed(right),
                    Value::Signed(bottom),
                ],
            ),
        Call::Doom(window) => split_numbers(Window(WindowCall::Doom), &[window]),
        Call::Unmake(window) => split_numbers(Window(WindowCall::Unmake), &[window]),
        Call::Drop(window) => split_numbers(Window(WindowCall::Drop), &[window]),
        Call::Place(window, after, left, top, right, bottom, flags) => split_of(
            Window(WindowCall::Place),
            &[
                Value::Number(window),
                Value::Signed(after),
                Value::Signed(left),
                Value::Signed(top),
                Value::Signed(right),
                Value::Signed(bottom),
                Value::Number(flags),
            ],
        ),
        Call::Show(window, on) => split_numbers(Window(WindowCall::Show), &[window, on]),
        Call::Enable(window, on) => split_numbers(Window(WindowCall::Enable), &[window, on]),
        _ => None,
    }
}

/// The call of this name, of the values at its places.
pub fn made_window(name: WindowCall, values: &[Value]) -> Call
    ensures { result ≡ made_window name values.now }
{
    let numbers = numbers_at(values);
    match name {
        WindowCall::NewWindow => Call::NewWindow(
            name_at(values, 0),
            name_at(values, 1),
            number_at(values, 2),
            number_at(values, 3),
            number_at(values, 4),
            signed_at(values, 5),
            signed_at(values, 6),
            signed_at(values, 7),
            signed_at(values, 8),
        ),
        WindowCall::Doom => Call::Doom(numbers[0]),
        WindowCall::Unmake => Call::Unmake(numbers[0]),
        WindowCall::Drop => Call::Drop(numbers[0]),
        WindowCall::Place => Call::Place(
            number_at(values, 0),
            signed_at(values, 1),
            signed_at(values, 2),
            signed_at(values, 3),
            signed_at(values, 4),
            signed_at(values, 5),
            number_at(values, 6),
        ),
        WindowCall::Show => Call::Show(numbers[0], numbers[1]),
        WindowCall::Enable => Call::Enable(numbers[0], numbers[1]),
    }
}
