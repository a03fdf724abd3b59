//! Calls on focus, active window, capture, attached threads, the mouse, keys and dialogs, one row each.

ghost use Rattle.std.specs.Prelude.{◌≡◌, option_map};
ghost use Rattle.call_fields.specs.Forms.{read_form};
ghost use Rattle.call_table.specs.Input.{input_row, split_input, made_input};
ghost use Rattle.call_table.specs.Splits.{read_split};

use crate::calls::CallName;
use crate::calls::CallName::Input;
use crate::split::{SplitCall, split_numbers, split_of};
use call_fields::Field::{Message, Number, Signed};
use call_fields::{Form, Value, message_at, numbers_at, row_of, signed_at};
use user_model::Call;

/// The names of these calls.
#[derive(Clone, Copy, Debug, PartialEq, Eq)]
pub enum InputCall {
    SetFocus,
    SetActive,
    SetCapture,
    ReleaseCapture,
    GetFocus,
    GetActive,
    GetCapture,
    Attach,
    Detach,
    Mouse,
    Key,
    KeyState,
    BeginDialog,
    DialogState,
    EndDialog,
}

/// These calls.
pub static INPUT_CALLS: [CallName; 15] = [
    Input(InputCall::SetFocus),
    Input(InputCall::SetActive),
    Input(InputCall::SetCapture),
    Input(InputCall::ReleaseCapture),
    Input(InputCall::GetFocus),
    Input(InputCall::GetActive),
    Input(InputCall::GetCapture),
    Input(InputCall::Attach),
    Input(InputCall::Detach),
    Input(InputCall::Mouse),
    Input(InputCall::Key),
    Input(InputCall::KeyState),
    Input(InputCall::BeginDialog),
    Input(InputCall::DialogState),
    Input(InputCall::EndDialog),
];

/// The word of a call of this group, and the kinds of its fields.
pub fn input_form(name: InputCall) -> Form
    ensures { read_form result ≡ input_row name }
{
    match name {
        InputCall::SetFocus => row_of(b"set_focus", &[Number]),
        InputCall::SetActive => row_of(b"set_active", &[Number]),
        InputCall::SetCapture => row_of(b"set_capture", &[Number]),
        InputCall::ReleaseCapture => row_of(b"release_capture", &[]),
        InputCall::GetFocus => row_of(b"get_focus", &[]),
        InputCall::GetActive => row_of(b"get_active", &[]),
        InputCall::GetCapture => row_of(b"get_capture", &[]),
        InputCall::Attach => row_of(b"attach", &[Number, Number]),
        InputCall::Detach => row_of(b"detach", &[Number, Number]),
        InputCall::Mouse => row_of(b"mouse", &[Message, Signed, Signed]),
        InputCall::Key => row_of(b"key", &[Number, Number]),
        InputCall::KeyState => row_of(b"key_state", &[Number]),
        InputCall::BeginDialog => row_of(b"begin_dialog", &[Number]),
        InputCall::DialogState => row_of(b"dialog_state", &[Number]),
        InputCall::EndDialog => row_of(b"end_dialog", &[Number, Number]),
    }
}

/// Takes apart a call of this group. None comes exactly where it is of another.
pub fn split_input(call: Call) -> Option<SplitCall>
    ensures { option_map read_split result ≡ split_input call }
{
    match call {
        Call::SetFocus(window) => split_numbers(Input(InputCall::SetFocus), &[window]),
        Call::SetActive(window) => split_numbers(Input(InputCall::SetActive), &[window]),
        Call::SetCapture(window) => split_numbers(Input(InputCall::SetCapture), &[window]),
        Call::ReleaseCapture => split_numbers(Input(InputCall::ReleaseCapture), &[]),
        Call::GetFocus => split_numbers(Input(InputCall::GetFocus), &[]),
        Call::GetActive => split_numbers(Input(InputCall::GetActive), &[]),
        Call::GetCapture => split_numbers(Input(InputCall::GetCapture), &[]),
        Call::Attach(thread, other) => split_numbers(Input(InputCall::Attach), &[thread, other]),
        Call::Detach(thread, other) => split_numbers(Input(InputCall::Detach), &[thread, other]),
        Call::Mouse(number, x, y) => split_of(
            Input(InputCall::Mouse),
            &[Value::Message(number), Value::Signed(x), Value::Signed(y)],
        ),
        Call::Key(down, key) => split_numbers(Input(InputCall::Key), &[down, key]),
        Call::KeyState(key) => split_numbers(Input(InputCall::KeyState), &[key]),
        Call::BeginDialog(window) => split_numbers(Input(InputCall::BeginDialog), &[window]),
        Call::DialogState(window) => split_numbers(Input(InputCall::DialogState), &[window]),
        Call::EndDialog(window, result) => {
            split_numbers(Input(InputCall::EndDialog), &[window, result])
        }
        _ => None,
    }
}

/// The call of this name, of the values at its places.
pub fn made_input(name: InputCall, values: &[Value]) -> Call
    ensures { result ≡ made_input name values.now }
{
    let numbers = numbers_at(values);
    match name {
        InputCall::SetFocus => Call::SetFocus(numbers[0]),
        InputCall::SetActive => Call::SetActive(numbers[0]),
        InputCall::SetCapture => Call::SetCapture(numbers[0]),
        InputCall::ReleaseCapture => Call::ReleaseCapture,
        InputCall::GetFocus => Call::GetFocus,
        InputCall::GetActive => Call::GetActive,
        InputCall::GetCapture => Call::GetCapture,
        InputCall::Attach => Call::Attach(numbers[0], numbers[1]),
        InputCall::Detach => Call::Detach(numbers[0], numbers[1]),
        InputCall::Mouse => Call::Mouse(
            message_at(values, 0),
            signed_at(values, 1),
            signed_at(values, 2),
        ),
        InputCall::Key => Call::Key(numbers[0], numbers[1]),
        InputCall::KeyState => Call::KeyState(numbers[0]),
        InputCall::BeginDialog => Call::BeginDialog(numbers[0]),
        InputCall::DialogState => Call::DialogState(numbers[0]),
        InputCall::EndDialog => Call::EndDialog(numbers[0], numbers[1]),
    }
}
