//! Calls that send, one row each.

ghost use Rattle.std.specs.Prelude.{◌≡◌, option_map};
ghost use Rattle.call_fields.specs.Forms.{read_form};
ghost use Rattle.call_table.specs.Sends.{send_row, split_send, made_send};
ghost use Rattle.call_table.specs.Splits.{read_split};

use crate::calls::CallName;
use crate::calls::CallName::Send;
use crate::split::{SplitCall, split_message, split_of};
use call_fields::Field::{Message, Number, Procedure};
use call_fields::{
    Form, MESSAGE_FIELDS, Value, message_at, message_fields, number_at, procedure_at, row_of,
};
use user_model::Call;

/// The names of these calls.
#[derive(Clone, Copy, Debug, PartialEq, Eq)]
pub enum SendCall {
    Send,
    SendTimeout,
    SendNotify,
    SendCallback,
}

/// These calls.
pub static SEND_CALLS: [CallName; 4] = [
    Send(SendCall::Send),
    Send(SendCall::SendTimeout),
    Send(SendCall::SendNotify),
    Send(SendCall::SendCallback),
];

/// The word of a call of this group, and the kinds of its fields.
pub fn send_form(name: SendCall) -> Form
    ensures { read_form result ≡ send_row name }
{
    match name {
        SendCall::Send => row_of(b"send", &MESSAGE_FIELDS),
        SendCall::SendTimeout => row_of(
            b"send_timeout",
            &[Number, Message, Number, Number, Number, Number],
        ),
        SendCall::SendNotify => row_of(b"send_notify", &MESSAGE_FIELDS),
        SendCall::SendCallback => row_of(
            b"send_callback",
            &[Number, Message, Number, Number, Procedure, Number],
        ),
    }
}

/// Takes apart a call of this group. None comes exactly where it is of another.
pub fn split_send(call: Call) -> Option<SplitCall>
    ensures { option_map read_split result ≡ split_send call }
{
    match call {
        Call::Send(window, number, wparam, lparam) => split_message(
            Send(SendCall::Send),
            (window, number, wparam, lparam),
        ),
        Call::SendTimeout(window, number, wparam, lparam, flags, ms) => split_of(
            Send(SendCall::SendTimeout),
            &[
                Value::Number(window),
                Value::Message(number),
                Value::Number(wparam),
                Value::Number(lparam),
                Value::Number(flags),
                Value::Number(ms),
            ],
        ),
        Call::SendNotify(window, number, wparam, lparam) => split_message(
            Send(SendCall::SendNotify),
            (window, number, wparam, lparam),
        ),
        Call::SendCallback(window, number, wparam, lparam, procedure, extra) => split_of(
            Send(SendCall::SendCallback),
            &[
                Value::Number(window),
                Value::Message(number),
                Value::Number(wparam),
                Value::Number(lparam),
                Value::Procedure(procedure),
                Value::Number(extra),
            ],
        ),
        _ => None,
    }
}

/// The call of this name, of the values at its places.
pub fn made_send(name: SendCall, values: &[Value]) -> Call
    ensures { result ≡ made_send name values.now }
{
    let (target, message, wparam, lparam) = message_fields(values);
    match name {
        SendCall::Send => Call::Send(target, message, wparam, lparam),
        SendCall::SendTimeout => Call::SendTimeout(
            number_at(values, 0),
            message_at(values, 1),
            number_at(values, 2),
            number_at(values, 3),
            number_at(values, 4),
            number_at(values, 5),
        ),
        SendCall::SendNotify => Call::SendNotify(target, message, wparam, lparam),
        SendCall::SendCallback => Call::SendCallback(
            number_at(values, 0),
            message_at(values, 1),
            number_at(values, 2),
            number_at(values, 3),
            procedure_at(values, 4),
            number_at(values, 5),
        ),
    }
}
