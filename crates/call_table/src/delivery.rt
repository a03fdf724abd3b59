//! Calls that take, post and hand on messages, and that ask which are there, one row each.

ghost use Rattle.std.specs.Prelude.{◌≡◌, option_map};
ghost use Rattle.call_fields.specs.Forms.{read_form};
ghost use Rattle.call_table.specs.Delivery.{delivery_row, split_delivery, made_delivery};
ghost use Rattle.call_table.specs.Splits.{read_split};

use crate::calls::CallName;
use crate::calls::CallName::Delivery;
use crate::split::{SplitCall, split_message, split_numbers};
use call_fields::Field::Number;
use call_fields::{Form, MESSAGE_FIELDS, Value, message_fields, numbers_at, row_of};
use user_model::Call;

/// The names of these calls.
#[derive(Clone, Copy, Debug, PartialEq, Eq)]
pub enum DeliveryCall {
    Peek,
    Get,
    Post,
    PostThread,
    PostQuit,
    Status,
    Dispatch,
    Translate,
}

/// These calls.
pub static DELIVERY_CALLS: [CallName; 8] = [
    Delivery(DeliveryCall::Peek),
    Delivery(DeliveryCall::Get),
    Delivery(DeliveryCall::Post),
    Delivery(DeliveryCall::PostThread),
    Delivery(DeliveryCall::PostQuit),
    Delivery(DeliveryCall::Status),
    Delivery(DeliveryCall::Dispatch),
    Delivery(DeliveryCall::Translate),
];

/// The word of a call of this group, and the kinds of its fields.
pub fn delivery_form(name: DeliveryCall) -> Form
    ensures { read_form result ≡ delivery_row name }
{
    match name {
        DeliveryCall::Peek => row_of(b"peek", &[Number, Number, Number, Number]),
        DeliveryCall::Get => row_of(b"get", &[Number, Number, Number]),
        DeliveryCall::Post => row_of(b"post", &MESSAGE_FIELDS),
        DeliveryCall::PostThread => row_of(b"post_thread", &MESSAGE_FIELDS),
        DeliveryCall::PostQuit => row_of(b"post_quit", &[Number]),
        DeliveryCall::Status => row_of(b"status", &[Number]),
        DeliveryCall::Dispatch => row_of(b"dispatch", &MESSAGE_FIELDS),
        DeliveryCall::Translate => row_of(b"translate", &MESSAGE_FIELDS),
    }
}

/// Takes apart a call of this group. None comes exactly where it is of another.
pub fn split_delivery(call: Call) -> Option<SplitCall>
    ensures { option_map read_split result ≡ split_delivery call }
{
    match call {
        Call::Peek(window, min, max, flags) => split_numbers(
            Delivery(DeliveryCall::Peek),
            &[window, min, max, flags],
        ),
        Call::Get(window, min, max) => split_numbers(
            Delivery(DeliveryCall::Get),
            &[window, min, max],
        ),
        Call::Post(window, number, wparam, lparam) => split_message(
            Delivery(DeliveryCall::Post),
            (window, number, wparam, lparam),
        ),
        Call::PostThread(thread, number, wparam, lparam) => split_message(
            Delivery(DeliveryCall::PostThread),
            (thread, number, wparam, lparam),
        ),
        Call::PostQuit(code) => split_numbers(Delivery(DeliveryCall::PostQuit), &[code]),
        Call::Status(flags) => split_numbers(Delivery(DeliveryCall::Status), &[flags]),
        Call::Dispatch(window, number, wparam, lparam) => split_message(
            Delivery(DeliveryCall::Dispatch),
            (window, number, wparam, lparam),
        ),
        Call::Translate(window, number, key, lparam) => split_message(
            Delivery(DeliveryCall::Translate),
            (window, number, key, lparam),
        ),
        _ => None,
    }
}

/// The call of this name, of the values at its places.
pub fn made_delivery(name: DeliveryCall, values: &[Value]) -> Call
    ensures { result ≡ made_delivery name values.now }
{
    let numbers = numbers_at(values);
    let (target, message, wparam, lparam) = message_fields(values);
    match name {
        DeliveryCall::Peek => Call::Peek(numbers[0], numbers[1], numbers[2], numbers[3]),
        DeliveryCall::Get => Call::Get(numbers[0], numbers[1], numbers[2]),
        DeliveryCall::Post => Call::Post(target, message, wparam, lparam),
        DeliveryCall::PostThread => Call::PostThread(target, message, wparam, lparam),
        DeliveryCall::PostQuit => Call::PostQuit(numbers[0]),
        DeliveryCall::Status => Call::Status(numbers[0]),
        DeliveryCall::Dispatch => Call::Dispatch(target, message, wparam, lparam),
        DeliveryCall::Translate => Call::Translate(target, message, wparam, lparam),
    }
}
