//! Calls that look for windows, one row each.

ghost use Rattle.std.specs.Prelude.{◌≡◌, option_map};
ghost use Rattle.call_fields.specs.Forms.{read_form};
ghost use Rattle.call_table.specs.Lookups.{lookup_row, split_lookup, made_lookup};
ghost use Rattle.call_table.specs.Splits.{read_split};

use crate::calls::CallName;
use crate::calls::CallName::Lookup;
use crate::split::{SplitCall, split_numbers, split_of};
use call_fields::Field::{Name, Number, Signed};
use call_fields::{Form, Value, name_at, numbers_at, row_of, signed_at};
use user_model::Call;

/// The names of these calls.
#[derive(Clone, Copy, Debug, PartialEq, Eq)]
pub enum LookupCall {
    Find,
    AwaitTitle,
    NextTop,
    ChildAfter,
    StyleOf,
    WindowAt,
    IsWindow,
    Parent,
}

/// These calls.
pub static LOOKUP_CALLS: [CallName; 8] = [
    Lookup(LookupCall::Find),
    Lookup(LookupCall::AwaitTitle),
    Lookup(LookupCall::NextTop),
    Lookup(LookupCall::ChildAfter),
    Lookup(LookupCall::StyleOf),
    Lookup(LookupCall::WindowAt),
    Lookup(LookupCall::IsWindow),
    Lookup(LookupCall::Parent),
];

/// The word of a call of this group, and the kinds of its fields.
pub fn lookup_form(name: LookupCall) -> Form
    ensures { read_form result ≡ lookup_row name }
{
    match name {
        LookupCall::Find => row_of(b"find", &[Name]),
        LookupCall::AwaitTitle => row_of(b"await_title", &[Name]),
        LookupCall::NextTop => row_of(b"next_top", &[Number]),
        LookupCall::ChildAfter => row_of(b"child_after", &[Number, Number]),
        LookupCall::StyleOf => row_of(b"style_of", &[Number]),
        LookupCall::WindowAt => row_of(b"window_at", &[Signed, Signed]),
        LookupCall::IsWindow => row_of(b"is_window", &[Number]),
        LookupCall::Parent => row_of(b"parent", &[Number]),
    }
}

/// Takes apart a call of this group. None comes exactly where it is of another.
pub fn split_lookup(call: Call) -> Option<SplitCall>
    ensures { option_map read_split result ≡ split_lookup call }
{
    match call {
        Call::Find(title) => split_of(Lookup(LookupCall::Find), &[Value::Name(title)]),
        Call::AwaitTitle(title) => split_of(Lookup(LookupCall::AwaitTitle), &[Value::Name(title)]),
        Call::NextTop(window) => split_numbers(Lookup(LookupCall::NextTop), &[window]),
        Call::ChildAfter(window, child) => {
            split_numbers(Lookup(LookupCall::ChildAfter), &[window, child])
        }
        Call::StyleOf(window) => split_numbers(Lookup(LookupCall::StyleOf), &[window]),
        Call::WindowAt(x, y) => split_of(
            Lookup(LookupCall::WindowAt),
            &[Value::Signed(x), Value::Signed(y)],
        ),
        Call::IsWindow(window) => split_numbers(Lookup(LookupCall::IsWindow), &[window]),
        Call::Parent(window) => split_numbers(Lookup(LookupCall::Parent), &[window]),
        _ => None,
    }
}

/// The call of this name, of the values at its places.
pub fn made_lookup(name: LookupCall, values: &[Value]) -> Call
    ensures { result ≡ made_lookup name values.now }
{
    let numbers = numbers_at(values);
    match name {
        LookupCall::Find => Call::Find(name_at(values, 0)),
        LookupCall::AwaitTitle => Call::AwaitTitle(name_at(values, 0)),
        LookupCall::NextTop => Call::NextTop(numbers[0]),
        LookupCall::ChildAfter => Call::ChildAfter(numbers[0], numbers[1]),
        LookupCall::StyleOf => Call::StyleOf(numbers[0]),
        LookupCall::WindowAt => Call::WindowAt(signed_at(values, 0), signed_at(values, 1)),
        LookupCall::IsWindow => Call::IsWindow(numbers[0]),
        LookupCall::Parent => Call::Parent(numbers[0]),
    }
}
