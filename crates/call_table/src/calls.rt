//! The calls of the machine: each group has its rows in a file of its own.

ghost use Rattle.std.specs.Prelude.{◌≡◌, map, find, option_map, Some, IfSome};
ghost use Rattle.std.specs.Option.{option_or};
ghost use Rattle.std.specs.Str.{bytes_eq};
ghost use Rattle.user_model.specs.declared.call.Call.{Call};
ghost use Rattle.call_fields.specs.Forms.{read_form};
ghost use Rattle.call_fields.specs.Values.{field_of};
ghost use Rattle.call_table.specs.declared.calls.CallName.{CallName};
ghost use Rattle.call_table.specs.Calls.{IsCallOf, call_named, call_name, call_parts, call_row, found_split, made_call};
ghost use Rattle.call_table.specs.Splits.{read_split};

use crate::clock::{CLOCK_CALLS, ClockCall, clock_form, made_clock, split_clock};
use crate::delivery::{DELIVERY_CALLS, DeliveryCall, delivery_form, made_delivery, split_delivery};
use crate::drawing::{DRAWING_CALLS, DrawingCall, drawing_form, made_drawing, split_drawing};
use crate::input::{INPUT_CALLS, InputCall, input_form, made_input, split_input};
use crate::lookups::{LOOKUP_CALLS, LookupCall, lookup_form, made_lookup, split_lookup};
use crate::registrations::{
    REGISTRATION_CALLS, RegistrationCall, made_registration, registration_form, split_registration,
};
use crate::replies::{REPLY_CALLS, ReplyCall, made_reply, reply_form, split_reply};
use crate::sends::{SEND_CALLS, SendCall, made_send, send_form, split_send};
use crate::split::SplitCall;
use crate::windows::{WINDOW_CALLS, WindowCall, made_window, split_window, window_form};
use call_fields::{Form, Value, Values};
use user_model::Call;

/// The names of the calls, by groups.
#[derive(Clone, Copy, Debug, PartialEq, Eq)]
pub enum CallName {
    /// It takes, posts or hands on a message.
    Delivery(DeliveryCall),
    /// It sends.
    Send(SendCall),
    /// It is made inside or after a send.
    Reply(ReplyCall),
    /// It registers a message or a class, or takes a class back.
    Registration(RegistrationCall),
    /// It makes, changes or drops a window.
    Window(WindowCall),
    /// It looks for a window.
    Lookup(LookupCall),
    /// It is about focus, active window, capture, attached threads, the mouse, keys or dialogs.
    Input(InputCall),
    /// It is about pixels that are to be painted, or their colours.
    Drawing(DrawingCall),
    /// It is about time, or ends a thread.
    Clock(ClockCall),
}

/// The word of a call, and the kinds of its fields.
pub fn call_form(name: CallName) -> Form
    ensures { read_form result ≡ call_row name }
{
    match name {
        CallName::Delivery(name) => delivery_form(name),
        CallName::Send(name) => send_form(name),
        CallName::Reply(name) => reply_form(name),
        CallName::Registration(name) => registration_form(name),
        CallName::Window(name) => window_form(name),
        CallName::Lookup(name) => lookup_form(name),
        CallName::Input(name) => input_form(name),
        CallName::Drawing(name) => drawing_form(name),
        CallName::Clock(name) => clock_form(name),
    }
}

/// The first of these calls that has the word.
fn call_in(calls: &[CallName], word: &[u8]) -> Option<CallName>
    ensures { result ≡ find (λ n. bytes_eq (call_row n).word word.now) calls.now }
{
    for name in calls {
        if call_form(*name).word == word {
            return Some(*name);
        }
    }
    None
}

/// What was found, else the first of these calls that has the word.
fn or_in(found: Option<CallName>, calls: &[CallName], word: &[u8]) -> Option<CallName>
    ensures { result ≡ option_or found (find (λ n. bytes_eq (call_row n).word word.now) calls.now) }
{
    match found {
        Some(name) => Some(name),
        None => call_in(calls, word),
    }
}

/// The call with this word. None comes exactly where no call has it.
#[tactic(auto, unfolding(crate::specs::Calls::call_named))]
pub fn call_named(word: &[u8]) -> Option<CallName>
    ensures value { result ≡ call_named word.now }
    ensures found { IfSome result (λ n. (call_row n).word ≡ word.now) }
    ensures back { (n : CallName) → (call_row n).word ≡ word.now → result ≡ Some n }
{
    let found = call_in(&DELIVERY_CALLS, word);
    let found = or_in(found, &SEND_CALLS, word);
    let found = or_in(found, &REPLY_CALLS, word);
    let found = or_in(found, &REGISTRATION_CALLS, word);
    let found = or_in(found, &WINDOW_CALLS, word);
    let found = or_in(found, &LOOKUP_CALLS, word);
    let found = or_in(found, &INPUT_CALLS, word);
    let found = or_in(found, &DRAWING_CALLS, word);
    or_in(found, &CLOCK_CALLS, word)
}

/// A call taken apart by the first group that has it. The groups after it are not asked.
fn found_split(call: Call) -> Option<SplitCall>
    ensures { option_map read_split result ≡ found_split call }
{
    if let Some(split) = split_delivery(call) {
        return Some(split);
    }
    if let Some(split) = split_send(call) {
        return Some(split);
    }
    if let Some(split) = split_reply(call) {
        return Some(split);
    }
    if let Some(split) = split_registration(call) {
        return Some(split);
    }
    if let Some(split) = split_window(call) {
        return Some(split);
    }
    if let Some(split) = split_lookup(call) {
        return Some(split);
    }
    if let Some(split) = split_input(call) {
        return Some(split);
    }
    if let Some(split) = split_drawing(call) {
        return Some(split);
    }
    split_clock(call)
}

/// A call taken apart: which it is, and the values of its fields.
pub fn split_call(call: Call) -> SplitCall
    ensures name { result.name ≡ call_name call }
    ensures value { result.values.items ≡ call_parts call }
    ensures fit { map field_of result.values.items ≡ (call_row result.name).fields }
{
    match found_split(call) {
        Some(split) => split,
        None => unreachable!(),
    }
}

/// Which call it is.
pub fn call_name(call: Call) -> CallName
    ensures { result ≡ call_name call }
{
    split_call(call).name
}

/// The values of the fields of a call.
pub fn call_parts(call: Call) -> Values
    ensures value { result.items ≡ call_parts call }
    ensures fit { map field_of result.items ≡ (call_row (call_name call)).fields }
{
    split_call(call).values
}

/// The call of this name, of the values at its places.
fn made_call(name: CallName, values: &[Value]) -> Call
    ensures { result ≡ made_call name values.now }
{
    match name {
        CallName::Delivery(name) => made_delivery(name, values),
        CallName::Send(name) => made_send(name, values),
        CallName::Reply(name) => made_reply(name, values),
        CallName::Registration(name) => made_registration(name, values),
        CallName::Window(name) => made_window(name, values),
        CallName::Lookup(name) => made_lookup(name, values),
        CallName::Input(name) => made_input(name, values),
        CallName::Drawing(name) => made_drawing(name, values),
        CallName::Clock(name) => made_clock(name, values),
    }
}

/// The call of this name with these values. None comes exactly where no call has them.
pub fn call_of_parts(name: CallName, values: &[Value]) -> Option<Call>
    ensures found { IfSome result (IsCallOf name values.now) }
    ensures back { (c : Call) → IsCallOf name values.now c → result ≡ Some c }
{
    let call = made_call(name, values);
    if call_parts(call).as_slice() == values {
        Some(call)
    } else {
        None
    }
}
