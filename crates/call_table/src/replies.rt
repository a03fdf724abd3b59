//! Calls made inside or after a send, one row each.

ghost use Rattle.std.specs.Prelude.{◌≡◌, option_map};
ghost use Rattle.call_fields.specs.Forms.{read_form};
ghost use Rattle.call_table.specs.Replies.{reply_row, split_reply, made_reply};
ghost use Rattle.call_table.specs.Splits.{read_split};

use crate::calls::CallName;
use crate::calls::CallName::Reply;
use crate::split::{SplitCall, split_numbers};
use call_fields::Field::Number;
use call_fields::{Form, Value, numbers_at, row_of};
use user_model::Call;

/// The names of these calls.
#[derive(Clone, Copy, Debug, PartialEq, Eq)]
pub enum ReplyCall {
    Await,
    Leave,
    Reply,
    InSend,
}

/// These calls.
pub static REPLY_CALLS: [CallName; 4] = [
    Reply(ReplyCall::Await),
    Reply(ReplyCall::Leave),
    Reply(ReplyCall::Reply),
    Reply(ReplyCall::InSend),
];

/// The word of a call of this group, and the kinds of its fields.
pub fn reply_form(name: ReplyCall) -> Form
    ensures { read_form result ≡ reply_row name }
{
    match name {
        ReplyCall::Await => row_of(b"await", &[Number]),
        ReplyCall::Leave => row_of(b"leave", &[Number]),
        ReplyCall::Reply => row_of(b"reply", &[Number]),
        ReplyCall::InSend => row_of(b"in_send", &[]),
    }
}

/// Takes apart a call of this group. None comes exactly where it is of another.
pub fn split_reply(call: Call) -> Option<SplitCall>
    ensures { option_map read_split result ≡ split_reply call }
{
    match call {
        Call::Await(send) => split_numbers(Reply(ReplyCall::Await), &[send]),
        Call::Leave(result) => split_numbers(Reply(ReplyCall::Leave), &[result]),
        Call::Reply(result) => split_numbers(Reply(ReplyCall::Reply), &[result]),
        Call::InSend => split_numbers(Reply(ReplyCall::InSend), &[]),
        _ => None,
    }
}

/// The call of this name, of the values at its places.
pub fn made_reply(name: ReplyCall, values: &[Value]) -> Call
    ensures { result ≡ made_reply name values.now }
{
    let numbers = numbers_at(values);
    match name {
        ReplyCall::Await => Call::Await(numbers[0]),
        ReplyCall::Leave => Call::Leave(numbers[0]),
        ReplyCall::Reply => Call::Reply(numbers[0]),
        ReplyCall::InSend => Call::InSend,
    }
}
