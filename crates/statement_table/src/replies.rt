//! Statements made inside a send, one row each.

ghost use Rattle.std.specs.Prelude.{◌≡◌, option_map};
ghost use Rattle.statement_table.specs.Replies.{split_reply, made_reply};
ghost use Rattle.statement_table.specs.Splits.{read_split};

use crate::part::Part;
use crate::parts::operands_in;
use crate::split::{SplitStatement, split_operands};
use call_table::CallName::Reply;
use call_table::ReplyCall;
use script_tree::CallStatement;

/// Takes apart a statement of this group. None comes exactly where it is of another.
pub fn split_reply(call: CallStatement) -> Option<SplitStatement>
    ensures { option_map read_split result ≡ split_reply call }
{
    match call {
        CallStatement::Reply(result) => split_operands(Reply(ReplyCall::Reply), &[result]),
        CallStatement::InSend => split_operands(Reply(ReplyCall::InSend), &[]),
        _ => None,
    }
}

/// The statement that makes this call, of the parts in their places. None comes exactly where no statement
/// makes it.
pub fn made_reply(name: ReplyCall, parts: &[Part]) -> Option<CallStatement>
    ensures { result ≡ made_reply name parts.now }
{
    let operands = operands_in(parts);
    match name {
        ReplyCall::Await => None,
        ReplyCall::Leave => None,
        ReplyCall::Reply => Some(CallStatement::Reply(operands[0])),
        ReplyCall::InSend => Some(CallStatement::InSend),
    }
}
