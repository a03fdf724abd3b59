//! Statements that take, post and hand on messages, and that ask which are there, one row each.

ghost use Rattle.std.specs.Prelude.{◌≡◌, option_map};
ghost use Rattle.statement_table.specs.Delivery.{split_delivery, made_delivery};
ghost use Rattle.statement_table.specs.Splits.{read_split};

use crate::part::Part;
use crate::parts::operands_in;
use crate::split::{SplitStatement, split_operands};
use call_table::CallName::Delivery;
use call_table::DeliveryCall;
use script_tree::CallStatement;

/// Takes apart a statement of this group. None comes exactly where it is of another.
pub fn split_delivery(call: CallStatement) -> Option<SplitStatement>
    ensures { option_map read_split result ≡ split_delivery call }
{
    match call {
        CallStatement::Peek(window, min, max, flags) => split_operands(
            Delivery(DeliveryCall::Peek),
            &[window, min, max, flags],
        ),
        CallStatement::Get(window, min, max) => split_operands(
            Delivery(DeliveryCall::Get),
            &[window, min, max],
        ),
        CallStatement::Post(window, message, wparam, lparam) => split_operands(
            Delivery(DeliveryCall::Post),
            &[window, message, wparam, lparam],
        ),
        CallStatement::PostThread(thread, message, wparam, lparam) => split_operands(
            Delivery(DeliveryCall::PostThread),
            &[thread, message, wparam, lparam],
        ),
        CallStatement::PostQuit(code) => split_operands(Delivery(DeliveryCall::PostQuit), &[code]),
        CallStatement::Status(flags) => split_operands(Delivery(DeliveryCall::Status), &[flags]),
        CallStatement::Dispatch => split_operands(Delivery(DeliveryCall::Dispatch), &[]),
        CallStatement::Translate => split_operands(Delivery(DeliveryCall::Translate), &[]),
        _ => None,
    }
}

/// The statement that makes this call, of the parts in their places. None comes exactly where no statement
/// makes it.
pub fn made_delivery(name: DeliveryCall, parts: &[Part]) -> Option<CallStatement>
    ensures { result ≡ made_delivery name parts.now }
{
    let operands = operands_in(parts);
    match name {
        DeliveryCall::Peek => Some(CallStatement::Peek(
            operands[0],
            operands[1],
            operands[2],
            operands[3],
        )),
        DeliveryCall::Get => Some(CallStatement::Get(operands[0], operands[1], operands[2])),
        DeliveryCall::Post => Some(CallStatement::Post(
            operands[0],
            operands[1],
            operands[2],
            operands[3],
        )),
        DeliveryCall::PostThread => Some(CallStatement::PostThread(
            operands[0],
            operands[1],
            operands[2],
            operands[3],
        )),
        DeliveryCall::PostQuit => Some(CallStatement::PostQuit(operands[0])),
        DeliveryCall::Status => Some(CallStatement::Status(operands[0])),
        DeliveryCall::Dispatch => Some(CallStatement::Dispatch),
        DeliveryCall::Translate => Some(CallStatement::Translate),
    }
}
