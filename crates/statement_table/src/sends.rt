//! Statements that send, one row each.

ghost use Rattle.std.specs.Prelude.{◌≡◌, option_map};
ghost use Rattle.statement_table.specs.Sends.{split_send, made_send};
ghost use Rattle.statement_table.specs.Splits.{read_split};

use crate::part::Part;
use crate::parts::{operand_in, operands_in, procedure_in};
use crate::split::{SplitStatement, split_of, split_operands};
use call_table::CallName::Send;
use call_table::SendCall;
use script_tree::CallStatement;

/// Takes apart a statement of this group. None comes exactly where it is of another.
pub fn split_send(call: CallStatement) -> Option<SplitStatement>
    ensures { option_map read_split result ≡ split_send call }
{
    match call {
        CallStatement::Send(window, message, wparam, lparam) => split_operands(
            Send(SendCall::Send),
            &[window, message, wparam, lparam],
        ),
        CallStatement::SendTimeout(window, message, wparam, lparam, flags, wait) => split_operands(
            Send(SendCall::SendTimeout),
            &[window, message, wparam, lparam, flags, wait],
        ),
        CallStatement::SendNotify(window, message, wparam, lparam) => split_operands(
            Send(SendCall::SendNotify),
            &[window, message, wparam, lparam],
        ),
        CallStatement::SendCallback(window, message, wparam, lparam, procedure, extra) => split_of(
            Send(SendCall::SendCallback),
            &[
                Part::Operand(window),
                Part::Operand(message),
                Part::Operand(wparam),
                Part::Operand(lparam),
                Part::Procedure(procedure),
                Part::Operand(extra),
            ],
        ),
        _ => None,
    }
}

/// The statement that makes this call, of the parts in their places. None comes exactly where no statement
/// makes it.
pub fn made_send(name: SendCall, parts: &[Part]) -> Option<CallStatement>
    ensures { result ≡ made_send name parts.now }
{
    let operands = operands_in(parts);
    match name {
        SendCall::Send => Some(CallStatement::Send(
            operands[0],
            operands[1],
            operands[2],
            operands[3],
        )),
        SendCall::SendTimeout => Some(CallStatement::SendTimeout(
            operands[0],
            operands[1],
            operands[2],
            operands[3],
            operands[4],
            operands[5],
        )),
        SendCall::SendNotify => Some(CallStatement::SendNotify(
            operands[0],
            operands[1],
            operands[2],
            operands[3],
        )),
        SendCall::SendCallback => Some(CallStatement::SendCallback(
            operand_in(parts, 0),
            operand_in(parts, 1),
            operand_in(parts, 2),
            operand_in(parts, 3),
            procedure_in(parts, 4),
            operand_in(parts, 5),
        )),
    }
}
