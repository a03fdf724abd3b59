//! Statements on focus, active window, capture, attached threads, the mouse, keys and dialogs, one row each.

ghost use Rattle.std.specs.Prelude.{◌≡◌, option_map};
ghost use Rattle.statement_table.specs.Input.{split_input, made_input};
ghost use Rattle.statement_table.specs.Splits.{read_split};

use crate::part::Part;
use crate::parts::operands_in;
use crate::split::{SplitStatement, split_operands};
use call_table::CallName::Input;
use call_table::InputCall;
use script_tree::CallStatement;

/// Takes apart a statement of this group. None comes exactly where it is of another.
pub fn split_input(call: CallStatement) -> Option<SplitStatement>
    ensures { option_map read_split result ≡ split_input call }
{
    match call {
        CallStatement::GetFocus => split_operands(Input(InputCall::GetFocus), &[]),
        CallStatement::GetActive => split_operands(Input(InputCall::GetActive), &[]),
        CallStatement::GetCapture => split_operands(Input(InputCall::GetCapture), &[]),
        CallStatement::Attach(thread, other) => {
            split_operands(Input(InputCall::Attach), &[thread, other])
        }
        CallStatement::Detach(thread, other) => {
            split_operands(Input(InputCall::Detach), &[thread, other])
        }
        CallStatement::Mouse(number, x, y) => {
            split_operands(Input(InputCall::Mouse), &[number, x, y])
        }
        CallStatement::Key(down, key) => split_operands(Input(InputCall::Key), &[down, key]),
        CallStatement::KeyState(key) => split_operands(Input(InputCall::KeyState), &[key]),
        CallStatement::EndDialog(window, result) => {
            split_operands(Input(InputCall::EndDialog), &[window, result])
        }
        _ => None,
    }
}

/// The statement that makes this call, of the parts in their places. None comes exactly where no statement
/// makes it.
pub fn made_input(name: InputCall, parts: &[Part]) -> Option<CallStatement>
    ensures { result ≡ made_input name parts.now }
{
    let operands = operands_in(parts);
    match name {
        InputCall::SetFocus
        | InputCall::SetActive
        | InputCall::SetCapture
        | InputCall::ReleaseCapture
        | InputCall::BeginDialog
        | InputCall::DialogState => None,
        InputCall::GetFocus => Some(CallStatement::GetFocus),
        InputCall::GetActive => Some(CallStatement::GetActive),
        InputCall::GetCapture => Some(CallStatement::GetCapture),
        InputCall::Attach => Some(CallStatement::Attach(operands[0], operands[1])),
        InputCall::Detach => Some(CallStatement::Detach(operands[0], operands[1])),
        InputCall::Mouse => Some(CallStatement::Mouse(operands[0], operands[1], operands[2])),
        InputCall::Key => Some(CallStatement::Key(operands[0], operands[1])),
        InputCall::KeyState => Some(CallStatement::KeyState(operands[0])),
        InputCall::EndDialog => Some(CallStatement::EndDialog(operands[0], operands[1])),
    }
}
