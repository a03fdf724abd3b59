//! Statements about the pixels of windows: those that are to be painted, and their colours, one row each.

ghost use Rattle.std.specs.Prelude.{◌≡◌, option_map};
ghost use Rattle.statement_table.specs.Drawing.{split_drawing, made_drawing};
ghost use Rattle.statement_table.specs.Splits.{read_split};

use crate::part::Part;
use crate::parts::operands_in;
use crate::split::{SplitStatement, split_operands};
use call_table::CallName::Drawing;
use call_table::DrawingCall;
use script_tree::CallStatement;

/// Takes apart a statement of this group. None comes exactly where it is of another.
pub fn split_drawing(call: CallStatement) -> Option<SplitStatement>
    ensures { option_map read_split result ≡ split_drawing call }
{
    match call {
        CallStatement::Invalidate(window, left, top, right, bottom, erase) => split_operands(
            Drawing(DrawingCall::Invalidate),
            &[window, left, top, right, bottom, erase],
        ),
        CallStatement::Validate(window, left, top, right, bottom) => split_operands(
            Drawing(DrawingCall::Validate),
            &[window, left, top, right, bottom],
        ),
        CallStatement::UpdateRect(window) => split_operands(
            Drawing(DrawingCall::UpdateRect),
            &[window],
        ),
        CallStatement::EndPaint(window) => split_operands(
            Drawing(DrawingCall::EndPaint),
            &[window],
        ),
        CallStatement::Fill(window, left, top, right, bottom, colour) => split_operands(
            Drawing(DrawingCall::Fill),
            &[window, left, top, right, bottom, colour],
        ),
        CallStatement::Snap => split_operands(Drawing(DrawingCall::Snap), &[]),
        _ => None,
    }
}

/// The statement that makes this call, of the parts in their places. None comes exactly where no statement
/// makes it.
pub fn made_drawing(name: DrawingCall, parts: &[Part]) -> Option<CallStatement>
    ensures { result ≡ made_drawing name parts.now }
{
    let operands = operands_in(parts);
    match name {
        DrawingCall::Invalidate => Some(CallStatement::Invalidate(
            operands[0],
            operands[1],
            operands[2],
            operands[3],
            operands[4],
            operands[5],
        )),
        DrawingCall::Validate => Some(CallStatement::Validate(
            operands[0],
            operands[1],
            operands[2],
            operands[3],
            operands[4],
        )),
        DrawingCall::UpdateRect => Some(CallStatement::UpdateRect(operands[0])),
        DrawingCall::BeginPaint => None,
        DrawingCall::EndPaint => Some(CallStatement::EndPaint(operands[0])),
        DrawingCall::Fill => Some(CallStatement::Fill(
            operands[0],
            operands[1],
            operands[2],
            operands[3],
            operands[4],
            operands[5],
        )),
        DrawingCall::Erase => None,
        DrawingCall::Snap => Some(CallStatement::Snap),
    }
}
