//! Statements that look for windows, one row each.

ghost use Rattle.std.specs.Prelude.{◌≡◌, option_map};
ghost use Rattle.statement_table.specs.Lookups.{split_lookup, made_lookup};
ghost use Rattle.statement_table.specs.Splits.{read_split};

use crate::part::Part;
use crate::parts::{name_in, operands_in};
use crate::split::{SplitStatement, split_of, split_operands};
use call_table::CallName::Lookup;
use call_table::LookupCall;
use script_tree::CallStatement;

/// Takes apart a statement of this group. None comes exactly where it is of another.
pub fn split_lookup(call: CallStatement) -> Option<SplitStatement>
    ensures { option_map read_split result ≡ split_lookup call }
{
    match call {
        CallStatement::Find(title) => split_of(Lookup(LookupCall::Find), &[Part::Name(title)]),
        CallStatement::AwaitTitle(title) => split_of(
            Lookup(LookupCall::AwaitTitle),
            &[Part::Name(title)],
        ),
        CallStatement::NextTop(window) => split_operands(Lookup(LookupCall::NextTop), &[window]),
        CallStatement::WindowAt(x, y) => split_operands(Lookup(LookupCall::WindowAt), &[x, y]),
        CallStatement::IsWindow(window) => split_operands(Lookup(LookupCall::IsWindow), &[window]),
        CallStatement::Parent(window) => split_operands(Lookup(LookupCall::Parent), &[window]),
        _ => None,
    }
}

/// The statement that makes this call, of the parts in their places. None comes exactly where no statement
/// makes it.
pub fn made_lookup(name: LookupCall, parts: &[Part]) -> Option<CallStatement>
    ensures { result ≡ made_lookup name parts.now }
{
    let operands = operands_in(parts);
    match name {
        LookupCall::Find => Some(CallStatement::Find(name_in(parts, 0))),
        LookupCall::AwaitTitle => Some(CallStatement::AwaitTitle(name_in(parts, 0))),
        LookupCall::NextTop => Some(CallStatement::NextTop(operands[0])),
        LookupCall::WindowAt => Some(CallStatement::WindowAt(operands[0], operands[1])),
        LookupCall::IsWindow => Some(CallStatement::IsWindow(operands[0])),
        LookupCall::Parent => Some(CallStatement::Parent(operands[0])),
        LookupCall::ChildAfter | LookupCall::StyleOf => None,
    }
}
