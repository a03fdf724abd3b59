//! Statements that register messages and classes, or take a class back, one row each.

ghost use Rattle.std.specs.Prelude.{◌≡◌, option_map};
ghost use Rattle.statement_table.specs.Registrations.{split_registration, made_registration};
ghost use Rattle.statement_table.specs.Splits.{read_split};

use crate::part::Part;
use crate::parts::{name_in, operand_in, procedure_in};
use crate::split::{SplitStatement, split_of};
use call_table::CallName::Registration;
use call_table::RegistrationCall;
use script_tree::CallStatement;

/// Takes apart a statement of this group. None comes exactly where it is of another.
pub fn split_registration(call: CallStatement) -> Option<SplitStatement>
    ensures { option_map read_split result ≡ split_registration call }
{
    match call {
        CallStatement::Message(name) => split_of(
            Registration(RegistrationCall::Message),
            &[Part::Name(name)],
        ),
        CallStatement::Register(class, procedure, colour) => split_of(
            Registration(RegistrationCall::Register),
            &[
                Part::Name(class),
                Part::Procedure(procedure),
                Part::Operand(colour),
            ],
        ),
        CallStatement::Unregister(class) => split_of(
            Registration(RegistrationCall::Unregister),
            &[Part::Name(class)],
        ),
        _ => None,
    }
}

/// The statement that makes this call, of the parts in their places. None comes exactly where no statement
/// makes it.
pub fn made_registration(name: RegistrationCall, parts: &[Part]) -> Option<CallStatement>
    ensures { result ≡ made_registration name parts.now }
{
    match name {
        RegistrationCall::Message => Some(CallStatement::Message(name_in(parts, 0))),
        RegistrationCall::Register => Some(CallStatement::Register(
            name_in(parts, 0),
            procedure_in(parts, 1),
            operand_in(parts, 2),
        )),
        RegistrationCall::Unregister => Some(CallStatement::Unregister(name_in(parts, 0))),
    }
}
