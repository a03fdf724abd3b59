//! Calls that register messages and classes, or take a class back, one row each.

ghost use Rattle.std.specs.Prelude.{◌≡◌, option_map};
ghost use Rattle.call_fields.specs.Forms.{read_form};
ghost use Rattle.call_table.specs.Registrations.{registration_row, split_registration, made_registration};
ghost use Rattle.call_table.specs.Splits.{read_split};

use crate::calls::CallName;
use crate::calls::CallName::Registration;
use crate::split::{SplitCall, split_of};
use call_fields::Field::{Name, Number, Procedure};
use call_fields::{Form, Value, name_at, number_at, procedure_at, row_of};
use user_model::Call;

/// The names of these calls.
#[derive(Clone, Copy, Debug, PartialEq, Eq)]
pub enum RegistrationCall {
    Message,
    Register,
    Unregister,
}

/// These calls.
pub static REGISTRATION_CALLS: [CallName; 3] = [
    Registration(RegistrationCall::Message),
    Registration(RegistrationCall::Register),
    Registration(RegistrationCall::Unregister),
];

/// The word of a call of this group, and the kinds of its fields.
pub fn registration_form(name: RegistrationCall) -> Form
    ensures { read_form result ≡ registration_row name }
{
    match name {
        RegistrationCall::Message => row_of(b"message", &[Name]),
        RegistrationCall::Register => row_of(b"register", &[Name, Procedure, Number]),
        RegistrationCall::Unregister => row_of(b"unregister", &[Name]),
    }
}

/// Takes apart a call of this group. None comes exactly where it is of another.
pub fn split_registration(call: Call) -> Option<SplitCall>
    ensures { option_map read_split result ≡ split_registration call }
{
    match call {
        Call::Message(name) => split_of(
            Registration(RegistrationCall::Message),
            &[Value::Name(name)],
        ),
        Call::Register(class, procedure, colour) => split_of(
            Registration(RegistrationCall::Register),
            &[
                Value::Name(class),
                Value::Procedure(procedure),
                Value::Number(colour),
            ],
        ),
        Call::Unregister(class) => split_of(
            Registration(RegistrationCall::Unregister),
            &[Value::Name(class)],
        ),
        _ => None,
    }
}

/// The call of this name, of the values at its places.
pub fn made_registration(name: RegistrationCall, values: &[Value]) -> Call
    ensures { result ≡ made_registration name values.now }
{
    match name {
        RegistrationCall::Message => Call::Message(name_at(values, 0)),
        RegistrationCall::Register => Call::Register(
            name_at(values, 0),
            procedure_at(values, 1),
            number_at(values, 2),
        ),
        RegistrationCall::Unregister => Call::Unregister(name_at(values, 0)),
    }
}
