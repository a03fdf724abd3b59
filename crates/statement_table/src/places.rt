//! The places of a statement for the fields of its call.

ghost use Rattle.std.specs.Prelude.{◌≡◌};
ghost use Rattle.statement_table.specs.Places.{place_of, field_places, statement_places};

use crate::part::{Place, Places};
use arrayvec::ArrayVec;
use call_fields::Field;
use call_table::{CallName, DeliveryCall, call_form};

/// The place of a statement for a field of its call. No call has a field of the last kinds.
fn place_of(field: Field) -> Place
    ensures { result ≡ place_of field }
{
    match field {
        Field::Number => Place::Operand,
        Field::Message => Place::Operand,
        Field::Signed => Place::Operand,
        Field::Name => Place::Name,
        Field::Procedure => Place::Procedure,
        Field::Window => Place::Operand,
        Field::Send => Place::Operand,
        Field::Thread => Place::Operand,
        Field::Count => Place::Operand,
        Field::ShortMessage => Place::Operand,
        Field::Pixel => Place::Operand,
        Field::Byte => Place::Operand,
        Field::Source => Place::Operand,
        Field::Cause => Place::Operand,
        Field::Code => Place::Operand,
    }
}

/// One place for each field of a call.
pub fn field_places(name: CallName) -> Places
    ensures { result.items ≡ field_places name }
{
    let mut places = ArrayVec::new();
    for field in call_form(name).fields {
        places.push(place_of(*field));
    }
    places
}

/// The places of a statement that makes this call. `dispatch` and `translate` have none: they take the last message got.
pub fn statement_places(name: CallName) -> Places
    ensures { result.items ≡ statement_places name }
{
    match name {
        CallName::Delivery(DeliveryCall::Dispatch) => ArrayVec::new(),
        CallName::Delivery(DeliveryCall::Translate) => ArrayVec::new(),
        _ => field_places(name),
    }
}
