//! The fields that calls share: numbers alone, and those that carry a message.

ghost use Rattle.std.specs.Prelude.{◌≡◌, ◌≤◌, [], ◌∷◌, length, map};
ghost use Rattle.call_fields.specs.declared.value.Value.TheVariants as values;
ghost use Rattle.call_fields.specs.Messages.{message_values};
ghost use Rattle.call_fields.specs.Values.{message_at, number_at};

use crate::form::Field;
use crate::value::{Value, Values, message_at, number_at, values_of};

/// A window or a thread, a message and its two parameters.
pub static MESSAGE_FIELDS: [Field; 4] = [
    Field::Number,
    Field::Message,
    Field::Number,
    Field::Number,
];

/// These numbers as values.
pub fn number_values(numbers: &[u64]) -> Values
    requires { length numbers.now ≤ 9 }
    ensures { result.items ≡ map (λ n. values.Number n) numbers.now }
{
    let mut values = Values::new();
    for number in numbers {
        values.push(Value::Number(*number));
    }
    values
}

/// The values of a message to a window or a thread.
pub fn message_values(target: u64, message: u64, wparam: u64, lparam: u64) -> Values
    ensures { result.items ≡ message_values target message wparam lparam }
{
    values_of(&[
        Value::Number(target),
        Value::Message(message),
        Value::Number(wparam),
        Value::Number(lparam),
    ])
}

/// The numbers at the first six places.
pub fn numbers_at(values: &[Value]) -> [u64; 6]
    ensures { result ≡ number_at values.now 0 ∷ number_at values.now 1 ∷ number_at values.now 2 ∷ number_at values.now 3 ∷ number_at values.now 4 ∷ number_at values.now 5 ∷ [] }
{
    [
        number_at(values, 0),
        number_at(values, 1),
        number_at(values, 2),
        number_at(values, 3),
        number_at(values, 4),
        number_at(values, 5),
    ]
}

/// The message of which the first four places are the values.
pub fn message_fields(values: &[Value]) -> (u64, u64, u64, u64)
    ensures { result ≡ (number_at values.now 0, message_at values.now 1, number_at values.now 2, number_at values.now 3) }
{
    (
        number_at(values, 0),
        message_at(values, 1),
        number_at(values, 2),
        number_at(values, 3),
    )
}
