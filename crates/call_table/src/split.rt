//! A call taken apart.

ghost use Rattle.std.specs.Prelude.{◌≡◌, ◌≤◌, length, map, option_map};
ghost use Rattle.call_fields.specs.declared.value.Value.TheVariants as values;
ghost use Rattle.call_fields.specs.Messages.{message_values};
ghost use Rattle.call_table.specs.Splits.{read_split, split};

use crate::calls::CallName;
use call_fields::{Value, Values, message_values, number_values, values_of};

/// Which call it is, and the values of its fields.
#[derive(Debug, Drop)]
pub struct SplitCall {
    pub name: CallName,
    pub values: Values,
}

/// A call of this name with these values.
pub fn split_of(name: CallName, list: &[Value]) -> Option<SplitCall>
    requires { length list.now ≤ 9 }
    ensures { option_map read_split result ≡ split name list.now }
{
    let values = values_of(list);
    Some(SplitCall { name, values })
}

/// A call of this name whose fields are these numbers.
pub fn split_numbers(name: CallName, numbers: &[u64]) -> Option<SplitCall>
    requires { length numbers.now ≤ 9 }
    ensures { option_map read_split result ≡ split name (map (λ n. values.Number n) numbers.now) }
{
    let values = number_values(numbers);
    Some(SplitCall { name, values })
}

/// A call of this name that carries a message.
pub fn split_message(name: CallName, message: (u64, u64, u64, u64)) -> Option<SplitCall>
    ensures { option_map read_split result ≡ split name (message_values message.0 message.1 message.2 message.3) }
{
    let values = message_values(message.0, message.1, message.2, message.3);
    Some(SplitCall { name, values })
}
