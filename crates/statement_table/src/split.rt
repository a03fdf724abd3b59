//! A statement taken apart.

ghost use Rattle.std.specs.Prelude.{◌≡◌, ◌≤◌, length, map, option_map};
ghost use Rattle.statement_table.specs.declared.part.Part.TheVariants as parts;
ghost use Rattle.statement_table.specs.Splits.{read_split, split};

use crate::part::{Part, Parts};
use crate::parts::{operand_parts, parts_of};
use call_table::CallName;
use script_tree::Operand;

/// The call that a statement makes, and its parts in their places.
#[derive(Drop)]
pub struct SplitStatement {
    pub name: CallName,
    pub parts: Parts,
}

/// A statement that makes this call, with these parts.
pub fn split_of(name: CallName, list: &[Part]) -> Option<SplitStatement>
    requires { length list.now ≤ 9 }
    ensures { option_map read_split result ≡ split name list.now }
{
    let parts = parts_of(list);
    Some(SplitStatement { name, parts })
}

/// A statement that makes this call, whose parts are these operands.
pub fn split_operands(name: CallName, operands: &[Operand]) -> Option<SplitStatement>
    requires { length operands.now ≤ 9 }
    ensures { option_map read_split result ≡ split name (map (λ a. parts.Operand a) operands.now) }
{
    let parts = operand_parts(operands);
    Some(SplitStatement { name, parts })
}
