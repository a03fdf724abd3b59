//! Statements of the clock and on timers, one row each.

ghost use Rattle.std.specs.Prelude.{◌≡◌, option_map};
ghost use Rattle.statement_table.specs.Clock.{split_clock, made_clock};
ghost use Rattle.statement_table.specs.Splits.{read_split};

use crate::part::Part;
use crate::parts::operands_in;
use crate::split::{SplitStatement, split_operands};
use call_table::CallName::Clock;
use call_table::ClockCall;
use script_tree::CallStatement;

/// Takes apart a statement of this group. None comes exactly where it is of another.
pub fn split_clock(call: CallStatement) -> Option<SplitStatement>
    ensures { option_map read_split result ≡ split_clock call }
{
    match call {
        CallStatement::SetTimer(window, id, ms) => {
            split_operands(Clock(ClockCall::SetTimer), &[window, id, ms])
        }
        CallStatement::KillTimer(window, id) => {
            split_operands(Clock(ClockCall::KillTimer), &[window, id])
        }
        CallStatement::Clock => split_operands(Clock(ClockCall::Clock), &[]),
        CallStatement::Yield => split_operands(Clock(ClockCall::Yield), &[]),
        _ => None,
    }
}

/// The statement that makes this call, of the parts in their places. None comes exactly where no statement
/// makes it.
pub fn made_clock(name: ClockCall, parts: &[Part]) -> Option<CallStatement>
    ensures { result ≡ made_clock name parts.now }
{
    let operands = operands_in(parts);
    match name {
        ClockCall::SetTimer => Some(CallStatement::SetTimer(operands[0], operands[1], operands[2])),
        ClockCall::KillTimer => Some(CallStatement::KillTimer(operands[0], operands[1])),
        ClockCall::EndThread => None,
        ClockCall::Clock => Some(CallStatement::Clock),
        ClockCall::SleepUntil => None,
        ClockCall::Yield => Some(CallStatement::Yield),
        ClockCall::Tick => None,
        ClockCall::Advance => None,
    }
}
