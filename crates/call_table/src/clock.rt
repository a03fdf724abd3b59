//! Calls of the clock, on timers, and the end of a thread, one row each.

ghost use Rattle.std.specs.Prelude.{◌≡◌, option_map};
ghost use Rattle.call_fields.specs.Forms.{read_form};
ghost use Rattle.call_table.specs.Clock.{clock_row, split_clock, made_clock};
ghost use Rattle.call_table.specs.Splits.{read_split};

use crate::calls::CallName;
use crate::calls::CallName::Clock;
use crate::split::{SplitCall, split_numbers};
use call_fields::Field::Number;
use call_fields::{Form, Value, numbers_at, row_of};
use user_model::Call;

/// The names of these calls.
#[derive(Clone, Copy, Debug, PartialEq, Eq)]
pub enum ClockCall {
    SetTimer,
    KillTimer,
    EndThread,
    Clock,
    SleepUntil,
    Yield,
    Tick,
    Advance,
}

/// These calls.
pub static CLOCK_CALLS: [CallName; 8] = [
    Clock(ClockCall::SetTimer),
    Clock(ClockCall::KillTimer),
    Clock(ClockCall::EndThread),
    Clock(ClockCall::Clock),
    Clock(ClockCall::SleepUntil),
    Clock(ClockCall::Yield),
    Clock(ClockCall::Tick),
    Clock(ClockCall::Advance),
];

/// The word of a call of this group, and the kinds of its fields.
pub fn clock_form(name: ClockCall) -> Form
    ensures { read_form result ≡ clock_row name }
{
    match name {
        ClockCall::SetTimer => row_of(b"set_timer", &[Number, Number, Number]),
        ClockCall::KillTimer => row_of(b"kill_timer", &[Number, Number]),
        ClockCall::EndThread => row_of(b"end_thread", &[]),
        ClockCall::Clock => row_of(b"clock", &[]),
        ClockCall::SleepUntil => row_of(b"sleep_until", &[Number]),
        ClockCall::Yield => row_of(b"yield", &[]),
        ClockCall::Tick => row_of(b"tick", &[Number]),
        ClockCall::Advance => row_of(b"advance", &[]),
    }
}

/// Takes apart a call of this group. None comes exactly where it is of another.
pub fn split_clock(call: Call) -> Option<SplitCall>
    ensures { option_map read_split result ≡ split_clock call }
{
    match call {
        Call::SetTimer(window, id, ms) => {
            split_numbers(Clock(ClockCall::SetTimer), &[window, id, ms])
        }
        Call::KillTimer(window, id) => split_numbers(Clock(ClockCall::KillTimer), &[window, id]),
        Call::EndThread => split_numbers(Clock(ClockCall::EndThread), &[]),
        Call::Clock => split_numbers(Clock(ClockCall::Clock), &[]),
        Call::SleepUntil(time) => split_numbers(Clock(ClockCall::SleepUntil), &[time]),
        Call::Yield => split_numbers(Clock(ClockCall::Yield), &[]),
        Call::Tick(ms) => split_numbers(Clock(ClockCall::Tick), &[ms]),
        Call::Advance => split_numbers(Clock(ClockCall::Advance), &[]),
        _ => None,
    }
}

/// The call of this name, of the values at its places.
pub fn made_clock(name: ClockCall, values: &[Value]) -> Call
    ensures { result ≡ made_clock name values.now }
{
    let numbers = numbers_at(values);
    match name {
        ClockCall::SetTimer => Call::SetTimer(numbers[0], numbers[1], numbers[2]),
        ClockCall::KillTimer => Call::KillTimer(numbers[0], numbers[1]),
        ClockCall::EndThread => Call::EndThread,
        ClockCall::Clock => Call::Clock,
        ClockCall::SleepUntil => Call::SleepUntil(numbers[0]),
        ClockCall::Yield => Call::Yield,
        ClockCall::Tick => Call::Tick(numbers[0]),
        ClockCall::Advance => Call::Advance,
    }
}
