//! Whether calls, answers and lines after the entries are the same.

ghost use Rattle.std.specs.Prelude.{◌≡◌, ◌↔◌, IsTrue};

use answer_table::{answer_form, split_answer};
use call_fields::Value;
use call_table::{call_form, split_call};
use illegal_text::{End, EndingLine};
use log_read::Extra;
use log_text::end_word;
use user_model::{Answer, Call, SendCount};

/// Whether two texts are the same.
pub fn same_text(a: &[u8], b: &[u8]) -> bool
    ensures { IsTrue result ↔ (a.now ≡ b.now) }
{
    a == b
}

/// Whether two values of fields are the same.
fn same_value(a: Value, b: Value) -> bool
    ensures { IsTrue result ↔ (a ≡ b) }
{
    a == b
}

/// Whether two lists of values are the same.
fn same_values(a: &[Value], b: &[Value]) -> bool
    ensures { IsTrue result ↔ (a.now ≡ b.now) }
{
    if a.len() != b.len() {
        return false;
    }
    for place in 0..a.len() {
        if !same_value(a[place], b[place]) {
            return false;
        }
    }
    true
}

/// Whether two calls are the same.
pub fn same_call(a: Call, b: Call) -> bool
    ensures { IsTrue result ↔ (a ≡ b) }
{
    let a = split_call(a);
    let b = split_call(b);
    same_text(call_form(a.name).word, call_form(b.name).word) && same_values(&a.values, &b.values)
}

/// Whether two answers are the same.
pub fn same_answer(a: Answer, b: Answer) -> bool
    ensures { IsTrue result ↔ (a ≡ b) }
{
    let a = split_answer(a);
    let b = split_answer(b);
    same_text(answer_form(a.name).word, answer_form(b.name).word)
        && same_values(&a.values, &b.values)
}

/// Whether two ends are the same.
fn same_end(a: End, b: End) -> bool
    ensures { IsTrue result ↔ (a ≡ b) }
{
    same_text(end_word(a).as_bytes(), end_word(b).as_bytes())
}

/// Whether the same is told of a thread.
fn same_extra(a: Extra, b: Extra) -> bool
    ensures { IsTrue result ↔ (a ≡ b) }
{
    match (a, b) {
        (Extra::Waits(one, call), Extra::Waits(other, last)) => {
            one.0 == other.0 && same_call(call, last)
        }
        (Extra::Spent(one), Extra::Spent(other)) => one.0 == other.0,
        _ => false,
    }
}

/// Whether two counts of sends are the same.
fn same_counts(a: SendCount, b: SendCount) -> bool
    ensures { IsTrue result ↔ (a ≡ b) }
{
    a == b
}

/// Whether two lines after the entries are the same.
pub fn same_line(a: EndingLine, b: EndingLine) -> bool
    ensures { IsTrue result ↔ (a ≡ b) }
{
    match (a, b) {
        (EndingLine::Ends(one), EndingLine::Ends(other)) => same_end(one, other),
        (EndingLine::Tells(one), EndingLine::Tells(other)) => same_extra(one, other),
        (EndingLine::Counts(one), EndingLine::Counts(other)) => same_counts(one, other),
        _ => false,
    }
}
