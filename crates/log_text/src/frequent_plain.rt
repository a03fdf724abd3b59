//! Frequent calls without a field, and frequent answers without a field or of one number.
//! They are made from their end, as posts and gets are.

ghost use Rattle.std.specs.Prelude.{◌≡◌, ◌+◌, ◌≤◌, ◌++◌, length, IsTrue};
ghost use Rattle.log_text.specs.Entries.{call_text, answer_text};

use crate::line::Line;
use crate::words::Words;
use user_model::{Answer, Call};

/// Puts a call without a field before the line, and tells whether the call is one.
pub fn prepend_plain_call(line: &mut Line, words: &Words, call: Call) -> bool
    requires { length line.old + 95 ≤ 320 }
    ensures text { IsTrue result → line.new ≡ call_text words.now.script.now call ++ line.old }
    ensures room { length line.new ≤ length line.old + 95 }
{
    match call {
        Call::Yield => line.prepend_text(b"yield"),
        Call::Clock => line.prepend_text(b"clock"),
        Call::EndThread => line.prepend_text(b"end_thread"),
        _ => return false,
    }
    true
}

/// Puts an answer without a field or of one number before the line, and tells whether the answer is one.
pub fn prepend_plain_answer(line: &mut Line, words: &Words, answer: Answer) -> bool
    requires { length line.old + 182 ≤ 320 }
    ensures text { IsTrue result → line.new ≡ answer_text words.now.script.now answer ++ line.old }
    ensures room { length line.new ≤ length line.old + 182 }
{
    match answer {
        Answer::Wait => line.prepend_text(b"wait"),
        Answer::Okay => line.prepend_text(b"ok"),
        Answer::Ended => line.prepend_text(b"ended"),
        Answer::Value(value) => {
            line.prepend_operand(value);
            line.prepend_text(b"value");
        }
        _ => return false,
    }
    true
}
