//! What sends add to a log: the calls by which a message is sent, its answer awaited and its procedure left, and their answers.
//! They are made from their end, as posts and gets are.

ghost use Rattle.std.specs.Prelude.{◌≡◌, ◌+◌, ◌≤◌, [], ◌∷◌, ◌++◌, length, IsTrue};
ghost use Rattle.std.specs.List.{flat_map};
ghost use Rattle.call_fields.specs.Messages.{message_values};
ghost use Rattle.call_fields.specs.declared.value.Value.TheVariants as values;
ghost use Rattle.log_text.specs.Entries.{value_text, call_text, answer_text};

use crate::frequent_plain::{prepend_plain_answer, prepend_plain_call};
use crate::line::Line;
use crate::words::Words;
use call_fields::cause_word;
use user_model::{Answer, Call};
use win_num::{Cause, SendId};

/// Puts the values of a message that is posted or sent before the line: its window or thread, its number and its parameters.
pub fn prepend_posting(
    line: &mut Line,
    words: &Words,
    to: u64,
    number: u64,
    wparam: u64,
    lparam: u64,
)
    requires { length line.old + 84 ≤ 320 }
    ensures text { line.new ≡ flat_map (value_text words.now.script.now) (message_values to number wparam lparam) ++ line.old }
    ensures room { length line.new ≤ length line.old + 84 }
{
    line.prepend_operand(lparam);
    line.prepend_operand(wparam);
    words.prepend_message(line, number);
    line.prepend_operand(to);
}

/// Puts a send and the procedure that runs for it before the line, and tells whether the procedure's name has room.
fn prepend_running(line: &mut Line, words: &Words, send: SendId, procedure: u32) -> bool
    requires { length line.old + 54 ≤ 320 }
    ensures text { IsTrue result → line.new ≡ flat_map (value_text words.now.script.now) (values.Send send ∷ values.Procedure procedure ∷ []) ++ line.old }
    ensures room { length line.new ≤ length line.old + 54 }
{
    if !words.prepend_procedure(line, procedure) {
        return false;
    }
    line.prepend_operand(u64::from(send.0));
    true
}

/// Puts the result of a send and how it came about before the line.
fn prepend_done(line: &mut Line, words: &Words, value: u64, cause: Cause)
    requires { length line.old + 29 ≤ 320 }
    ensures text { line.new ≡ flat_map (value_text words.now.script.now) (values.Number value ∷ values.Cause cause ∷ []) ++ line.old }
    ensures room { length line.new ≤ length line.old + 29 }
{
    line.prepend_text(cause_word(cause));
    line.prepend_text(b" ");
    line.prepend_operand(value);
}

/// Puts a send, the wait for its answer or the end of its procedure before the line, or a plain call, and tells whether the call
/// is one of these.
pub fn prepend_send_call(line: &mut Line, words: &Words, call: Call) -> bool
    requires { length line.old + 95 ≤ 320 }
    ensures text { IsTrue result → line.new ≡ call_text words.now.script.now call ++ line.old }
    ensures room { length line.new ≤ length line.old + 95 }
{
    match call {
        Call::Send(w, number, wparam, lparam) => {
            prepend_posting(line, words, w, number, wparam, lparam);
            line.prepend_text(b"send");
        }
        Call::Await(send) => {
            line.prepend_operand(send);
            line.prepend_text(b"await");
        }
        Call::Leave(value) => {
            line.prepend_operand(value);
            line.prepend_text(b"leave");
        }
        _ => return prepend_plain_call(line, words, call),
    }
    true
}

/// Puts the answer that a procedure runs for a send before the line, or a plain answer, and tells whether the answer is one of
/// these and has room.
fn prepend_running_answer(line: &mut Line, words: &Words, answer: Answer) -> bool
    requires { length line.old + 182 ≤ 320 }
    ensures text { IsTrue result → line.new ≡ answer_text words.now.script.now answer ++ line.old }
    ensures room { length line.new ≤ length line.old + 182 }
{
    match answer {
        Answer::Enter {
            send,
            proc_no,
            hwnd,
            number,
            wparam,
            lparam,
        } => {
            prepend_posting(
                line,
                words,
                u64::from(hwnd.0),
                u64::from(number),
                wparam,
                lparam,
            );
            let has_room = prepend_running(line, words, send, proc_no);
            line.prepend_text(b"enter");
            has_room
        }
        Answer::Inside(send, procedure) => {
            let has_room = prepend_running(line, words, send, procedure);
            line.prepend_text(b"inside");
            has_room
        }
        _ => prepend_plain_answer(line, words, answer),
    }
}

/// Puts the answer that a send was begun, left or answered before the line, or one by which its procedure runs, or a plain one,
/// and tells whether the answer is one of these and has room.
pub fn prepend_send_answer(line: &mut Line, words: &Words, answer: Answer) -> bool
    requires { length line.old + 182 ≤ 320 }
    ensures text { IsTrue result → line.new ≡ answer_text words.now.script.now answer ++ line.old }
    ensures room { length line.new ≤ length line.old + 182 }
{
    match answer {
        Answer::Begun(send) => {
            line.prepend_operand(u64::from(send.0));
            line.prepend_text(b"begun");
        }
        Answer::Left(send) => {
            line.prepend_operand(u64::from(send.0));
            line.prepend_text(b"left");
        }
        Answer::Done {
            result: value,
            cause,
        } => {
            prepend_done(line, words, value, cause);
            line.prepend_text(b"done");
        }
        _ => return prepend_running_answer(line, words, answer),
    }
    true
}
