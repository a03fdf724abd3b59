//! The lines of which logs mostly consist: posts and gets, each answered by a message that was posted or retrieved, and those of
//! calls and answers that the other two modules make. They are made from their end, without taking the call and the answer apart.

ghost use Rattle.std.specs.Prelude.{◌≡◌, ◌+◌, ◌≤◌, [], ◌∷◌, ◌++◌, length, codes, IsTrue};
ghost use Rattle.std.specs.List.{flat_map};
ghost use Rattle.call_fields.specs.declared.value.Value.TheVariants as values;
ghost use Rattle.log_text.specs.Entries.{value_text, call_text, answer_text, entry_line};

use crate::frequent_sends::{prepend_posting, prepend_send_answer, prepend_send_call};
use crate::line::Line;
use crate::words::Words;
use call_fields::source_word;
use user_model::{Answer, Call, Entry, Origin};
use win_num::{Msg, Point};

/// Puts the values of a get before the line: a window, and the least and the greatest number of a message.
fn prepend_filter(line: &mut Line, words: &Words, w: u64, min: u64, max: u64)
    requires { length line.old + 63 ≤ 320 }
    ensures text { line.new ≡ flat_map (value_text words.now.script.now) (values.Number w ∷ values.Number min ∷ values.Number max ∷ []) ++ line.old }
    ensures room { length line.new ≤ length line.old + 63 }
{
    line.prepend_operand(max);
    line.prepend_operand(min);
    line.prepend_operand(w);
}

/// Puts a point in pixels before the line.
fn prepend_point(line: &mut Line, words: &Words, point: Point)
    requires { length line.old + 44 ≤ 320 }
    ensures text { line.new ≡ flat_map (value_text words.now.script.now) (values.Pixel point.x ∷ values.Pixel point.y ∷ []) ++ line.old }
    ensures room { length line.new ≤ length line.old + 44 }
{
    line.prepend_signed(i64::from(point.y));
    line.prepend_signed(i64::from(point.x));
}

/// Puts a message that was retrieved before the line: its window, number and parameters, and when and where it came about.
fn prepend_retrieved(line: &mut Line, words: &Words, msg: Msg)
    requires { length line.old + 149 ≤ 320 }
    ensures text { line.new ≡ flat_map (value_text words.now.script.now) (values.Window msg.hwnd ∷ values.ShortMessage msg.number ∷ values.Number msg.wparam ∷ values.Number msg.lparam ∷ values.Number msg.time ∷ values.Pixel msg.point.x ∷ values.Pixel msg.point.y ∷ []) ++ line.old }
    ensures room { length line.new ≤ length line.old + 149 }
{
    prepend_point(line, words, msg.point);
    line.prepend_operand(msg.time);
    line.prepend_operand(msg.lparam);
    line.prepend_operand(msg.wparam);
    words.prepend_message(line, u64::from(msg.number));
    line.prepend_operand(u64::from(msg.hwnd.0));
}

/// Puts a word and the number of a post before the line.
fn prepend_got(line: &mut Line, words: &Words, origin: Origin, number: u32, msg: Msg)
    requires { length line.old + 179 ≤ 320 }
    ensures text { line.new ≡ flat_map (value_text words.now.script.now) (values.Source origin ∷ values.Count number ∷ values.Window msg.hwnd ∷ values.ShortMessage msg.number ∷ values.Number msg.wparam ∷ values.Number msg.lparam ∷ values.Number msg.time ∷ values.Pixel msg.point.x ∷ values.Pixel msg.point.y ∷ []) ++ line.old }
    ensures room { length line.new ≤ length line.old + 179 }
{
    prepend_retrieved(line, words, msg);
    line.prepend_operand(u64::from(number));
    line.prepend_text(source_word(origin));
    line.prepend_text(b" ");
}

/// Puts a frequent call before the line, and tells whether the call is one.
pub fn prepend_call(line: &mut Line, words: &Words, call: Call) -> bool
    requires { length line.old + 95 ≤ 320 }
    ensures text { IsTrue result → line.new ≡ call_text words.now.script.now call ++ line.old }
    ensures room { length line.new ≤ length line.old + 95 }
{
    match call {
        Call::PostThread(thread, number, wparam, lparam) => {
            prepend_posting(line, words, thread, number, wparam, lparam);
            line.prepend_text(b"post_thread");
        }
        Call::Post(w, number, wparam, lparam) => {
            prepend_posting(line, words, w, number, wparam, lparam);
            line.prepend_text(b"post");
        }
        Call::Get(w, min, max) => {
            prepend_filter(line, words, w, min, max);
            line.prepend_text(b"get");
        }
        _ => return prepend_send_call(line, words, call),
    }
    true
}

/// Puts a frequent answer before the line, and tells whether the answer is one.
pub fn prepend_answer(line: &mut Line, words: &Words, answer: Answer) -> bool
    requires { length line.old + 182 ≤ 320 }
    ensures text { IsTrue result → line.new ≡ answer_text words.now.script.now answer ++ line.old }
    ensures room { length line.new ≤ length line.old + 182 }
{
    match answer {
        Answer::Posted(number) => {
            line.prepend_operand(u64::from(number));
            line.prepend_text(b"posted");
        }
        Answer::Got {
            origin,
            number,
            msg,
        } => {
            prepend_got(line, words, origin, number, msg);
            line.prepend_text(b"got");
        }
        _ => return prepend_send_answer(line, words, answer),
    }
    true
}

/// Makes the line of an entry, and tells whether the entry is a frequent one.
pub fn prepend_entry(line: &mut Line, words: &Words, entry: Entry) -> bool
    requires { line.old ≡ [] }
    ensures { IsTrue result → line.new ≡ entry_line words.now.script.now entry }
{
    line.prepend_text(b"\n");
    if !prepend_answer(line, words, entry.answer) {
        return false;
    }
    line.prepend_text(b" = ");
    if !prepend_call(line, words, entry.call) {
        return false;
    }
    line.prepend_text(b" ");
    line.prepend_number(u64::from(entry.who.0));
    true
}
