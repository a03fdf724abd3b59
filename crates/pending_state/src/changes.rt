//! What an entry does to the input that no thread has taken.

ghost use Rattle.std.specs.Prelude.{◌≡◌, OnOk, OnErr, option_map};
ghost use Rattle.user_model.specs.Inputs.{injection};
ghost use Rattle.pending_state.specs.Changes.{FitsCursor, FitsInjecting, FitsInjection, FitsMoving, added_by, counted_with, cursor_with, element_from, left_by, moved_by, taken_by};

use input_queue::{Element, Inputs};
use std::alloc::AllocError;
use user_model::{Answer, Call, Entry, Origin};
use win_num::names::{WM_KEYDOWN, WM_KEYUP};
use win_num::{Fault, Point, Thread};

/// Whom an injection is meant for, and the cursor and the clock, in milliseconds, before it.
#[derive(Clone, Copy, Debug, PartialEq, Eq)]
pub struct Meant {
    /// The thread that it is meant for.
    pub home: Thread,
    /// The threads of its group: bit t for thread t.
    pub group: u16,
    pub cursor: Point,
    pub time: u64,
}

/// Adds what an entry injects, which a move of the mouse may do in the place of another (Microsoft, SendInput function, and WM_MOUSEMOVE
/// message). Any other entry changes nothing. Want of memory is the only error.
pub fn add_input(inputs: &mut Inputs, entry: Entry, meant: Meant) -> Result<(), AllocError>
    requires fits { FitsInjecting meant inputs.old entry.answer entry.call }
    ensures ok { OnOk result (inputs.new ≡ added_by meant entry.answer entry.call inputs.old) }
    ensures err { OnErr result (inputs.new ≡ inputs.old) }
{
    let Answer::Input(number) = entry.answer else {
        return Ok(());
    };
    let Some(element) = element_of(entry.call, number, meant) else {
        return Ok(());
    };
    match inputs.add(element, meant.group) {
        Ok(()) => Ok(()),
        Err(Fault::Memory) => Err(AllocError),
        Err(Fault::Refused(_)) => unreachable!(),
    }
}

/// The element of a call that injects one.
fn element_of(call: Call, number: u32, meant: Meant) -> Option<Element>
    requires { FitsInjection (injection call) }
    ensures { result ≡ option_map (element_from meant number) (injection call) }
{
    match call {
        Call::Mouse(message, x, y) => Some(Element {
            number,
            home: meant.home,
            message: message as u32,
            key: 0,
            point: Point {
                x: x as i32,
                y: y as i32,
            },
            time: meant.time,
        }),
        Call::Key(down, key) => Some(Element {
            number,
            home: meant.home,
            message: if down == 1 { WM_KEYDOWN } else { WM_KEYUP },
            key: key as u8,
            point: meant.cursor,
            time: meant.time,
        }),
        _ => None,
    }
}

/// Takes out the input that a retrieval removed, or what was meant for a thread that has ended.
pub fn follow_inputs(inputs: &mut Inputs, entry: Entry)
    ensures { inputs.new ≡ left_by entry.who entry.answer entry.call inputs.old }
{
    match entry.answer {
        Answer::Got {
            origin: Origin::Input,
            number,
            ..
        } => take_out(inputs, entry.call, number),
        Answer::Ended => inputs.purge(entry.who),
        _ => {}
    }
}

/// Takes out the input of a number, where the call removes what it retrieves.
fn take_out(inputs: &mut Inputs, call: Call, number: u32)
    ensures { inputs.new ≡ taken_by number call inputs.old }
{
    if call.removes() {
        let _taken = inputs.take(number);
    }
}

/// How many inputs there were, with this entry.
pub fn inputs_after(count: u32, answer: Answer) -> u32
    ensures { result ≡ counted_with answer count }
{
    match answer {
        Answer::Input(number) => number,
        _ => count,
    }
}

/// The cursor after an entry, in pixels of the screen: where a message of the mouse was injected last (Microsoft, GetCursorPos function).
pub fn cursor_after(cursor: Point, entry: Entry) -> Point
    requires { FitsCursor entry.answer entry.call }
    ensures { result ≡ cursor_with entry.answer entry.call cursor }
{
    match entry.answer {
        Answer::Refused(_) => cursor,
        _ => moved_by(entry.call, cursor),
    }
}

/// Where a call puts the cursor.
fn moved_by(call: Call, cursor: Point) -> Point
    requires { FitsMoving call }
    ensures { result ≡ moved_by call cursor }
{
    match call {
        Call::Mouse(_, x, y) => Point {
            x: x as i32,
            y: y as i32,
        },
        _ => cursor,
    }
}
