//! A move that is injected and taken, and where it leaves the cursor.

ghost use Rattle.std.specs.Prelude.{◌≡◌};

use input_queue::Inputs;
use pending_state::{Meant, add_input, cursor_after, follow_inputs, inputs_after};
use std::alloc::AllocError;
use user_model::{Answer, Call, Entry, Origin};
use win_num::names::WM_MOUSEMOVE;
use win_num::{Hwnd, Msg, Point, Thread};

/// A move of the mouse to a pixel.
fn moves(x: i64, y: i64) -> Call
    ensures { result ≡ Call.Mouse 512 x y }
{
    Call::Mouse(512, x, y)
}

/// An entry that injects.
fn injected(call: Call, number: u32) -> Entry
    ensures call { result.call ≡ call }
    ensures answer { result.answer ≡ Answer.Input number }
{
    Entry {
        who: Thread(1),
        call,
        answer: Answer::Input(number),
    }
}

/// An input of this number, as a get hands it out.
fn got(number: u32) -> Entry {
    let msg = Msg {
        hwnd: Hwnd(0),
        number: WM_MOUSEMOVE,
        wparam: 0,
        lparam: 0,
        time: 0,
        point: Point { x: 3, y: 4 },
    };
    Entry {
        who: Thread(2),
        call: Call::Get(0, 0, 0),
        answer: Answer::Got {
            origin: Origin::Input,
            number,
            msg,
        },
    }
}

#[test]
fn the_cursor_is_where_the_mouse_was_put_last(rt: HostRuntime) {
    let start = Point { x: 0, y: 0 };
    let moved = cursor_after(start, injected(moves(3, 4), 1));
    assert_eq!(rt; moved, Point { x: 3, y: 4 });
    assert_eq!(rt; cursor_after(moved, injected(Call::Key(1, 65), 2)), moved);
}

#[test]
fn inputs_are_counted(rt: HostRuntime) {
    assert_eq!(rt; inputs_after(4, Answer::Input(5)), 5);
    assert_eq!(rt; inputs_after(4, Answer::Okay), 4);
}

#[test]
fn a_move_waits_until_it_is_taken(rt: HostRuntime) -> Result<(), AllocError> {
    let mut inputs = Inputs::new(rt.alloc());
    let meant = Meant {
        home: Thread(2),
        group: 6,
        cursor: Point { x: 0, y: 0 },
        time: 7,
    };
    let entry = Entry {
        who: Thread(1),
        call: Call::Mouse(512, 1, 2),
        answer: Answer::Input(1),
    };
    add_input(&mut inputs, entry, meant)?;
    assert!(rt; !inputs.lacks_place(WM_MOUSEMOVE, 6));
    follow_inputs(&mut inputs, got(1));
    assert_eq!(rt; inputs.take(1), None);
    Ok(())
}
