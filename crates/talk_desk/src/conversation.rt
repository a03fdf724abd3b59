//! What both sides of the conversation know.

ghost use Rattle.std.specs.Prelude.{◌≡◌};
ghost use Rattle.user_desk.specs.Desks.{IsDeskSeat};

use dde_talk::{Ask, Post};
use std::alloc::AllocError;
use std::sync::Wait;
use user_desk::{Desk, DeskSeat};
use user_model::{Answer, Machine};
use win_num::{Filter, Hwnd, Msg};

/// The client's window, the first of the machine.
pub const CLIENT: Hwnd = Hwnd(16);

/// The server's window, the second.
pub const SERVER: Hwnd = Hwnd(17);

/// The least number of a message of a conversation, and the greatest.
pub const NUMBERS: (u32, u32) = (993, 1000);

/// What the client asks.
pub const ASKS: [Ask; 10] = [
    Ask::Request { item: 3 },
    Ask::Request { item: 4 },
    Ask::Poke { item: 4, value: 9 },
    Ask::Request { item: 4 },
    Ask::Request { item: 5 },
    Ask::Poke { item: 5, value: 1 },
    Ask::Execute { command: 5 },
    Ask::Execute { command: 6 },
    Ask::Poke { item: 3, value: 8 },
    Ask::Request { item: 3 },
];

/// A message as the post that it was.
pub fn post_of(msg: &Msg) -> Post {
    Post {
        number: msg.number,
        wparam: msg.wparam,
        lparam: msg.lparam,
    }
}

/// Posts a message of the conversation to a window.
pub fn post<M: Machine, R: Wait>(
    rt: &R,
    desk: &Desk<M>,
    seat: &mut DeskSeat<M>,
    to: Hwnd,
    post: Post,
) -> Result<Answer, AllocError>
    requires { IsDeskSeat desk.now seat.old }
    ensures { IsDeskSeat desk.now seat.new }
{
    let (hwnd, number) = (u64::from(to.0), u64::from(post.number));
    desk.post_message(rt, seat, hwnd, number, post.wparam, post.lparam)
}

/// Waits for the next message of the conversation to a window, or for a send that is entered.
pub fn get<M: Machine, R: Wait>(
    rt: &R,
    desk: &Desk<M>,
    seat: &mut DeskSeat<M>,
    window: Hwnd,
) -> Result<Answer, AllocError>
    requires { IsDeskSeat desk.now seat.old }
    ensures { IsDeskSeat desk.now seat.new }
{
    let (least, greatest) = NUMBERS;
    let filter = Filter {
        hwnd: u64::from(window.0),
        min: u64::from(least),
        max: u64::from(greatest),
    };
    desk.get_message(rt, seat, filter)
}
