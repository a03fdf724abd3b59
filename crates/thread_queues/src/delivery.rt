//! Which message a call posts.

ghost use Rattle.std.specs.Prelude.{if◌then◌else◌, ◌≡◌, ◌≤◌, ◌==◌};
ghost use Rattle.user_model.specs.Characters.{character};
ghost use Rattle.user_model.specs.Posts.{message};
ghost use Rattle.thread_queues.specs.Deliveries.{FitsPost, posting};
ghost use Rattle.window_state.specs.Trees.{thread_in};

use user_model::{Call, Entry};
use win_num::names::WM_CHAR;
use win_num::{Hwnd, Msg, Point};
use win_tree::Tree;
use window_state::{thread_of, window_or_none};

/// Where and when an entry comes, and what it finds of the cursor and of Shift.
#[derive(Clone, Copy)]
pub struct Stamp {
    /// The entry's place in the history.
    pub place: u32,
    /// Milliseconds of the virtual clock before it.
    pub time: u64,
    /// The cursor before it, in pixels of the screen.
    pub cursor: Point,
    /// Whether Shift is down for the caller before it.
    pub shift: bool,
}

/// The thread that an entry posts to, and the message.
pub fn posting(tree: &Tree, stamp: Stamp, entry: &Entry) -> Option<(u64, Msg)>
    requires { FitsPost tree.now.live stamp.shift entry.now.call }
    ensures { result ≡ posting tree.now.live stamp.time stamp.cursor stamp.shift entry.now.who.0 entry.now.call }
{
    match entry.call {
        Call::Post(w, number, wparam, lparam) => {
            let hwnd = window_or_none(tree, w);
            let to = queue_of(tree, entry.who.0, hwnd);
            Some((to, message(hwnd, number, wparam, lparam, stamp)))
        }
        Call::Translate(w, _, key, lparam) => {
            let hwnd = window_or_none(tree, w);
            let to = queue_of(tree, entry.who.0, hwnd);
            let typed = character(stamp.shift, key);
            Some((to, message(hwnd, u64::from(WM_CHAR), typed, lparam, stamp)))
        }
        Call::PostThread(to, number, wparam, lparam) => Some((
            to,
            message(Hwnd(0), number, wparam, lparam, stamp),
        )),
        _ => None,
    }
}

/// The thread of a window, or for window 0 the caller.
fn queue_of(tree: &Tree, who: u8, hwnd: Hwnd) -> u64
    ensures { result ≡ (if hwnd.0 == 0 then who else thread_in tree.now.live hwnd.0) }
{
    if hwnd.0 == 0 {
        u64::from(who)
    } else {
        u64::from(thread_of(tree, hwnd))
    }
}

/// The ASCII number of a key's character, where a letter is lower-case unless Shift is down (Microsoft, TranslateMessage function).
fn character(shift: bool, key: u64) -> u64
    ensures { result ≡ character shift key }
{
    if key >= 65 && key <= 90 && !shift {
        key + 32
    } else {
        key
    }
}

/// A message as it is posted, with the clock and the cursor.
fn message(hwnd: Hwnd, number: u64, wparam: u64, lparam: u64, stamp: Stamp) -> Msg
    requires { number ≤ 65535 }
    ensures { result ≡ message hwnd.0 number wparam lparam stamp.time stamp.cursor }
{
    Msg {
        hwnd,
        number: number as u32,
        wparam,
        lparam,
        time: stamp.time,
        point: stamp.cursor,
    }
}
