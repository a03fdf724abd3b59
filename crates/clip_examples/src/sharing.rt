//! Two threads share a machine, by a desk, and a clipboard, by a lock. The first offers a text delayed, and tells the second so; the
//! second asks for it, and the first renders it.

mod closing;
mod opening;
mod owner;
mod reader;
mod work;

use clip_board::Clip;
use std::alloc::Global;
use std::io::Print;
use std::sync::Wait;
use std::thread::Threads;
use turn_lock::{TurnLock, TurnSeat};
use user_core::User;
use user_model::Setup;
use win_num::Filter;

/// A clipboard that threads share. Seat 0 makes no call.
type SharedClip = TurnLock<Clip>;

/// A thread's seat at it.
type ClipSeat = TurnSeat<Clip>;

/// The format of a text (Microsoft, Standard Clipboard Formats).
const CF_UNICODETEXT: u32 = 13;

/// The data of a text: its place among these.
const TEXTS: [&str; 2] = ["", "a text that was rendered when it was asked for"];

/// Every message of a thread.
const ALL: Filter = Filter {
    hwnd: 0,
    min: 0,
    max: 0,
};

/// Runs both threads at a new machine and a new clipboard.
pub fn show<R: Threads + Wait + Sync + Print>(rt: &R, alloc: Global) -> anyhow::Result<()> {
    let machine = User::new(alloc, Setup::new(2, 8, 4))?;
    work::run(rt, alloc, machine)
}
