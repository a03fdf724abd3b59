//! One input.

use win_num::{Point, Thread};

/// A mouse or keyboard input as it was injected.
#[derive(Clone, Copy, Debug, PartialEq, Eq)]
pub struct Element {
    /// Its number, from 1 in the order of injection.
    pub number: u32,
    /// The thread that it was meant for when it was injected, 1 to 15.
    pub home: Thread,
    /// The number of its message, as 512 for WM_MOUSEMOVE (Microsoft, Mouse Input and Keyboard Input).
    pub message: u32,
    /// The key, or 0 for the mouse (Microsoft, Virtual-Key Codes).
    pub key: u8,
    /// The cursor when it was injected, in pixels of the screen.
    pub point: Point,
    /// When it was injected, in milliseconds of the virtual clock.
    pub time: u64,
}
