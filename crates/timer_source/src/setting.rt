//! A timer as it was set.

use win_num::{Hwnd, Thread};

/// What is kept of a timer that is set. It is due at its base plus its period.
#[derive(Clone, Copy)]
pub struct Setting {
    /// The thread whose window it is.
    pub thread: Thread,
    /// The window whose timer it is.
    pub hwnd: Hwnd,
    /// Its number among the timers of the window.
    pub id: u64,
    /// Its period in milliseconds, 10 to 2147483647.
    pub period: u32,
    /// The clock when the period began, in milliseconds below 2 to the 54th.
    pub base: u64,
}
