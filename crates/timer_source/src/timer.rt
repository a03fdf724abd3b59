//! A timer as a retrieval sees it.

use win_num::Hwnd;

/// A timer of a window, and when it is due.
#[derive(Clone, Copy, Debug, PartialEq, Eq)]
pub struct Timer {
    /// The window whose timer it is.
    pub hwnd: Hwnd,
    /// Its number among the timers of the window.
    pub id: u64,
    /// When it is due, in milliseconds of the virtual clock.
    pub due: u64,
}
