//! What is known of a window, and what a destruction answers.

use win_num::{Hwnd, Rect, Thread};

/// A window as it was made, with its style and place as they were set last (Microsoft, CreateWindowEx
/// function).
#[derive(Clone, Copy, Debug, PartialEq)]
pub struct WindowRow {
    /// The thread that made it.
    pub thread: Thread,
    /// The name of its class, a number.
    pub class: u32,
    /// The name of its title, a number.
    pub title: u32,
    /// Its parent, or 0 for a top-level window.
    pub parent: Hwnd,
    /// The window that owns it, or 0.
    pub owner: Hwnd,
    /// Style bits.
    pub style: u32,
    /// Extended style bits.
    pub ex: u32,
    /// Its rectangle in pixels, from the left top corner of its parent, or of the screen.
    pub place: Rect,
}

/// What `unmake` answers (Microsoft, DestroyWindow function).
#[derive(Clone, Copy, Debug, PartialEq, Eq)]
pub enum Unmade {
    /// This window is to be told that it is destroyed (WM_DESTROY), before its children are.
    Tell(Hwnd),
    /// This window gets its last message (WM_NCDESTROY), after its children got theirs.
    Last(Hwnd),
    /// The window isn't live.
    Gone,
    /// The window is live and isn't marked.
    NotDoomed,
}
