//! What mending reads of a top-level window.

use win_num::Hwnd;

/// A top-level window as mending sees it.
#[derive(Clone, Copy)]
pub struct TopLevel {
    pub window: Hwnd,
    /// The window that owns it, or 0.
    pub owner: Hwnd,
    /// Whether it is topmost, by its own flag or by that of an owner up the chain.
    pub topmost: bool,
}
