//! Where a window is put among its siblings.

use win_num::Hwnd;

/// The place that a window is given among its siblings (Microsoft, SetWindowPos function, parameter
/// hWndInsertAfter).
#[derive(Clone, Copy, Debug, PartialEq, Eq)]
pub enum After {
    /// Above all its siblings (HWND_TOP).
    Top,
    /// Below all its siblings (HWND_BOTTOM). The topmost flag stays.
    Bottom,
    /// Directly below this sibling. The topmost flag stays.
    Below(Hwnd),
    /// At the top, with the topmost flag set (HWND_TOPMOST).
    Topmost,
    /// At the top, with the topmost flag cleared (HWND_NOTOPMOST).
    NoTopmost,
}
