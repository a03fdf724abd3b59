//! Messages that compounds and the default procedure know.

/// A window was made (Microsoft, WM_CREATE message).
pub const WM_CREATE: u32 = 1;

/// A window is being destroyed (Microsoft, WM_DESTROY message).
pub const WM_DESTROY: u32 = 2;

/// A window was moved (Microsoft, WM_MOVE message).
pub const WM_MOVE: u32 = 3;

/// A window's size was changed (Microsoft, WM_SIZE message).
pub const WM_SIZE: u32 = 5;

/// A window becomes the active one, or is it no longer (Microsoft, WM_ACTIVATE message).
pub const WM_ACTIVATE: u32 = 6;

/// A window gains the focus (Microsoft, WM_SETFOCUS message).
pub const WM_SETFOCUS: u32 = 7;

/// A window loses the focus (Microsoft, WM_KILLFOCUS message).
pub const WM_KILLFOCUS: u32 = 8;

/// A window is enabled or disabled (Microsoft, WM_ENABLE message).
pub const WM_ENABLE: u32 = 10;

/// A window is to be painted (Microsoft, WM_PAINT message).
pub const WM_PAINT: u32 = 15;

/// A window is to be closed (Microsoft, WM_CLOSE message).
pub const WM_CLOSE: u32 = 16;

/// The background of a window is to be painted (Microsoft, WM_ERASEBKGND message).
pub const WM_ERASEBKGND: u32 = 20;

/// A window is shown or hidden (Microsoft, WM_SHOWWINDOW message).
pub const WM_SHOWWINDOW: u32 = 24;

/// A window is to leave what it is in the middle of, as a capture of the mouse (Microsoft, WM_CANCELMODE message).
pub const WM_CANCELMODE: u32 = 31;

/// A window is being made (Microsoft, WM_NCCREATE message).
pub const WM_NCCREATE: u32 = 129;

/// A window gets its last message (Microsoft, WM_NCDESTROY message).
pub const WM_NCDESTROY: u32 = 130;

/// A window loses the capture of the mouse (Microsoft, WM_CAPTURECHANGED message).
pub const WM_CAPTURECHANGED: u32 = 533;
