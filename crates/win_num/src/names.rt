//! The numbers of messages, styles, flags, keys and status bits, under their names.

/// A window has a part to paint (Microsoft, WM_PAINT message).
pub const WM_PAINT: u32 = 15;

/// The thread is to leave its message loop (Microsoft, WM_QUIT message).
pub const WM_QUIT: u32 = 18;

/// A key goes down (Microsoft, WM_KEYDOWN message).
pub const WM_KEYDOWN: u32 = 256;

/// A key goes up (Microsoft, WM_KEYUP message).
pub const WM_KEYUP: u32 = 257;

/// A key made a character (Microsoft, WM_CHAR message).
pub const WM_CHAR: u32 = 258;

/// A timer is due (Microsoft, WM_TIMER message).
pub const WM_TIMER: u32 = 275;

/// The cursor moved (Microsoft, WM_MOUSEMOVE message).
pub const WM_MOUSEMOVE: u32 = 512;

/// The left button goes down (Microsoft, WM_LBUTTONDOWN message).
pub const WM_LBUTTONDOWN: u32 = 513;

/// The left button goes up (Microsoft, WM_LBUTTONUP message).
pub const WM_LBUTTONUP: u32 = 514;

/// The right button goes down (Microsoft, WM_RBUTTONDOWN message).
pub const WM_RBUTTONDOWN: u32 = 516;

/// The right button goes up (Microsoft, WM_RBUTTONUP message).
pub const WM_RBUTTONUP: u32 = 517;

/// The window takes no input (Microsoft, Window Styles).
pub const WS_DISABLED: u64 = 134217728;

/// The window is shown where its ancestors are (Microsoft, Window Styles).
pub const WS_VISIBLE: u64 = 268435456;

/// The window has a parent (Microsoft, Window Styles).
pub const WS_CHILD: u64 = 1073741824;

/// The window is a pop-up window (Microsoft, Window Styles).
pub const WS_POPUP: u64 = 2147483648;

/// The window stands above all that have no such flag (Microsoft, Extended Window Styles).
pub const WS_EX_TOPMOST: u64 = 8;

/// Keeps the size (Microsoft, SetWindowPos function).
pub const SWP_NOSIZE: u64 = 1;

/// Keeps the place (Microsoft, SetWindowPos function).
pub const SWP_NOMOVE: u64 = 2;

/// Keeps the z-order (Microsoft, SetWindowPos function).
pub const SWP_NOZORDER: u64 = 4;

/// Does not activate the window (Microsoft, SetWindowPos function).
pub const SWP_NOACTIVATE: u64 = 16;

/// Shows the window (Microsoft, SetWindowPos function).
pub const SWP_SHOWWINDOW: u64 = 64;

/// Hides the window (Microsoft, SetWindowPos function).
pub const SWP_HIDEWINDOW: u64 = 128;

/// Carries no pixels of the window to its new place (Microsoft, SetWindowPos function).
pub const SWP_NOCOPYBITS: u64 = 256;

/// The message is taken out (Microsoft, PeekMessage function).
pub const PM_REMOVE: u64 = 1;

/// The sender serves nobody while it waits (Microsoft, SendMessageTimeout function).
pub const SMTO_BLOCK: u64 = 1;

/// The sender gives up as soon as the receiver is hung (Microsoft, SendMessageTimeout function).
pub const SMTO_ABORTIFHUNG: u64 = 2;

/// The sender's time ends only while the receiver is hung (Microsoft, SendMessageTimeout function).
pub const SMTO_NOTIMEOUTIFNOTHUNG: u64 = 8;

/// The left mouse button (Microsoft, Virtual-Key Codes).
pub const VK_LBUTTON: u64 = 1;

/// The right mouse button (Microsoft, Virtual-Key Codes).
pub const VK_RBUTTON: u64 = 2;

/// The shift key (Microsoft, Virtual-Key Codes).
pub const VK_SHIFT: u64 = 16;

/// The space bar (Microsoft, Virtual-Key Codes).
pub const VK_SPACE: u64 = 32;

/// A key message is there (Microsoft, GetQueueStatus function).
pub const QS_KEY: u64 = 1;

/// A mouse move is there (Microsoft, GetQueueStatus function).
pub const QS_MOUSEMOVE: u64 = 2;

/// A mouse button message is there (Microsoft, GetQueueStatus function).
pub const QS_MOUSEBUTTON: u64 = 4;

/// A posted message or quit is there (Microsoft, GetQueueStatus function).
pub const QS_POSTMESSAGE: u64 = 8;

/// A timer is due (Microsoft, GetQueueStatus function).
pub const QS_TIMER: u64 = 16;

/// A window has a part to paint (Microsoft, GetQueueStatus function).
pub const QS_PAINT: u64 = 32;

/// A sent message or a result is there (Microsoft, GetQueueStatus function).
pub const QS_SENDMESSAGE: u64 = 64;

/// The window filter that takes only what has no window: minus one.
pub const NO_WINDOW: u64 = 18446744073709551615;
