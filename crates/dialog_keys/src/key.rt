//! A key that comes to a dialog, and what it is for.

ghost use Rattle.std.specs.Prelude.{◌≡◌};
ghost use Rattle.dialog_keys.specs.Keys.{errand_of};

use win_num::Hwnd;

/// The Tab key (Microsoft, Virtual-Key Codes).
pub const VK_TAB: u8 = 9;

/// The Enter key (Microsoft, Virtual-Key Codes).
pub const VK_RETURN: u8 = 13;

/// The Escape key (Microsoft, Virtual-Key Codes).
pub const VK_ESCAPE: u8 = 27;

/// The left arrow key (Microsoft, Virtual-Key Codes).
pub const VK_LEFT: u8 = 37;

/// The up arrow key (Microsoft, Virtual-Key Codes).
pub const VK_UP: u8 = 38;

/// The right arrow key (Microsoft, Virtual-Key Codes).
pub const VK_RIGHT: u8 = 39;

/// The down arrow key (Microsoft, Virtual-Key Codes).
pub const VK_DOWN: u8 = 40;

/// A command was chosen, the message's wParam (Microsoft, WM_COMMAND message).
pub const WM_COMMAND: u64 = 273;

/// The command of Enter (Microsoft, Dialog Box Command Identifiers).
pub const IDOK: u64 = 1;

/// The command of Escape (Microsoft, Dialog Box Command Identifiers).
pub const IDCANCEL: u64 = 2;

/// A key that goes down while a child of a dialog has the focus.
#[derive(Clone, Copy, Debug, PartialEq, Eq)]
pub struct DialogKey {
    pub dialog: Hwnd,
    /// The window that has the focus, or 0.
    pub focus: Hwnd,
    /// The key's virtual-key code.
    pub vk: u8,
    /// Whether Shift is down.
    pub shift: bool,
}

/// What a dialog does at a key.
#[derive(Clone, Copy, Debug, PartialEq, Eq)]
pub enum Errand {
    /// It moves the focus, forwards or backwards.
    Moves(bool),
    /// It sends this command.
    Commands(u64),
    /// It leaves the key alone.
    Nothing,
}

impl DialogKey {
    /// What the dialog does at it.
    pub fn errand(self) -> Errand
        ensures { result ≡ errand_of self.vk self.shift }
    {
        match self.vk {
            VK_TAB => Errand::Moves(!self.shift),
            VK_RIGHT | VK_DOWN => Errand::Moves(true),
            VK_LEFT | VK_UP => Errand::Moves(false),
            VK_RETURN => Errand::Commands(IDOK),
            VK_ESCAPE => Errand::Commands(IDCANCEL),
            _ => Errand::Nothing,
        }
    }
}
