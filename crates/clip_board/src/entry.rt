//! The calls of a clipboard, their answers, and the entries of its history.

ghost use Rattle.std.specs.Prelude.{◌≡◌};
ghost use Rattle.clip_board.specs.Clipboards.{format_of};

use win_num::{Code, Hwnd, Thread};

/// How many formats a clipboard keeps.
pub const FORMAT_LIMIT: usize = 64;

/// How many entries a history has room for.
pub const HISTORY_LIMIT: usize = 2_097_152;

/// The owner is to set a format, the message's wParam (Microsoft, WM_RENDERFORMAT message).
pub const WM_RENDERFORMAT: u32 = 773;

/// The owner's formats were taken away (Microsoft, WM_DESTROYCLIPBOARD message).
pub const WM_DESTROYCLIPBOARD: u32 = 775;

/// A call of a clipboard. A format is a number, and the data of a format is a number too.
#[derive(Clone, Copy, Debug, PartialEq, Eq, Drop)]
pub enum ClipCall {
    /// Opens the clipboard with a window, or with 0 for none (Microsoft, OpenClipboard function).
    Open { hwnd: Hwnd },
    /// Takes all formats away, and makes the caller the owner with the window that it opened the clipboard with
    /// (Microsoft, EmptyClipboard function).
    Empty,
    /// Sets the data of a format, 1 to 65535 (Microsoft, SetClipboardData function).
    Set { format: u32, value: u64 },
    /// Offers a format, 1 to 65535, whose data the owner sets when it is asked for (Microsoft, SetClipboardData
    /// function with no data).
    Delay { format: u32 },
    /// Asks for the data of a format, 1 to 65535 (Microsoft, GetClipboardData function).
    Get { format: u32 },
    /// Closes the clipboard (Microsoft, CloseClipboard function).
    Close,
}

impl ClipCall {
    /// The format that it speaks of. 0 where it speaks of none.
    pub fn format(&self) -> u32
        ensures { result ≡ format_of self.now }
    {
        match self {
            ClipCall::Set { format, .. } => *format,
            ClipCall::Delay { format } => *format,
            ClipCall::Get { format } => *format,
            _ => 0,
        }
    }
}

/// What a call of a clipboard is answered.
#[derive(Clone, Copy, Debug, PartialEq, Eq, Drop)]
pub enum ClipAnswer {
    Done,
    /// The window of the owner that there was, or 0.
    Was(Hwnd),
    /// The data of the format.
    Value(u64),
    /// The format is delayed: the window of the owner, who is to be asked to render it.
    Ask(Hwnd),
    /// The format isn't there, or is delayed and nobody can be asked for it.
    Nothing,
    /// The call did nothing. The number is 5 where another has the clipboard, 1418 where it isn't open by the caller,
    /// and 87 for a format that isn't 1 to 65535 (Microsoft, System Error Codes).
    Refused(Code),
}

/// One call with its answer.
#[derive(Clone, Copy, Debug, PartialEq, Eq, Drop)]
pub struct ClipEntry {
    pub who: Thread,
    pub call: ClipCall,
    pub answer: ClipAnswer,
}

/// A thread, with the window that it opened the clipboard with, or 0.
#[derive(Clone, Copy, Debug, PartialEq, Eq, Drop)]
pub struct Holder {
    pub who: Thread,
    pub hwnd: Hwnd,
}

/// What is kept of a format.
#[derive(Clone, Copy, Debug, PartialEq, Eq, Drop)]
pub enum Kept {
    /// Its data.
    Data(u64),
    /// It is rendered when it is asked for.
    Delayed,
}
