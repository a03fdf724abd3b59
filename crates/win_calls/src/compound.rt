//! Compound statements, what a statement is handed and what it asks for.

use user_model::{Answer, Call};
use win_num::Hwnd;

/// What a statement is handed.
#[derive(Clone, Copy, Debug, PartialEq, Eq)]
pub enum Got {
    /// Nothing yet: it begins.
    Start,
    /// The machine's answer to the call that it asked for.
    Answered(Answer),
    /// The result of the procedure that it asked to run.
    Returned(u64),
}

/// What a statement asks for.
#[derive(Clone, Copy, Debug, PartialEq, Eq)]
pub enum Next {
    /// This call of the machine is to be made.
    Make(Call),
    /// The body of a procedure is to run, and its result to be handed in; its frame stands on the thread's
    /// stack already, and the `leave` that ends it is asked for afterwards. It is a window's procedure
    /// (Microsoft, WNDPROC callback function), or the callback procedure of a send, with the extra word
    /// and the send's result as the last two (Microsoft, SENDASYNCPROC callback function).
    Run {
        /// Its number, from 0.
        proc_no: u32,
        hwnd: Hwnd,
        number: u32,
        wparam: u64,
        lparam: u64,
        /// Whether it is the callback procedure of a send.
        callback: bool,
    },
    /// It has ended; `r` and `err` are what the statement sets them to: for `create` the window or 0, for
    /// `destroy` 1 or 0, for `default` its result; for `show_window` 1 where the window was visible, for
    /// `enable_window` 1 where it was disabled, for those of focus, active window and capture the window that was
    /// there, and 1 for any other, each with err 0; and 0 with the number of a refusal. For a `send` it is the result
    /// of the window's procedure, or 0 with err 1460 where its time was over and 1400 where its window is gone
    /// (Microsoft, SendMessageTimeout function).
    Done {
        r: u64,
        err: u16,
    },
}

/// A compound statement with its arguments.
#[derive(Clone, Copy, Debug, PartialEq, Eq)]
pub enum Compound {
    /// Makes a window and tells it so: the names of its class and its title, as places in the script's
    /// list of names, its parent or owner or 0, style, extended style, and the left, top, right and bottom
    /// edge in pixels (Microsoft, CreateWindowEx function).
    Create(u32, u32, u64, u64, u64, i64, i64, i64, i64),
    /// Destroys a window, with all below it and owned by it (Microsoft, DestroyWindow function).
    Destroy(u64),
    /// Shows a window (1) or hides it (0), and tells it so where that changed it (Microsoft, ShowWindow function).
    ShowWindow(u64, u64),
    /// Enables a window (1) or disables it (0), and tells it so where that changed it (Microsoft, EnableWindow
    /// function).
    EnableWindow(u64, u64),
    /// Puts a window at a place, with the arguments of the call `place`, and tells it what changed (Microsoft,
    /// SetWindowPos function).
    SetWindowPos(u64, i64, i64, i64, i64, i64, u64),
    /// Gives a window the focus, or for 0 nobody, and tells both windows (Microsoft, SetFocus function).
    SetFocus(u64),
    /// Makes a window the active one, or for 0 none, and tells both windows (Microsoft, SetActiveWindow function).
    SetActive(u64),
    /// Gives a window the capture, and tells the one that loses it (Microsoft, SetCapture function).
    SetCapture(u64),
    /// Takes the capture away, and tells the window that loses it (Microsoft, ReleaseCapture function).
    ReleaseCapture,
    /// Begins to paint a window, and lets it erase its background where it is to (Microsoft, BeginPaint function).
    BeginPaint(u64),
    /// Lets a window paint what it is to (Microsoft, UpdateWindow function).
    UpdateWindow(u64),
    /// Posts a message to each top-level window, in order of their numbers: the message's number, wParam and lParam
    /// (Microsoft, PostMessage function, HWND_BROADCAST).
    PostAll(u64, u64, u64),
    /// Sends a message to each top-level window in the same way, and waits for none (Microsoft, SendNotifyMessage
    /// function, HWND_BROADCAST).
    NotifyAll(u64, u64, u64),
    /// What a window does with a message that its procedure leaves alone: the window, the message's number,
    /// wParam and lParam (Microsoft, DefWindowProc function).
    Default(u64, u64, u64, u64),
}
