//! Procedures that run, and compound statements in the middle of their traces.

use crate::variables::Parameters;
use user_model::{Answer, Call};
use win_num::{Frame, Msg};

/// A procedure that is to run, or runs.
#[derive(Clone, Copy)]
pub struct Run {
    /// Its place in the list of procedures, from 0.
    pub procedure: u32,
    pub parameters: Parameters,
    /// The frame that stands for it on its thread's stack.
    pub frame: Frame,
}

/// A message that a compound statement sends, whatever becomes of it.
#[derive(Clone, Copy)]
pub struct Notice {
    /// The number of the window.
    pub window: u64,
    /// The number of the message.
    pub number: u32,
    pub wparam: u64,
    pub lparam: u64,
}

/// The messages that a compound statement still sends, one after another: those of the three that are there.
#[derive(Clone, Copy)]
pub struct Notices {
    pub first: Option<Notice>,
    pub second: Option<Notice>,
    pub third: Option<Notice>,
}

/// How a message goes to each top-level window.
#[derive(Clone, Copy)]
pub enum Spread {
    /// It is posted (Microsoft, PostMessage function).
    Posts,
    /// It is sent, and nobody waits for it (Microsoft, SendNotifyMessage function).
    Notifies,
}

/// A message that goes to each top-level window.
#[derive(Clone, Copy)]
pub struct Broadcast {
    pub spread: Spread,
    /// The number of the message, as it was written.
    pub number: u64,
    pub wparam: u64,
    pub lparam: u64,
}

/// A dialog, by the numbers of its windows (Microsoft, DialogBox function).
#[derive(Clone, Copy)]
pub struct Dialog {
    /// The window that it runs on.
    pub window: u64,
    /// The owner that is enabled again after it, or 0.
    pub owner: u64,
}

/// A loop that gets messages and hands each to its window's procedure.
#[derive(Clone, Copy)]
pub enum Modal {
    /// `pump`, until WM_QUIT comes (Microsoft, GetMessage and DispatchMessage functions).
    Pump,
    /// That of a dialog, until it has its result (Microsoft, DialogBox and EndDialog functions).
    Dialog(Dialog),
}

/// Where a compound statement stands: behind one of its calls, or behind the end of a compound inside of
/// it. Windows are named by their numbers.
#[derive(Clone, Copy)]
pub enum Place {
    /// `create`: the window is being made.
    Making,
    /// `create`: the window is told that it is being made (Microsoft, WM_NCCREATE message).
    Greeting(u64),
    /// `create`: the window is told that it was made (Microsoft, WM_CREATE message).
    Telling(u64),
    /// `create`: the new window is destroyed by a compound inside of it.
    Undoing,
    /// `destroy`: the window and all that goes with it are being marked.
    Dooming(u64),
    /// `destroy`: its next step is asked for.
    Unmaking(u64),
    /// `destroy`: a window is told that it is destroyed (Microsoft, WM_DESTROY message).
    Destroying(u64),
    /// `destroy`: the second window gets its last message (Microsoft, WM_NCDESTROY message).
    Parting(u64, u64),
    /// `destroy`: a window is taken away.
    Dropping(u64),
    /// A compound of one call: that is being made.
    Single,
    /// A compound that sends messages after its first call: that is being made, and is this one.
    Calling(Call),
    /// The same: a message is being sent. These are sent after it, and then the compound ends with this result.
    Notifying(Notices, u64),
    /// `post_all` and `notify_all`: the next top-level window is asked for.
    Seeking(Broadcast),
    /// The same: the message goes to the window of this number.
    Reaching(Broadcast, u64),
    /// A loop of messages: the next message is got (Microsoft, GetMessage function).
    Getting(Modal),
    /// The same: this message is of a key that goes down, and its character is posted (Microsoft, TranslateMessage
    /// function).
    Translating(Modal, Msg),
    /// The same: a message is handed to its window's procedure (Microsoft, DispatchMessage function).
    Dispatching(Modal),
    /// `dialog`: the dialog on this window begins (Microsoft, DialogBox function).
    Opening(u64),
    /// `dialog`: its owner is disabled by a compound inside of it.
    Disabling(Dialog),
    /// `dialog`: whether it has its result is asked for.
    Asking(Dialog),
    /// `dialog`: WM_QUIT came and is posted once more (Microsoft, PostQuitMessage function).
    Requitting(Dialog),
    /// `dialog`: it gets the result 0 for that (Microsoft, EndDialog function).
    Finishing(Dialog),
    /// `dialog`: its owner is enabled again by a compound inside of it. It ends with this answer.
    Enabling(Answer),
    /// The default procedure, which has this result where nothing is refused: the compound inside of it
    /// runs (Microsoft, DefWindowProc function).
    Defaulting(u64),
}

/// How a compound begins: its first call, and its place behind it.
#[derive(Clone, Copy)]
pub struct Begin {
    pub call: Call,
    pub place: Place,
}

/// What a compound does next.
#[derive(Clone, Copy)]
pub enum Lead {
    /// It makes this call, and is then at this place.
    Calls(Call, Place),
    /// Another compound begins inside of it; at the end of that it is at this place.
    Runs(Begin, Place),
    /// It ends; this sets `r` and `err`, or goes to the place of the compound around it.
    Ends(Answer),
}
