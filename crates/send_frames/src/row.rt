//! What is kept of a send from its beginning.

ghost use Rattle.std.specs.Prelude.{◌≡◌};
ghost use Rattle.send_frames.specs.Book.{frame_at_begin, pushes_at_begin, is_owed_at_begin};

use win_num::{Frame, Hwnd, Kind, SendId, Thread};

/// A send as it was begun (Microsoft, SendMessage function).
#[derive(Clone, Copy, Debug, PartialEq, Eq)]
pub struct SendRow {
    /// The thread that sends.
    pub from: Thread,
    /// The thread of the window.
    pub to: Thread,
    pub hwnd: Hwnd,
    /// The message's number, 0 to 65535.
    pub number: u32,
    pub wparam: u64,
    pub lparam: u64,
    pub kind: Kind,
    /// Milliseconds of the virtual clock at its beginning.
    pub time: u64,
}

impl SendRow {
    /// Whether its beginning pushes a frame.
    pub(crate) fn pushes(&self) -> bool
        ensures { result ≡ pushes_at_begin self.now }
    {
        self.from.0 == self.to.0 || matches!(self.kind, Kind::Wait | Kind::Timeout { .. })
    }

    /// The frame that its beginning pushes on the sender's stack.
    pub(crate) fn frame(&self, send: SendId) -> Option<Frame>
        ensures { result ≡ frame_at_begin self.now send }
    {
        if self.from.0 == self.to.0 {
            return Some(Frame::Inside(send));
        }
        match self.kind {
            Kind::Wait | Kind::Timeout { .. } => Some(Frame::Await(send)),
            Kind::Notify | Kind::Callback { .. } => None,
        }
    }

    /// Whether its result is to be handed to a callback procedure of the sender.
    pub(crate) fn is_owed(&self) -> bool
        ensures { result ≡ is_owed_at_begin self.now }
    {
        self.from.0 != self.to.0 && matches!(self.kind, Kind::Callback { .. })
    }
}
