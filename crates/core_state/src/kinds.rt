//! Kinds of messages (Microsoft, GetQueueStatus function).

ghost use Rattle.std.specs.Prelude.{◌≡◌, ◌≤◌};
ghost use Rattle.queue_status.specs.Counts.{none_there};
ghost use Rattle.queue_status.specs.Kinds.{changed, count_of};
ghost use Rattle.core_state.specs.Status.{bits_of, is_of_kind, one_where};

use crate::mouse::is_of_mouse;
use queue_status::Bits;
use win_num::names::{
    QS_KEY, QS_MOUSEBUTTON, QS_MOUSEMOVE, QS_PAINT, QS_POSTMESSAGE, QS_SENDMESSAGE, QS_TIMER,
    WM_MOUSEMOVE,
};

/// A kind of input.
#[derive(Clone, Copy, Debug, PartialEq, Eq)]
pub enum InputKind {
    /// A key that goes down or up.
    Key,
    /// A move of the mouse.
    Move,
    /// A button of the mouse that goes down or up.
    Button,
}

impl InputKind {
    /// Whether a message is of the kind.
    pub fn has(self, message: u32) -> bool
        ensures { result ≡ is_of_kind self message }
    {
        let is_move = message == WM_MOUSEMOVE;
        match self {
            InputKind::Key => !is_of_mouse(u64::from(message)),
            InputKind::Move => is_move,
            InputKind::Button => is_of_mouse(u64::from(message)) && !is_move,
        }
    }
}

/// Which kinds of messages there are for a thread.
#[derive(Clone, Copy, Debug, PartialEq, Eq)]
pub struct Found {
    /// Input of a key.
    pub key: bool,
    /// A move of the mouse.
    pub moved: bool,
    /// Input of a button of the mouse.
    pub button: bool,
    /// A posted message, or quit.
    pub posted: bool,
    /// A timer that is due.
    pub timer: bool,
    /// A dirty pixel of a window.
    pub paint: bool,
    /// A send, or a result of one.
    pub sent: bool,
}

impl Found {
    /// The bits that stand for them.
    pub fn bits(self) -> u64
        ensures value { result ≡ bits_of self }
        ensures most { result ≤ 127 }
    {
        let mut bits = Bits::new();
        come_where(&mut bits, self.key, QS_KEY);
        come_where(&mut bits, self.moved, QS_MOUSEMOVE);
        come_where(&mut bits, self.button, QS_MOUSEBUTTON);
        come_where(&mut bits, self.posted, QS_POSTMESSAGE);
        come_where(&mut bits, self.timer, QS_TIMER);
        come_where(&mut bits, self.paint, QS_PAINT);
        come_where(&mut bits, self.sent, QS_SENDMESSAGE);
        u64::from(bits.now())
    }
}

/// One of the kind with this bit comes, where there is what it stands for.
fn come_where(bits: &mut Bits, test: bool, bit: u64)
    requires none { count_of bit bits.old ≡ none_there }
    requires bit { bit ≤ 64 }
    ensures { bits.new ≡ changed bit (one_where test) bits.old }
{
    if test {
        bits.came(bit as u16);
    }
}
