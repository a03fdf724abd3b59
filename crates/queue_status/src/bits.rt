//! The counts of one thread's queue, and their bits.

ghost use Rattle.std.specs.Prelude.{◌≡◌, ◌≤◌, ◌<◌, ◌+◌, ◌^◌, true};
ghost use Rattle.queue_status.specs.Counts.{MayGo, is_fresh, is_there, none_fresh, one_less, one_more};
ghost use Rattle.queue_status.specs.Kinds.{IsSound, bit_where, bits_where, changed, count_of, no_counts, of_each};

use crate::count::Count;
use std::marker::Model;
use win_num::names::{
    QS_KEY, QS_MOUSEBUTTON, QS_MOUSEMOVE, QS_PAINT, QS_POSTMESSAGE, QS_SENDMESSAGE, QS_TIMER,
};

/// For each of the seven kinds of messages (Microsoft, GetQueueStatus function) how many there are for a thread, and how many of them
/// came since it looked last. A kind is named by its bit, QS_KEY (1) to QS_SENDMESSAGE (64).
#[derive(Drop)]
pub struct Bits {
    key: Count,
    moved: Count,
    button: Count,
    posted: Count,
    timer: Count,
    paint: Count,
    sent: Count,
}

impl Model for Bits {
    ghost use Rattle.queue_status.specs.Kinds.{Counts, IsSound};

    ghost Value = { Counts };

    ghost view = { λ b. record { key = b.key; moved = b.moved; button = b.button; posted = b.posted; timer = b.timer; paint = b.paint; sent = b.sent } };

    ghost invariant = { λ b. IsSound (record { key = b.key; moved = b.moved; button = b.button; posted = b.posted; timer = b.timer; paint = b.paint; sent = b.sent }) };
}

impl Bits {
    /// No message of any kind.
    pub fn new() -> Bits
        ensures { result ≡ no_counts }
    {
        Bits {
            key: Count::none(),
            moved: Count::none(),
            button: Count::none(),
            posted: Count::none(),
            timer: Count::none(),
            paint: Count::none(),
            sent: Count::none(),
        }
    }

    /// A message of the kind with this bit comes. A number that is no kind's bit changes nothing.
    pub fn came(&mut self, bit: u16)
        requires { (count_of bit self.old).there + 1 < 2 ^ 32 }
        ensures { self.new ≡ changed bit (one_more true) self.old }
    {
        match u64::from(bit) {
            QS_KEY => self.key.add(true),
            QS_MOUSEMOVE => self.moved.add(true),
            QS_MOUSEBUTTON => self.button.add(true),
            QS_POSTMESSAGE => self.posted.add(true),
            QS_TIMER => self.timer.add(true),
            QS_PAINT => self.paint.add(true),
            QS_SENDMESSAGE => self.sent.add(true),
            _ => {}
        }
    }

    /// A message of the kind with this bit goes: one that came since the last look (`fresh`), or another.
    pub fn gone(&mut self, bit: u16, fresh: bool)
        requires { MayGo fresh (count_of bit self.old) }
        ensures { self.new ≡ changed bit (one_less fresh) self.old }
    {
        match u64::from(bit) {
            QS_KEY => self.key.remove(fresh),
            QS_MOUSEMOVE => self.moved.remove(fresh),
            QS_MOUSEBUTTON => self.button.remove(fresh),
            QS_POSTMESSAGE => self.posted.remove(fresh),
            QS_TIMER => self.timer.remove(fresh),
            QS_PAINT => self.paint.remove(fresh),
            QS_SENDMESSAGE => self.sent.remove(fresh),
            _ => {}
        }
    }

    /// The thread looks at its queue: what is there came before.
    pub fn looked(&mut self)
        ensures { self.new ≡ of_each none_fresh self.old }
    {
        self.key.look();
        self.moved.look();
        self.button.look();
        self.posted.look();
        self.timer.look();
        self.paint.look();
        self.sent.look();
    }

    /// The bits of the kinds of which there is a message, 0 to 127.
    pub fn now(&self) -> u16
        ensures bits { result ≡ bits_where is_there self.now }
        ensures most { result ≤ 127 }
    {
        bit_where(self.key.is_there(), QS_KEY)
            + bit_where(self.moved.is_there(), QS_MOUSEMOVE)
            + bit_where(self.button.is_there(), QS_MOUSEBUTTON)
            + bit_where(self.posted.is_there(), QS_POSTMESSAGE)
            + bit_where(self.timer.is_there(), QS_TIMER)
            + bit_where(self.paint.is_there(), QS_PAINT)
            + bit_where(self.sent.is_there(), QS_SENDMESSAGE)
    }

    /// The bits of the kinds of which there is a message that came since the last look, 0 to 127.
    pub fn since(&self) -> u16
        ensures bits { result ≡ bits_where is_fresh self.now }
        ensures sound { IsSound self.now }
        ensures most { result ≤ 127 }
    {
        bit_where(self.key.is_fresh(), QS_KEY)
            + bit_where(self.moved.is_fresh(), QS_MOUSEMOVE)
            + bit_where(self.button.is_fresh(), QS_MOUSEBUTTON)
            + bit_where(self.posted.is_fresh(), QS_POSTMESSAGE)
            + bit_where(self.timer.is_fresh(), QS_TIMER)
            + bit_where(self.paint.is_fresh(), QS_PAINT)
            + bit_where(self.sent.is_fresh(), QS_SENDMESSAGE)
    }
}

/// A kind's bit, where there is what it stands for.
fn bit_where(test: bool, bit: u64) -> u16
    requires { bit ≤ 64 }
    ensures value { result ≡ bit_where test bit }
    ensures most { result ≤ bit }
{
    if test { bit as u16 } else { 0 }
}
