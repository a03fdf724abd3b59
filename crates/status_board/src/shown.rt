//! What is published.

ghost use Rattle.std.specs.Prelude.{◌≡◌};
ghost use Rattle.status_board.specs.Lists.{word_of, said_by};

use win_num::Code;

/// How many values half a word has.
const HALF: u64 = 1 << 32;

/// A published status.
#[derive(Clone, Copy, Debug, PartialEq, Eq)]
pub struct Shown {
    /// The how manieth of its board it is, from 1; 0 where nothing was published.
    pub number: u32,
    /// The status: in the high 16 bits the kinds of messages that are there, in the low 16 bits those that came since
    /// the owner looked last, by their bits (Microsoft, GetQueueStatus function); 0 where nothing was published.
    pub value: u32,
}

/// What a publish came to.
#[derive(Clone, Copy, Debug, PartialEq, Eq)]
pub enum Published {
    /// The status was published with this number.
    Shown(u32),
    /// The owner can't make the call now, or the history is full. Nothing was published.
    Refused(Code),
}

impl Shown {
    /// As one word, which is read and written in one step.
    pub(crate) fn word(&self) -> u64
        ensures { result ≡ word_of self.now }
    {
        u64::from(self.number) * HALF + u64::from(self.value)
    }

    /// What a word says.
    pub(crate) fn said(word: u64) -> Shown
        ensures { result ≡ said_by word }
    {
        Shown {
            number: (word / HALF) as u32,
            value: (word % HALF) as u32,
        }
    }
}
