//! What a log says.

ghost use Rattle.std.specs.Prelude.{◌≡◌, option_copied, option_map};

use log_text::End;
use std::marker::Model;
use user_model::{Call, Entry, SendCount};
use win_num::Thread;

/// A line between the end and the counts of sends.
#[derive(Clone, Copy, Debug, PartialEq, Eq)]
pub enum Extra {
    /// A thread that waits where all is stuck, and its last call.
    Waits(Thread, Call),
    /// A thread that has used up its budget.
    Spent(Thread),
}

/// An entry of a log, and the frame that it kept, if it kept one. Contracts see the tree.
#[derive(Drop)]
pub struct LogEntry {
    entry: Entry,
    frame: Option<Vec<u8>>,
}

impl Model for LogEntry {
    ghost use Rattle.std.specs.Prelude.{option_map};
    ghost use Rattle.log_read.specs.Logs.{LogEntryTree};

    ghost Value = { LogEntryTree };

    ghost view = { λ e. record { entry = e.entry; frame = option_map (λ v. v.items) e.frame } };
}

impl LogEntry {
    /// An entry, and the frame that it kept; it need not be one of a script.
    pub fn new(entry: Entry, frame: Option<Vec<u8>>) -> LogEntry
        ensures { result ≡ record { entry = entry; frame = option_map (λ v. v.items) frame } }
    {
        LogEntry { entry, frame }
    }

    /// The entry.
    pub fn entry(&self) -> Entry
        ensures { result ≡ self.now.entry }
    {
        self.entry
    }

    /// The colours of the frame that it kept, row after row, the top one first, each from left to right.
    pub fn frame(&self) -> Option<&[u8]>
        ensures { option_copied result ≡ self.now.frame }
    {
        match &self.frame {
            Some(colours) => Some(colours.as_slice()),
            None => None,
        }
    }
}

/// A log: its entries with their frames, how the run ended, the extra lines, and the counts of sends. Contracts see
/// the tree.
#[derive(Drop)]
pub struct Log {
    entries: Vec<LogEntry>,
    end: End,
    extras: Vec<Extra>,
    sends: SendCount,
}

impl Model for Log {
    ghost use Rattle.log_read.specs.Logs.{LogTree};

    ghost Value = { LogTree };

    ghost view = { λ l. record { entries = l.entries.items; end = l.end; extras = l.extras.items; sends = l.sends } };
}

impl Log {
    /// The log of these parts; it need not be one of a script.
    pub fn new(entries: Vec<LogEntry>, end: End, extras: Vec<Extra>, sends: SendCount) -> Log
        ensures { result ≡ record { entries = entries.items; end = end; extras = extras.items; sends = sends } }
    {
        Log {
            entries,
            end,
            extras,
            sends,
        }
    }

    /// The entries with their frames, the oldest first.
    pub fn entries(&self) -> &[LogEntry]
        ensures { result.now ≡ self.now.entries }
    {
        &self.entries
    }

    /// How the run ended.
    pub fn end(&self) -> End
        ensures { result ≡ self.now.end }
    {
        self.end
    }

    /// The extra lines, in order.
    pub fn extras(&self) -> &[Extra]
        ensures { result.now ≡ self.now.extras }
    {
        &self.extras
    }

    /// The counts of sends.
    pub fn sends(&self) -> SendCount
        ensures { result ≡ self.now.sends }
    {
        self.sends
    }
}
