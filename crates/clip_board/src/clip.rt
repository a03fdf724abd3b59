//! The clipboard: its history, and what is kept beside it.

ghost use Rattle.std.specs.Prelude.{◌≡◌, ◌≤◌, ◌<◌, [], IfOk, OnOk, OnErr, reverse, length};
ghost use Rattle.std.specs.Vec.{vec_len, vec_capacity};
ghost use Rattle.clip_board.specs.Clipboards.{IsLawful, clip_reply, clip_after, is_full as is_full_of};

use crate::board::Board;
use crate::entry::{ClipAnswer, ClipCall, ClipEntry, HISTORY_LIMIT};
use std::alloc::{AllocError, Global};
use std::marker::Model;
use win_num::{Code, Thread};

/// A clipboard. Contracts see all entries so far, the newest first: its past.
#[derive(Drop)]
pub struct Clip {
    entries: Vec<ClipEntry>,
    board: Board,
}

impl Model for Clip {
    ghost use Rattle.std.specs.Prelude.{reverse};
    ghost use Rattle.clip_board.specs.Clipboards.{ClipPast, IsLawful};
    ghost use Rattle.clip_board.specs.Boards.{StandsAt};

    ghost Value = { ClipPast };

    ghost view = { λ c. reverse c.entries.items };

    ghost invariant = { λ c. StandsAt (reverse c.entries.items) c.board × IsLawful (reverse c.entries.items) };
}

impl Clip {
    /// A clipboard of which nothing was asked. Takes no memory.
    pub fn new(alloc: Global) -> Clip
        ensures { result ≡ [] }
    {
        Clip {
            entries: Vec::new(alloc),
            board: Board::new(alloc),
        }
    }

    /// All entries so far, the oldest first. Each answer is the reply to its call at what was before it, and there are
    /// 2,097,152 at most.
    pub fn history(&self) -> &[ClipEntry]
        ensures entries { result.now ≡ reverse self.now }
        ensures lawful { IsLawful self.now }
        ensures few { length self.now ≤ 2097152 }
    {
        &self.entries
    }

    /// Whether the history takes no more entries.
    pub(crate) fn is_full(&self) -> bool
        ensures { result ≡ is_full_of self.now }
    {
        HISTORY_LIMIT <= self.entries.len()
    }

    /// Makes a call of a thread. The answer is the reply at the past (Microsoft, Clipboard), and stands with the call
    /// as the newest entry, unless the history is full: then the answer is `Refused(Full)` and all is as before. After
    /// want of memory nothing has changed, and the call may be made again.
    pub fn step(&mut self, who: Thread, call: ClipCall) -> Result<ClipAnswer, AllocError>
        ensures answer { IfOk result (λ answer. answer ≡ clip_reply self.old who call) }
        ensures entry { OnOk result (self.new ≡ clip_after self.old who call) }
        ensures err { OnErr result (self.new ≡ self.old) }
    {
        if self.is_full() {
            return Ok(ClipAnswer::Refused(Code::Full));
        }
        let answer = self.board.standing(call.format()).answer(who, &call);
        self.entries.reserve(1)?;
        self.board.follow(who, call, answer)?;
        self.entries.push_reserved(ClipEntry { who, call, answer });
        Ok(answer)
    }
}
