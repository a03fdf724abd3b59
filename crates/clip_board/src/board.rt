//! What is kept of a clipboard beside its history.

ghost use Rattle.std.specs.Prelude.{◌≡◌, [], false, IsTrue, OnOk, OnErr};
ghost use Rattle.clip_board.specs.Clipboards.{ClipPast, standing, is_refusal};
ghost use Rattle.win_num.specs.declared.message.Thread.{Thread as Caller};
ghost use Rattle.clip_board.specs.declared.entry.ClipAnswer.{ClipAnswer as Answer};
ghost use Rattle.clip_board.specs.Boards.{StandsAt, Follows, Keeps, Asks, IsSame};

use crate::answers::{Standing, window};
use crate::entry::{ClipAnswer, ClipCall, Holder, Kept};
use std::alloc::{AllocError, Global};
use std::collections::{BTreeMap, BTreeSet};
use win_num::{Hwnd, Thread};

/// What the last calls say that did something.
#[derive(Drop)]
pub struct Board {
    /// Who has the clipboard open.
    opened: Option<Holder>,
    owner: Option<Holder>,
    /// What is kept of each format that is there.
    kept: BTreeMap<u32, Kept>,
    /// The formats that are asked for.
    asks: BTreeSet<u32>,
}

impl Board {
    /// That of a clipboard of which nothing was asked. Takes no memory.
    pub fn new(alloc: Global) -> Board
        ensures { StandsAt [] result }
    {
        Board {
            opened: None,
            owner: None,
            kept: BTreeMap::new(alloc),
            asks: BTreeSet::new(alloc),
        }
    }

    /// How the clipboard stands for a call that speaks of that format.
    pub fn standing(&self, format: u32) -> Standing
        ensures { (past : ClipPast) → StandsAt past self.now → result ≡ standing past format }
    {
        Standing {
            opened: self.opened,
            owner: self.owner,
            kept: self.kept.get(&format).copied(),
            asked: self.asks.contains(&format),
            formats: self.kept.len(),
        }
    }

    /// Says what a call with that answer makes of it. Want of memory is the only error, and leaves all as it was.
    pub fn follow(
        &mut self,
        who: Thread,
        call: ClipCall,
        answer: ClipAnswer,
    ) -> Result<(), AllocError>
        ensures refused { OnOk result (IsTrue (is_refusal answer) → IsSame self.old self.new) }
        ensures ok { OnOk result (is_refusal answer ≡ false → Follows who call answer self.old self.new) }
        ensures err { OnErr result (IsSame self.old self.new) }
    {
        match answer {
            ClipAnswer::Refused(_) => Ok(()),
            _ => self.take_effect(who, call, answer),
        }
    }

    /// The same for one that wasn't refused.
    fn take_effect(
        &mut self,
        who: Thread,
        call: ClipCall,
        answer: ClipAnswer,
    ) -> Result<(), AllocError>
        ensures ok { OnOk result (Follows who call answer self.old self.new) }
        ensures err { OnErr result (IsSame self.old self.new) }
    {
        match call {
            ClipCall::Open { hwnd } => self.open(who, hwnd),
            ClipCall::Empty => self.empty(who),
            ClipCall::Set { format, value } => return self.keep(format, Kept::Data(value)),
            ClipCall::Delay { format } => return self.keep(format, Kept::Delayed),
            ClipCall::Get { format } => return self.ask(format, answer),
            ClipCall::Close => self.close(),
        }
        Ok(())
    }

    fn open(&mut self, who: Thread, hwnd: Hwnd)
        ensures { (answer : Answer) → Follows who (ClipCall.Open hwnd) answer self.old self.new }
    {
        self.opened = Some(Holder { who, hwnd });
    }

    /// Takes all formats away.
    fn empty(&mut self, who: Thread)
        ensures { (answer : Answer) → Follows who ClipCall.Empty answer self.old self.new }
    {
        let hwnd = window(self.opened);
        self.owner = Some(Holder { who, hwnd });
        self.kept.clear();
        self.asks.clear();
    }

    fn close(&mut self)
        ensures { (who : Caller) (answer : Answer) → Follows who ClipCall.Close answer self.old self.new }
    {
        self.opened = None;
        self.asks.clear();
    }

    /// A format is kept so, and nobody is asked for it any more.
    fn keep(&mut self, format: u32, kept: Kept) -> Result<(), AllocError>
        ensures ok { OnOk result (Keeps format kept self.old self.new) }
        ensures err { OnErr result (IsSame self.old self.new) }
    {
        let _was = self.kept.insert(format, kept)?;
        let _was = self.asks.remove(&format);
        Ok(())
    }

    /// The owner is asked for a format, where that is the answer.
    fn ask(&mut self, format: u32, answer: ClipAnswer) -> Result<(), AllocError>
        ensures ok { (who : Caller) → OnOk result (Follows who (ClipCall.Get format) answer self.old self.new) }
        ensures err { OnErr result (IsSame self.old self.new) }
    {
        if let ClipAnswer::Ask(_) = answer {
            let _new = self.asks.insert(format)?;
        }
        Ok(())
    }
}
