//! What both sides of a conversation have: what is to be posted, and how far its end has come.

ghost use Rattle.std.specs.Prelude.{◌≡◌, ◌<◌, ◌↔◌, ◌&&◌, Bool, IsSome, OnOk, OnErr, IfErr, None, length};
ghost use Rattle.dde_talk.specs.declared.message.Message.{Message};
ghost use Rattle.dde_talk.specs.Packing.{Fits};
ghost use Rattle.dde_talk.specs.Sides.{Talk, fresh, telling, ended, hearing_end, first_of, posted, end_refusal, IsFaultFor, is_ignored};

use crate::message::{Message, Post};
use crate::names::WM_DDE_TERMINATE;
use crate::packing::packed;
use std::alloc::{AllocError, Global};
use std::collections::VecDeque;
use std::marker::Model;
use win_num::{Code, Fault, Hwnd};

/// What both sides of a conversation have.
#[derive(Drop)]
pub(crate) struct Talker {
    own: Hwnd,
    peer: Hwnd,
    output: VecDeque<Post>,
    ending: bool,
    said: bool,
    heard: bool,
}

impl Model for Talker {
    ghost use Rattle.dde_talk.specs.Sides.{Talk};

    ghost Value = { Talk };

    ghost view = { λ t. record { own = t.own; peer = t.peer; out = t.output.items; ending = t.ending; said = t.said; heard = t.heard } };
}

impl Talker {
    /// A side that has told and taken nothing. Takes no memory.
    pub(crate) fn new(alloc: Global, own: Hwnd, peer: Hwnd) -> Talker
        ensures { result ≡ fresh own peer }
    {
        Talker {
            own,
            peer,
            output: VecDeque::new(alloc),
            ending: false,
            said: false,
            heard: false,
        }
    }

    /// Whether it has ended the conversation.
    pub(crate) fn is_ending(&self) -> bool
        ensures { result ≡ self.now.ending }
    {
        self.ending
    }

    /// It tells a message. Want of memory is the only error, and leaves it as it was.
    pub(crate) fn tell(&mut self, message: Message) -> Result<(), AllocError>
        ensures ok { OnOk result (self.new ≡ telling self.old message) }
        ensures fits { Fits message }
        ensures err { OnErr result (self.new ≡ self.old) }
    {
        match self.output.push_back(packed(self.own, message)) {
            Ok(()) => Ok(()),
            Err(_) => Err(AllocError),
        }
    }

    /// It ends the conversation, if it hasn't yet. Want of memory is the only error, and leaves it as it was.
    fn end(&mut self) -> Result<(), AllocError>
        ensures ok { OnOk result (self.new ≡ ended self.old) }
        ensures err { OnErr result (self.new ≡ self.old) }
    {
        if !self.ending {
            self.tell(Message::Terminate)?;
            self.ending = true;
        }
        Ok(())
    }

    /// It ends the conversation. `NotNow` comes exactly where it has ended it; after an error it is as it was.
    pub(crate) fn terminate(&mut self) -> Result<(), Fault>
        ensures accepted { OnOk result (end_refusal self.old ≡ None) }
        ensures ok { OnOk result (self.new ≡ ended self.old) }
        ensures refused { IfErr result (λ fault. IsFaultFor (end_refusal self.old) fault) }
        ensures err { OnErr result (self.new ≡ self.old) }
    {
        if self.ending {
            return Err(Fault::Refused(Code::NotNow));
        }
        match self.end() {
            Ok(()) => Ok(()),
            Err(_) => Err(Fault::Memory),
        }
    }

    /// It has taken the other side's end, and ends too, if it hasn't yet. Want of memory is the only error, and leaves it as it
    /// was.
    pub(crate) fn hear_end(&mut self) -> Result<(), AllocError>
        ensures ok { OnOk result (self.new ≡ hearing_end self.old) }
        ensures err { OnErr result (self.new ≡ self.old) }
    {
        self.end()?;
        self.heard = true;
        Ok(())
    }

    /// The oldest post that isn't posted yet. None comes exactly where there is none.
    pub(crate) fn out(&self) -> Option<Post>
        ensures first { result ≡ first_of self.now.out }
        ensures there { IsSome result ↔ (0 < length self.now.out) }
    {
        self.output.front().copied()
    }

    /// The oldest post was posted.
    pub(crate) fn posted(&mut self)
        requires { 0 < length self.old.out }
        ensures { self.new ≡ posted self.old }
    {
        if let Some(post) = self.output.pop_front() {
            self.said = self.said || post.number == WM_DDE_TERMINATE;
        }
    }

    /// Whether its end was posted and the other side's was taken.
    pub(crate) fn closed(&self) -> bool
        ensures { result ≡ (self.now.said && self.now.heard) }
    {
        self.said && self.heard
    }

    /// Whether it ignores a post, of which it can meet the message or not.
    pub(crate) fn ignores(&self, can_meet: bool, post: &Post) -> bool
        ensures { result ≡ is_ignored self.now can_meet post.now }
    {
        post.wparam != u64::from(self.peer.0)
            || (self.ending && post.number != WM_DDE_TERMINATE)
            || self.heard
            || !can_meet
    }
}
