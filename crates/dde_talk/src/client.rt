//! The side that asks.

ghost use Rattle.std.specs.Prelude.{◌≡◌, ◌<◌, ◌≤◌, ◌↔◌, ◌&&◌, [], IsSome, IsTrue, OnOk, OnErr, IfOk, IfErr, None, length};
ghost use Rattle.std.specs.Map.{lookup};
ghost use Rattle.dde_talk.specs.declared.message.Message.{Message};
ghost use Rattle.dde_talk.specs.declared.message.Event.{Event};
ghost use Rattle.dde_talk.specs.Packing.{Fits, unpacked};
ghost use Rattle.dde_talk.specs.Replies.{suits};
ghost use Rattle.dde_talk.specs.Sides.{fresh, ended, first_of, posted, end_refusal, ask_refusal, IsFaultFor, with_ask, client_meets, client_ignores, client_hears, client_event, client_after};

use crate::message::{Ask, Event, Message, Post, Reply};
use crate::packing::unpacked;
use crate::talker::Talker;
use std::alloc::{AllocError, Global};
use std::collections::VecDeque;
use std::marker::Model;
use win_num::{Code, Fault, Hwnd};

/// How many asks may be without an answer.
const MOST_ASKED: usize = 64;

/// The side of a conversation that asks. Contracts see its window and the other side's, its posts that aren't posted yet, how far
/// its end has come, and its asks without an answer.
#[derive(Drop)]
pub struct Client {
    talker: Talker,
    asked: VecDeque<Ask>,
}

impl Model for Client {
    ghost use Rattle.dde_talk.specs.Sides.{ClientSide};

    ghost Value = { ClientSide };

    ghost view = { λ c. record { talk = c.talker; asked = c.asked.items } };
}

/// Whether a reply suits an ask.
fn suits(ask: Ask, reply: Reply) -> bool
    ensures { result ≡ suits ask reply }
{
    match (ask, reply) {
        (Ask::Request { item }, Reply::Value { item: told, .. }) => told == item,
        (Ask::Request { item }, Reply::Ack { item: told, good }) => !good && told == item,
        (Ask::Poke { item, .. }, Reply::Ack { item: told, .. }) => told == item,
        (Ask::Execute { command }, Reply::Ack { item: told, .. }) => told == command,
        _ => false,
    }
}

impl Client {
    /// A client in this window, whose server is in the other one. It has asked nothing. Takes no memory.
    pub fn new(alloc: Global, own: Hwnd, peer: Hwnd) -> Client
        ensures { result ≡ record { talk = fresh own peer; asked = [] } }
    {
        Client {
            talker: Talker::new(alloc, own, peer),
            asked: VecDeque::new(alloc),
        }
    }

    /// Asks: the ask's post comes behind those that aren't posted yet. `NotNow` comes exactly where the client has ended the
    /// conversation, and else `Full` exactly where 64 asks are without an answer; the limit is this project's own. After an error the
    /// client is as it was.
    pub fn ask(&mut self, ask: Ask) -> Result<(), Fault>
        ensures accepted { OnOk result (ask_refusal self.old ≡ None) }
        ensures ok { OnOk result (self.new ≡ with_ask self.old ask) }
        ensures refused { IfErr result (λ fault. IsFaultFor (ask_refusal self.old) fault) }
        ensures err { OnErr result (self.new ≡ self.old) }
        ensures fits { Fits (Message.Asks ask) }
    {
        if self.talker.is_ending() {
            return Err(Fault::Refused(Code::NotNow));
        }
        if self.asked.len() >= MOST_ASKED {
            return Err(Fault::Refused(Code::Full));
        }
        match self.asked.reserve(1) {
            Ok(()) => {}
            Err(_) => return Err(Fault::Memory),
        }
        match self.talker.tell(Message::Asks(ask)) {
            Ok(()) => {}
            Err(_) => return Err(Fault::Memory),
        }
        self.asked.push_back_reserved(ask);
        Ok(())
    }

    /// Ends the conversation: a TERMINATE comes behind the posts that aren't posted yet (Microsoft, WM_DDE_TERMINATE message).
    /// `NotNow` comes exactly where the client has ended it; after an error the client is as it was.
    pub fn terminate(&mut self) -> Result<(), Fault>
        ensures accepted { OnOk result (end_refusal self.old.talk ≡ None) }
        ensures ok { OnOk result (self.new ≡ record self.old { talk = ended self.old.talk }) }
        ensures refused { IfErr result (λ fault. IsFaultFor (end_refusal self.old.talk) fault) }
        ensures err { OnErr result (self.new ≡ self.old) }
    {
        self.talker.terminate()
    }

    /// The oldest post that isn't posted yet. None comes exactly where there is none.
    pub fn out(&self) -> Option<Post>
        ensures first { result ≡ first_of self.now.talk.out }
        ensures there { IsSome result ↔ (0 < length self.now.talk.out) }
    {
        self.talker.out()
    }

    /// The oldest post was posted. Its condition is that there is one.
    pub fn posted(&mut self)
        requires { 0 < length self.old.talk.out }
        ensures { self.new ≡ record self.old { talk = posted self.old.talk } }
    {
        self.talker.posted();
    }

    /// Whether the client can meet a message: a TERMINATE, or a reply that suits its oldest ask without an answer.
    fn meets(&self, message: &Option<Message>) -> bool
        ensures { result ≡ client_meets self.now.asked message.now }
    {
        match message {
            Some(Message::Terminate) => true,
            Some(Message::Replies(reply)) => match self.asked.front() {
                Some(ask) => suits(*ask, *reply),
                None => false,
            },
            _ => false,
        }
    }

    /// Takes a post that came. It is ignored exactly where another window than the server's posted it, where the client has ended
    /// the conversation and it is no TERMINATE, where the server's TERMINATE was taken before, or where the client can't meet its
    /// message. Else it answers the oldest ask, or ends the conversation. Want of memory is the only error, and leaves the client as
    /// it was.
    pub fn take(&mut self, m: Post) -> Result<Event, AllocError>
        ensures event { IfOk result (λ e. e ≡ client_event (client_hears self.old m)) }
        ensures ignored { IfOk result (λ e. (e ≡ Event.Ignored) ↔ IsTrue (client_ignores self.old m)) }
        ensures ok { OnOk result (self.new ≡ client_after self.old (client_hears self.old m)) }
        ensures err { OnErr result (self.new ≡ self.old) }
    {
        let message = unpacked(&m);
        if self.talker.ignores(self.meets(&message), &m) {
            return Ok(Event::Ignored);
        }
        match message {
            Some(Message::Terminate) => {
                self.talker.hear_end()?;
                Ok(Event::Ending)
            }
            Some(Message::Replies(reply)) => {
                let _answered = self.asked.pop_front();
                Ok(Event::Answered(reply))
            }
            _ => Ok(Event::Ignored),
        }
    }

    /// Whether its TERMINATE was posted and the server's was taken.
    pub fn closed(&self) -> bool
        ensures { result ≡ (self.now.talk.said && self.now.talk.heard) }
    {
        self.talker.closed()
    }
}
