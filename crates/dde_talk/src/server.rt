//! The side that answers.

ghost use Rattle.std.specs.Prelude.{◌≡◌, ℕ, ◌<◌, ◌↔◌, ◌&&◌, IsSome, IsTrue, OnOk, OnErr, IfOk, IfErr, None, Some, length};
ghost use Rattle.dde_talk.specs.declared.message.Event.{Event};
ghost use Rattle.dde_talk.specs.declared.message.Message.{Message};
ghost use Rattle.dde_talk.specs.Packing.{unpacked};
ghost use Rattle.dde_talk.specs.Replies.{AreApart, is_listed, item_of, reply_by, value_after, value_of};
ghost use Rattle.dde_talk.specs.Sides.{ServerAfter, fresh, ended, first_of, posted, end_refusal, IsFaultFor, server_meets, server_ignores, server_hears, server_event};

use crate::items::{Commands, Items};
use crate::message::{Ask, Event, Message, Post, Reply};
use crate::packing::unpacked;
use crate::talker::Talker;
use std::alloc::{AllocError, Global};
use std::marker::Model;
use win_num::{Fault, Hwnd};

/// The side of a conversation that answers. Contracts see its window and the other side's, its posts that aren't posted yet, how far
/// its end has come, its items with their values and its commands.
#[derive(Drop)]
pub struct Server {
    talker: Talker,
    items: Items,
    commands: Commands,
}

impl Model for Server {
    ghost use Rattle.dde_talk.specs.Sides.{ServerSide};

    ghost Value = { ServerSide };

    ghost view = { λ s. record { talk = s.talker; items = s.items; commands = s.commands } };
}

/// Whether a server can meet a message: a TERMINATE or an ask.
fn meets(message: &Option<Message>) -> bool
    ensures { result ≡ server_meets message.now }
{
    matches!(message, Some(Message::Terminate | Message::Asks(_)))
}

/// The right reply to an ask, by these items and commands.
fn reply_to(ask: Ask, items: &Items, commands: &Commands) -> Reply
    ensures { result ≡ reply_by (value_of items.now (item_of ask)) commands.now ask }
{
    match ask {
        Ask::Request { item } => match items.value(item) {
            Some(value) => Reply::Value { item, value },
            None => Reply::Ack { item, good: false },
        },
        Ask::Poke { item, .. } => Reply::Ack {
            item,
            good: items.value(item).is_some(),
        },
        Ask::Execute { command } => Reply::Ack {
            item: command,
            good: commands.has(command),
        },
    }
}

/// Does to the items what an ask says.
fn follow(items: &mut Items, ask: Ask)
    ensures { (i : ℕ) → value_of items.new i ≡ value_after ask i (value_of items.old i) }
{
    if let Ask::Poke { item, value } = ask {
        items.put(item, value);
    }
}

impl Server {
    /// A server in this window, whose client is in the other one, with these items, their values and these commands. Its condition is
    /// that no item is named twice. Takes no memory.
    pub fn new(
        alloc: Global,
        own: Hwnd,
        peer: Hwnd,
        items: Vec<(u16, u32)>,
        commands: Vec<u16>,
    ) -> Server
        requires { AreApart items.items }
        ensures talk { result.talk ≡ fresh own peer }
        ensures items { (i : ℕ) → value_of result.items i ≡ value_of items.items i }
        ensures commands { (c : ℕ) → is_listed result.commands c ≡ is_listed commands.items c }
    {
        Server {
            talker: Talker::new(alloc, own, peer),
            items: Items::new(items),
            commands: Commands::new(commands),
        }
    }

    /// Ends the conversation: a TERMINATE comes behind the posts that aren't posted yet (Microsoft, WM_DDE_TERMINATE message).
    /// `NotNow` comes exactly where the server has ended it; after an error the server is as it was.
    pub fn terminate(&mut self) -> Result<(), Fault>
        ensures accepted { OnOk result (end_refusal self.old.talk ≡ None) }
        ensures ok { OnOk result (self.new ≡ record self.old { talk = ended self.old.talk }) }
        ensures refused { IfErr result (λ fault. IsFaultFor (end_refusal self.old.talk) fault) }
        ensures err { OnErr result (self.new ≡ self.old) }
    {
        self.talker.terminate()
    }

    /// The oldest post that isn't posted yet. None comes exactly where there is none.
    pub fn out(&self) -> Option<Post>
        ensures first { result ≡ first_of self.now.talk.out }
        ensures there { IsSome result ↔ (0 < length self.now.talk.out) }
    {
        self.talker.out()
    }

    /// The oldest post was posted. Its condition is that there is one.
    pub fn posted(&mut self)
        requires { 0 < length self.old.talk.out }
        ensures { self.new ≡ record self.old { talk = posted self.old.talk } }
    {
        self.talker.posted();
    }

    /// Takes a post that came. It is ignored exactly where another window than the client's posted it, where the server has ended
    /// the conversation and it is no TERMINATE, where the client's TERMINATE was taken before, or where the server can't meet its
    /// message. Else it is an ask, whose right reply comes behind the posts that aren't posted yet: a request of an item is answered
    /// with its value, a poke of an item sets it and is acknowledged well, so is a command that is listed, and all else badly. Or it ends
    /// the conversation. Want of memory is the only error, and leaves the server as it was.
    pub fn take(&mut self, m: Post) -> Result<Event, AllocError>
        ensures event { IfOk result (λ e. e ≡ server_event (server_hears self.old m)) }
        ensures ignored { IfOk result (λ e. (e ≡ Event.Ignored) ↔ IsTrue (server_ignores self.old m)) }
        ensures ok { OnOk result (ServerAfter self.old (server_hears self.old m) self.new) }
        ensures err { OnErr result (self.new ≡ self.old) }
    {
        let message = unpacked(&m);
        if self.talker.ignores(meets(&message), &m) {
            return Ok(Event::Ignored);
        }
        match message {
            Some(Message::Terminate) => {
                self.talker.hear_end()?;
                Ok(Event::Ending)
            }
            Some(Message::Asks(ask)) => {
                self.serve(ask)?;
                Ok(Event::Served)
            }
            _ => Ok(Event::Ignored),
        }
    }

    /// The items with their values.
    pub(crate) fn items(&self) -> Result<Vec<(u16, u32)>, AllocError>
        ensures { IfOk result (λ v. v.items ≡ self.now.items) }
    {
        self.items.listed()
    }

    /// The commands.
    pub(crate) fn commands(&self) -> Result<Vec<u16>, AllocError>
        ensures { IfOk result (λ v. v.items ≡ self.now.commands) }
    {
        self.commands.listed()
    }

    /// Answers an ask. Want of memory is the only error, and leaves the server as it was.
    fn serve(&mut self, ask: Ask) -> Result<(), AllocError>
        ensures ok { OnOk result (ServerAfter self.old (Some (Message.Asks ask)) self.new) }
        ensures err { OnErr result (self.new ≡ self.old) }
    {
        let reply = reply_to(ask, &self.items, &self.commands);
        self.talker.tell(Message::Replies(reply))?;
        follow(&mut self.items, ask);
        Ok(())
    }

    /// Whether its TERMINATE was posted and the client's was taken.
    pub fn closed(&self) -> bool
        ensures { result ≡ (self.now.talk.said && self.now.talk.heard) }
    {
        self.talker.closed()
    }
}
