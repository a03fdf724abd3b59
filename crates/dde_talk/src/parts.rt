//! The parts of a conversation with what is on the way, and what an event does to them.

ghost use Rattle.std.specs.Prelude.{◌≡◌, ◌++◌, ◌∷◌, [], OnErr, IfOk, IfErr};
ghost use Rattle.dde_talk.specs.declared.message.Message.{Message};
ghost use Rattle.dde_talk.specs.declared.event.Act.{Act};
ghost use Rattle.dde_talk.specs.declared.event.Side.{Side};
ghost use Rattle.dde_talk.specs.Packing.{Fits};
ghost use Rattle.dde_talk.specs.Worlds.{AskFits, Happens, beginning};

use crate::client::Client;
use crate::event::{Act, Happened, Side};
use crate::message::{Ask, Event, Post, Reply};
use crate::server::Server;
use std::alloc::{AllocError, Global};
use std::collections::VecDeque;
use std::marker::Model;
use win_num::Fault;

/// A client, a server and two links, with the items and commands at the opening, the accepted asks and the answered replies.
#[derive(Drop)]
pub(crate) struct Parts {
    client: Client,
    server: Server,
    to_server: VecDeque<Post>,
    to_client: VecDeque<Post>,
    items: Vec<(u16, u32)>,
    commands: Vec<u16>,
    asks: Vec<Ask>,
    answered: Vec<Reply>,
}

impl Model for Parts {
    ghost use Rattle.dde_talk.specs.Worlds.{Talking};

    ghost Value = { Talking };

    ghost view = { λ a. record { client = a.client; server = a.server; to_server = a.to_server.items; to_client = a.to_client.items; items = a.items.items; commands = a.commands.items; asks = a.asks.items; answered = a.answered.items } };
}

impl Parts {
    /// A client and a server that have told nothing. Want of memory is the only error, and hands both back.
    pub(crate) fn new(
        alloc: Global,
        client: Client,
        server: Server,
    ) -> Result<Parts, (AllocError, Client, Server)>
        ensures ok { IfOk result (λ w. w ≡ beginning client server) }
        ensures err { IfErr result (λ e. (e.1 ≡ client) × (e.2 ≡ server)) }
    {
        let items = match server.items() {
            Ok(items) => items,
            Err(error) => return Err((error, client, server)),
        };
        let commands = match server.commands() {
            Ok(commands) => commands,
            Err(error) => return Err((error, client, server)),
        };
        Ok(Parts {
            client,
            server,
            to_server: VecDeque::new(alloc),
            to_client: VecDeque::new(alloc),
            items,
            commands,
            asks: Vec::new(alloc),
            answered: Vec::new(alloc),
        })
    }

    /// The client asks.
    fn ask(&mut self, ask: Ask) -> Result<Happened, AllocError>
        ensures ok { IfOk result (λ h. Happens self.old (Act.Ask ask) h self.new) }
        ensures fits { Fits (Message.Asks ask) }
        ensures err { OnErr result (self.new ≡ self.old) }
    {
        self.asks.reserve(1)?;
        match self.client.ask(ask) {
            Ok(()) => {
                self.asks.push_reserved(ask);
                Ok(Happened::Asked)
            }
            Err(Fault::Refused(code)) => Ok(Happened::Refused(code)),
            Err(Fault::Memory) => Err(AllocError),
        }
    }

    /// The client ends the conversation.
    fn end_client(&mut self) -> Result<Happened, AllocError>
        ensures ok { IfOk result (λ h. Happens self.old (Act.Terminate Side.Client) h self.new) }
        ensures err { OnErr result (self.new ≡ self.old) }
    {
        match self.client.terminate() {
            Ok(()) => Ok(Happened::Ending),
            Err(Fault::Refused(code)) => Ok(Happened::Refused(code)),
            Err(Fault::Memory) => Err(AllocError),
        }
    }

    /// The server ends the conversation.
    fn end_server(&mut self) -> Result<Happened, AllocError>
        ensures ok { IfOk result (λ h. Happens self.old (Act.Terminate Side.Server) h self.new) }
        ensures err { OnErr result (self.new ≡ self.old) }
    {
        match self.server.terminate() {
            Ok(()) => Ok(Happened::Ending),
            Err(Fault::Refused(code)) => Ok(Happened::Refused(code)),
            Err(Fault::Memory) => Err(AllocError),
        }
    }

    /// The client's oldest post goes to the end of its link.
    fn send_client(&mut self) -> Result<Happened, AllocError>
        ensures ok { IfOk result (λ h. Happens self.old (Act.Send Side.Client) h self.new) }
        ensures err { OnErr result (self.new ≡ self.old) }
    {
        let Some(post) = self.client.out() else {
            return Ok(Happened::Nothing);
        };
        self.to_server.reserve(1)?;
        self.to_server.push_back_reserved(post);
        self.client.posted();
        Ok(Happened::Sent)
    }

    /// The server's oldest post goes to the end of its link.
    fn send_server(&mut self) -> Result<Happened, AllocError>
        ensures ok { IfOk result (λ h. Happens self.old (Act.Send Side.Server) h self.new) }
        ensures err { OnErr result (self.new ≡ self.old) }
    {
        let Some(post) = self.server.out() else {
            return Ok(Happened::Nothing);
        };
        self.to_client.reserve(1)?;
        self.to_client.push_back_reserved(post);
        self.server.posted();
        Ok(Happened::Sent)
    }

    /// The client takes the first post of the server's link.
    fn take_client(&mut self) -> Result<Happened, AllocError>
        ensures ok { IfOk result (λ h. Happens self.old (Act.Take Side.Client) h self.new) }
        ensures err { OnErr result (self.new ≡ self.old) }
    {
        let Some(post) = self.to_client.front().copied() else {
            return Ok(Happened::Nothing);
        };
        self.answered.reserve(1)?;
        let event = self.client.take(post)?;
        let _taken = self.to_client.pop_front();
        if let Event::Answered(reply) = event {
            self.answered.push_reserved(reply);
        }
        Ok(Happened::Took(event))
    }

    /// The server takes the first post of the client's link.
    fn take_server(&mut self) -> Result<Happened, AllocError>
        ensures ok { IfOk result (λ h. Happens self.old (Act.Take Side.Server) h self.new) }
        ensures err { OnErr result (self.new ≡ self.old) }
    {
        let Some(post) = self.to_server.front().copied() else {
            return Ok(Happened::Nothing);
        };
        let event = self.server.take(post)?;
        let _taken = self.to_server.pop_front();
        Ok(Happened::Took(event))
    }

    /// Makes one event by the sides' calls. Want of memory is the only error, and changes nothing.
    pub(crate) fn act(&mut self, act: Act) -> Result<Happened, AllocError>
        ensures ok { IfOk result (λ h. Happens self.old act h self.new) }
        ensures fits { AskFits act }
        ensures err { OnErr result (self.new ≡ self.old) }
    {
        match act {
            Act::Ask(ask) => self.ask(ask),
            Act::Terminate(Side::Client) => self.end_client(),
            Act::Terminate(Side::Server) => self.end_server(),
            Act::Send(Side::Client) => self.send_client(),
            Act::Send(Side::Server) => self.send_server(),
            Act::Take(Side::Client) => self.take_client(),
            Act::Take(Side::Server) => self.take_server(),
        }
    }
}
