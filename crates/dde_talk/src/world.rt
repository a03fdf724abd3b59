//! A conversation with what is on the way.

ghost use Rattle.std.specs.Prelude.{◌≡◌, OnErr, OnOk, IfOk, IfErr};
ghost use Rattle.dde_talk.specs.Worlds.{Happens, Holds, beginning, IsNewClient, IsNewServer, NameEachOther};

use crate::client::Client;
use crate::event::{Act, Happened};
use crate::parts::Parts;
use crate::server::Server;
use std::alloc::{AllocError, Global};
use std::marker::Model;

/// A client, a server and the posts on the way between them, each side's in the order in which it sent them. What is said of posts to
/// live windows holds here too where each window's messages are taken with the filter for that window and the numbers 993 to 1000
/// alone. Contracts see both sides, both links, the items and commands at the opening, the accepted asks and the answered replies.
#[derive(Drop)]
pub struct World {
    parts: Parts,
}

impl Model for World {
    ghost use Rattle.dde_talk.specs.Worlds.{Talking};

    ghost Value = { Talking };

    ghost use Rattle.dde_talk.specs.Agrees.{Agrees};

    ghost view = { λ a. a.parts };

    ghost invariant = { λ a. Agrees a.parts };
}

impl World {
    /// The conversation of a new client and a new server whose windows name each other, with nothing on the way. Want of memory is the
    /// only error, and hands both back unchanged.
    pub fn new(
        alloc: Global,
        client: Client,
        server: Server,
    ) -> Result<World, (AllocError, Client, Server)>
        requires client { IsNewClient client }
        requires server { IsNewServer server }
        requires windows { NameEachOther client.talk server.talk }
        ensures ok { IfOk result (λ w. w ≡ beginning client server) }
        ensures law { IfOk result Holds }
        ensures err { IfErr result (λ e. (e.1 ≡ client) × (e.2 ≡ server)) }
    {
        match Parts::new(alloc, client, server) {
            Ok(parts) => Ok(World { parts }),
            Err(error) => Err(error),
        }
    }

    /// Makes one event by the sides' calls. `Refused` comes exactly where the side's call is refused, with its code, and `Nothing`
    /// exactly where the side has nothing to send or its link nothing to take. Whatever the events were: the replies that the client was
    /// answered are the right replies to its first asks, in order, each once, and to all of them once nothing is on the way and no side
    /// has ended; no side tells anything behind its TERMINATE; where both sides are closed nothing is on the way. Want of memory is the
    /// only error, and changes nothing.
    pub fn act(&mut self, act: Act) -> Result<Happened, AllocError>
        ensures ok { IfOk result (λ h. Happens self.old act h self.new) }
        ensures err { OnErr result (self.new ≡ self.old) }
        ensures law { Holds self.new }
    {
        self.parts.act(act)
    }
}
