//! The two sides of the conversation before its first event.

ghost use Rattle.std.specs.Prelude.{IfOk};
ghost use Rattle.dde_talk.specs.Replies.{AreApart};

use crate::conversation::{CLIENT, SERVER};
use dde_talk::{Client, Server, World, are_apart};
use std::alloc::Global;

/// The server's items with their values.
const ITEMS: [(u16, u32); 2] = [(3, 7), (4, 0)];

/// The server's commands.
const COMMANDS: [u16; 1] = [5];

/// The items, none of which is named twice.
fn items(alloc: Global) -> anyhow::Result<Vec<(u16, u32)>>
    ensures { IfOk result (λ v. AreApart v.items) }
{
    let items = Vec::from_slice(alloc, &ITEMS)?;
    if !are_apart(&items) {
        anyhow::bail!("an item is named twice");
    }
    Ok(items)
}

/// The server.
pub fn server(alloc: Global) -> anyhow::Result<Server> {
    let items = items(alloc)?;
    let commands = Vec::from_slice(alloc, &COMMANDS)?;
    Ok(Server::new(alloc, SERVER, CLIENT, items, commands))
}

/// Both sides, with nothing on the way.
pub fn world(alloc: Global) -> anyhow::Result<World> {
    let items = items(alloc)?;
    let commands = Vec::from_slice(alloc, &COMMANDS)?;
    let client = Client::new(alloc, CLIENT, SERVER);
    let server = Server::new(alloc, SERVER, CLIENT, items, commands);
    match World::new(alloc, client, server) {
        Ok(world) => Ok(world),
        Err(_) => anyhow::bail!("no memory for the conversation"),
    }
}
