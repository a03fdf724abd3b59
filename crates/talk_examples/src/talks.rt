//! Conversations, one after another.

ghost use Rattle.std.specs.Prelude.{◌≡◌, IfOk};
ghost use Rattle.dde_talk.specs.Replies.{AreApart};

use crate::lines::Line;
use crate::told::Told;
use dde_talk::{Client, Server, World, are_apart};
use std::alloc::Global;
use std::io::{BufRead, BufReader, Input, Print};
use std::mem;
use win_num::Hwnd;

/// The client's window and the server's.
const CLIENT: Hwnd = Hwnd(16);

const SERVER: Hwnd = Hwnd(17);

/// A server's items with their values, and its commands.
#[derive(Drop)]
struct Offer {
    items: Vec<(u16, u32)>,
    commands: Vec<u16>,
}

impl Offer {
    /// No item and no command.
    fn none(alloc: Global) -> Offer {
        Offer {
            items: Vec::new(alloc),
            commands: Vec::new(alloc),
        }
    }
}

/// A conversation with a server that offers this. An error comes where an item is named twice.
fn open(alloc: Global, offer: Offer) -> anyhow::Result<World> {
    let Offer { items, commands } = offer;
    if !are_apart(&items) {
        anyhow::bail!("an item is named twice");
    }
    let client = Client::new(alloc, CLIENT, SERVER);
    let server = Server::new(alloc, SERVER, CLIENT, items, commands);
    match World::new(alloc, client, server) {
        Ok(world) => Ok(world),
        Err(_) => anyhow::bail!("no memory for a conversation"),
    }
}

/// Does what a line asks for, and writes it again with what it came to.
fn run_line(
    rt: &impl Print,
    alloc: Global,
    world: &mut World,
    offer: &mut Offer,
    line: &str,
) -> anyhow::Result<()> {
    match Line::parse(line) {
        Some(Line::Comment) => println!(rt; "{line}")?,
        Some(Line::Item(item, value)) => offer.items.push((item, value))?,
        Some(Line::Command(command)) => offer.commands.push(command)?,
        Some(Line::Begin) => {
            *world = open(alloc, mem::replace(offer, Offer::none(alloc)))?;
            println!(rt; "{line}")?;
        }
        Some(Line::Act(act)) => println!(rt; "{line} = {}", Told(world.act(act)?))?,
        None => anyhow::bail!("no act: {line}"),
    }
    Ok(())
}

/// Does what the lines of standard input ask for, first in a conversation with a server that offers nothing.
pub fn run<R: Input + Print>(rt: &R, alloc: Global) -> anyhow::Result<()> {
    let mut offer = Offer::none(alloc);
    let mut world = open(alloc, Offer::none(alloc))?;
    for line in BufReader::new(alloc, rt.reader())?.lines(alloc) {
        run_line(rt, alloc, &mut world, &mut offer, &line?)?;
    }
    Ok(())
}
