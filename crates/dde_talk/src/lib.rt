//! Conversations between a client, who asks, and a server, who answers, over posted messages. The sides make no call: whoever
//! runs them posts what they have to say and hands them what came.
#![tactic(auto)]

mod client;
mod event;
mod items;
mod laws;
mod message;
pub mod names;
mod open_state;
mod packing;
mod parts;
mod server;
mod talker;
mod world;

pub use client::Client;
pub use event::{Act, Happened, Side};
pub use items::are_apart;
pub use laws::{opens_as_its_statement, packed_and_unpacked};
pub use message::{Ask, Event, Message, Post, Reply};
pub use open_state::OpenState;
pub use packing::{packed, unpacked};
pub use server::Server;
pub use world::World;
