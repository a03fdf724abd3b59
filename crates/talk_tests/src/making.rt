//! The client in window 16 and the server in window 17, with items 3 and 4.

use dde_talk::{Client, Server, are_apart};
use std::alloc::{AllocError, Global};
use win_num::Hwnd;

pub const CLIENT: Hwnd = Hwnd(16);

pub const SERVER: Hwnd = Hwnd(17);

/// A client that has asked nothing.
pub fn client(alloc: Global) -> Client {
    Client::new(alloc, CLIENT, SERVER)
}

/// A server that has answered nothing. Item 3 has the value 7 and item 4 the value 0; command 5 is listed.
pub fn server(alloc: Global) -> Result<Server, AllocError> {
    let items = vec![in alloc; (3, 7), (4, 0)]?;
    if !are_apart(&items) {
        return Err(AllocError);
    }
    let commands = vec![in alloc; 5]?;
    Ok(Server::new(alloc, SERVER, CLIENT, items, commands))
}
