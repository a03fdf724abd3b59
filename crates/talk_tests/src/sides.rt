//! What the two sides post and take.

use crate::making::{CLIENT, SERVER, client, server};
use dde_talk::names::{
    WM_DDE_ACK, WM_DDE_DATA, WM_DDE_EXECUTE, WM_DDE_POKE, WM_DDE_REQUEST, WM_DDE_TERMINATE,
};
use dde_talk::{Ask, Client, Event, Message, Post, Reply, Server, packed, unpacked};
use std::process::Abort;
use std::test::Fail;
use win_num::{Code, Fault};

/// An ask, its post, the post of its reply, and the reply.
struct Row {
    ask: Ask,
    asked: Post,
    answered: Post,
    reply: Reply,
}

/// Each ask with its reply, one after another: an item's value, a poke, an item that isn't there, the poked value and a command.
static ROWS: [Row; 5] = [
    Row {
        ask: Ask::Request { item: 3 },
        asked: Post {
            number: WM_DDE_REQUEST,
            wparam: 16,
            lparam: 196609,
        },
        answered: Post {
            number: WM_DDE_DATA,
            wparam: 17,
            lparam: 30064967681,
        },
        reply: Reply::Value { item: 3, value: 7 },
    },
    Row {
        ask: Ask::Poke { item: 4, value: 9 },
        asked: Post {
            number: WM_DDE_POKE,
            wparam: 16,
            lparam: 38654967809,
        },
        answered: Post {
            number: WM_DDE_ACK,
            wparam: 17,
            lparam: 294912,
        },
        reply: Reply::Ack {
            item: 4,
            good: true,
        },
    },
    Row {
        ask: Ask::Request { item: 5 },
        asked: Post {
            number: WM_DDE_REQUEST,
            wparam: 16,
            lparam: 327681,
        },
        answered: Post {
            number: WM_DDE_ACK,
            wparam: 17,
            lparam: 327680,
        },
        reply: Reply::Ack {
            item: 5,
            good: false,
        },
    },
    Row {
        ask: Ask::Request { item: 4 },
        asked: Post {
            number: WM_DDE_REQUEST,
            wparam: 16,
            lparam: 262145,
        },
        answered: Post {
            number: WM_DDE_DATA,
            wparam: 17,
            lparam: 38654967809,
        },
        reply: Reply::Value { item: 4, value: 9 },
    },
    Row {
        ask: Ask::Execute { command: 5 },
        asked: Post {
            number: WM_DDE_EXECUTE,
            wparam: 16,
            lparam: 327680,
        },
        answered: Post {
            number: WM_DDE_ACK,
            wparam: 17,
            lparam: 360448,
        },
        reply: Reply::Ack {
            item: 5,
            good: true,
        },
    },
];

/// The end of each side.
const CLIENT_END: Post = Post {
    number: WM_DDE_TERMINATE,
    wparam: 16,
    lparam: 0,
};

const SERVER_END: Post = Post {
    number: WM_DDE_TERMINATE,
    wparam: 17,
    lparam: 0,
};

/// The client posts this, and nothing more.
fn client_posts(rt: &impl Abort, client: &mut Client, post: Post) {
    assert_eq!(rt; client.out(), Some(post));
    if client.out().is_some() {
        client.posted();
    }
    assert_eq!(rt; client.out(), None);
}

/// The server posts this, and nothing more.
fn server_posts(rt: &impl Abort, server: &mut Server, post: Post) {
    assert_eq!(rt; server.out(), Some(post));
    if server.out().is_some() {
        server.posted();
    }
    assert_eq!(rt; server.out(), None);
}

/// The posts and events of asks and their replies.
#[test]
fn asks_and_replies(rt: HostRuntime) -> Result<(), Fail> {
    let alloc = rt.alloc();
    let (mut client, mut server) = (client(alloc), server(alloc)?);
    for row in &ROWS {
        assert_eq!(rt; client.ask(row.ask), Ok(()));
        client_posts(&rt, &mut client, row.asked);
        assert_eq!(rt; server.take(row.asked)?, Event::Served);
        server_posts(&rt, &mut server, row.answered);
        assert_eq!(rt; client.take(row.answered)?, Event::Answered(row.reply));
    }
    Ok(())
}

/// Both sides end at once: each takes the other's end and is closed, and can't end again.
#[test]
fn both_end(rt: HostRuntime) -> Result<(), Fail> {
    let alloc = rt.alloc();
    let (mut client, mut server) = (client(alloc), server(alloc)?);
    assert_eq!(rt; client.terminate(), Ok(()));
    assert_eq!(rt; server.terminate(), Ok(()));
    client_posts(&rt, &mut client, CLIENT_END);
    server_posts(&rt, &mut server, SERVER_END);
    assert!(rt; !client.closed() && !server.closed());
    assert_eq!(rt; client.take(SERVER_END)?, Event::Ending);
    assert_eq!(rt; server.take(CLIENT_END)?, Event::Ending);
    assert!(rt; client.closed() && server.closed());
    assert_eq!(rt; client.terminate(), Err(Fault::Refused(Code::NotNow)));
    assert_eq!(rt; server.terminate(), Err(Fault::Refused(Code::NotNow)));
    assert_eq!(rt;
        client.ask(Ask::Request { item: 3 }),
        Err(Fault::Refused(Code::NotNow))
    );
    Ok(())
}

/// Posts that mean nothing to a client whose oldest ask is a poke of item 4.
static IGNORED: [Post; 6] = [
    // of a stranger
    Post {
        number: WM_DDE_ACK,
        wparam: 18,
        lparam: 294912,
    },
    // a value answers no poke
    Post {
        number: WM_DDE_DATA,
        wparam: 17,
        lparam: 262145,
    },
    // another item
    Post {
        number: WM_DDE_ACK,
        wparam: 17,
        lparam: 229376,
    },
    // an ask
    Post {
        number: WM_DDE_EXECUTE,
        wparam: 17,
        lparam: 327680,
    },
    // no word of an acknowledgement, and one with a value
    Post {
        number: WM_DDE_ACK,
        wparam: 17,
        lparam: 262145,
    },
    Post {
        number: WM_DDE_ACK,
        wparam: 17,
        lparam: 4295262208,
    },
];

/// What a side can't meet changes nothing: the client is answered afterwards as before.
#[test]
fn ignored(rt: HostRuntime) -> Result<(), Fail> {
    let alloc = rt.alloc();
    let mut client = client(alloc);
    assert_eq!(rt; client.ask(Ask::Poke { item: 4, value: 9 }), Ok(()));
    for post in &IGNORED {
        assert_eq!(rt; client.take(*post)?, Event::Ignored);
    }
    let answer = Post {
        number: WM_DDE_ACK,
        wparam: 17,
        lparam: 262144,
    };
    assert_eq!(rt;
        client.take(answer)?,
        Event::Answered(Reply::Ack {
            item: 4,
            good: false
        })
    );
    assert_eq!(rt; client.take(answer)?, Event::Ignored);
    Ok(())
}

/// 64 asks may be without an answer.
#[test]
fn too_many_asks(rt: HostRuntime) {
    let mut client = client(rt.alloc());
    for _ in 0..64 {
        assert_eq!(rt; client.ask(Ask::Execute { command: 5 }), Ok(()));
    }
    assert_eq!(rt;
        client.ask(Ask::Execute { command: 5 }),
        Err(Fault::Refused(Code::Full))
    );
}

/// A message is packed and unpacked.
#[test]
fn packing(rt: HostRuntime) {
    for row in &ROWS {
        assert_eq!(rt; packed(CLIENT, Message::Asks(row.ask)), row.asked);
        assert_eq!(rt; packed(SERVER, Message::Replies(row.reply)), row.answered);
        assert_eq!(rt; unpacked(&row.asked), Some(Message::Asks(row.ask)));
        assert_eq!(rt; unpacked(&row.answered), Some(Message::Replies(row.reply)));
    }
}
