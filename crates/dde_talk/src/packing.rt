//! How a message is packed into a post.

ghost use Rattle.std.specs.Prelude.{◌≡◌, Option, Some, IfSome, OnSome};
ghost use Rattle.win_num.specs.declared.message.Hwnd.{Hwnd};
ghost use Rattle.dde_talk.specs.declared.message.Message.{Message};
ghost use Rattle.dde_talk.specs.Packing.{lparam_of, word_of, lparam_in, number_in, packed, unpacked, guessed, Fits};

use crate::message::{Ask, Message, Post, Reply};
use crate::names::{
    WM_DDE_ACK, WM_DDE_DATA, WM_DDE_EXECUTE, WM_DDE_POKE, WM_DDE_REQUEST, WM_DDE_TERMINATE,
};
use win_num::Hwnd;

/// The word of a value that is told, requested or poked: the format of texts (Microsoft, Standard Clipboard Formats).
const FORMAT: u16 = 1;

/// The word of a good acknowledgement (Microsoft, DDEACK structure).
const GOOD: u16 = 32768;

/// A word, an item and a value as one number.
fn lparam_of(word: u16, item: u16, value: u32) -> u64
    ensures { result ≡ lparam_of word item value }
{
    u64::from(word) + 65536 * u64::from(item) + 4294967296 * u64::from(value)
}

/// The word of an acknowledgement.
fn word_of(good: bool) -> u16
    ensures { result ≡ word_of good }
{
    if good { GOOD } else { 0 }
}

/// The number and the lParam of what a client asks.
fn ask_words(ask: Ask) -> (u32, u64)
    ensures number { result.0 ≡ number_in (Message.Asks ask) }
    ensures lparam { result.1 ≡ lparam_in (Message.Asks ask) }
    ensures fits { Fits (Message.Asks ask) }
{
    match ask {
        Ask::Request { item } => (WM_DDE_REQUEST, lparam_of(FORMAT, item, 0)),
        Ask::Poke { item, value } => (WM_DDE_POKE, lparam_of(FORMAT, item, value)),
        Ask::Execute { command } => (WM_DDE_EXECUTE, lparam_of(0, command, 0)),
    }
}

/// The number and the lParam of what a server answers.
fn reply_words(reply: Reply) -> (u32, u64)
    ensures number { result.0 ≡ number_in (Message.Replies reply) }
    ensures lparam { result.1 ≡ lparam_in (Message.Replies reply) }
    ensures fits { Fits (Message.Replies reply) }
{
    match reply {
        Reply::Value { item, value } => (WM_DDE_DATA, lparam_of(FORMAT, item, value)),
        Reply::Ack { item, good } => (WM_DDE_ACK, lparam_of(word_of(good), item, 0)),
    }
}

/// The number and the lParam of a message.
fn words(message: Message) -> (u32, u64)
    ensures number { result.0 ≡ number_in message }
    ensures lparam { result.1 ≡ lparam_in message }
    ensures fits { Fits message }
{
    match message {
        Message::Asks(ask) => ask_words(ask),
        Message::Replies(reply) => reply_words(reply),
        Message::Terminate => (WM_DDE_TERMINATE, 0),
    }
}

/// The post by which a window tells a message: the message's number, the window as wParam, and as lParam a word, 65536 times
/// the item and 4294967296 times the value. The word is 1 for a request, a poke and a value, 0 for a command, which stands as
/// item, and 32768 for a good and 0 for a bad acknowledgement. The end has lParam 0. The packing is this project's own; the
/// numbers are those of Microsoft, Dynamic Data Exchange Messages.
pub fn packed(sender: Hwnd, message: Message) -> Post
    ensures post { result ≡ packed sender message }
    ensures fits { Fits message }
{
    let (number, lparam) = words(message);
    Post {
        number,
        wparam: u64::from(sender.0),
        lparam,
    }
}

/// What a post of this number tells, if it is packed as a message is.
fn guessed(number: u32, lparam: u64) -> Option<Message>
    ensures { result ≡ guessed number lparam }
{
    let item = (lparam / 65536 % 65536) as u16;
    let value = (lparam / 4294967296) as u32;
    match number {
        WM_DDE_TERMINATE => Some(Message::Terminate),
        WM_DDE_ACK => Some(Message::Replies(Reply::Ack {
            item,
            good: lparam % 65536 == u64::from(GOOD),
        })),
        WM_DDE_DATA => Some(Message::Replies(Reply::Value { item, value })),
        WM_DDE_REQUEST => Some(Message::Asks(Ask::Request { item })),
        WM_DDE_POKE => Some(Message::Asks(Ask::Poke { item, value })),
        WM_DDE_EXECUTE => Some(Message::Asks(Ask::Execute { command: item })),
        _ => None,
    }
}

/// The message that a post tells, whoever posted it. None comes exactly where no message is packed into this number and this
/// lParam.
pub fn unpacked(post: &Post) -> Option<Message>
    ensures { result ≡ unpacked post.now }
{
    let message = guessed(post.number, post.lparam)?;
    if words(message).1 == post.lparam {
        Some(message)
    } else {
        None
    }
}
