//! Checks of what the machine's history says, by runs of it.

use crate::conversation::{CLIENT, NUMBERS, SERVER, post_of};
use dde_talk::{Act, Event, Happened, Message, Post, Side, World, unpacked};
use std::alloc::AllocError;
use user_model::{Answer, Call, Entry, Machine};
use win_num::Hwnd;

/// What an entry of the history is in the conversation.
enum Step {
    /// A side posted this.
    Posted(Side, Post),
    /// A side took this.
    Taken(Side, Post),
}

/// Whether another machine answers the calls of a history in the same way again.
pub fn is_answered_again<M: Machine>(
    machine: &mut M,
    history: &[Entry],
) -> Result<bool, AllocError> {
    for entry in history {
        if machine.step(entry.who, entry.call)? != entry.answer {
            return Ok(false);
        }
    }
    Ok(true)
}

/// The side whose window this is.
fn side_of(window: Hwnd) -> Option<Side> {
    if window == CLIENT {
        Some(Side::Client)
    } else if window == SERVER {
        Some(Side::Server)
    } else {
        None
    }
}

/// The side that posts to this window.
fn side_beyond(window: u64) -> Option<Side> {
    match side_of(Hwnd(u32::try_from(window).ok()?))? {
        Side::Client => Some(Side::Server),
        Side::Server => Some(Side::Client),
    }
}

/// The message of that number as a post of the conversation.
fn post_to(window: u64, number: u64, wparam: u64, lparam: u64) -> Option<Step> {
    let (least, greatest) = NUMBERS;
    let number = u32::try_from(number).ok()?;
    if number < least || greatest < number {
        return None;
    }
    let post = Post {
        number,
        wparam,
        lparam,
    };
    Some(Step::Posted(side_beyond(window)?, post))
}

/// What an entry is in the conversation, if anything.
fn step_of(entry: &Entry) -> Option<Step> {
    match entry.answer {
        Answer::Posted(_) => match entry.call {
            Call::Post(window, number, wparam, lparam) => post_to(window, number, wparam, lparam),
            _ => None,
        },
        Answer::Got { msg, .. } => {
            let (least, greatest) = NUMBERS;
            if msg.number < least || greatest < msg.number {
                return None;
            }
            Some(Step::Taken(side_of(msg.hwnd)?, post_of(&msg)))
        }
        _ => None,
    }
}

/// Makes in the conversation what the client's post tells: an ask, or the end. The server's posts follow from what it takes.
fn say(world: &mut World, side: Side, post: &Post) -> Result<bool, AllocError> {
    if side == Side::Server {
        return Ok(true);
    }
    match unpacked(post) {
        Some(Message::Asks(ask)) => Ok(world.act(Act::Ask(ask))? == Happened::Asked),
        Some(Message::Terminate) => {
            Ok(world.act(Act::Terminate(Side::Client))? == Happened::Ending)
        }
        _ => Ok(false),
    }
}

/// What a post comes to that a side takes, by the post alone.
fn event_of(side: Side, post: &Post) -> Event {
    match (side, unpacked(post)) {
        (_, Some(Message::Terminate)) => Event::Ending,
        (Side::Client, Some(Message::Replies(reply))) => Event::Answered(reply),
        (Side::Server, Some(Message::Asks(_))) => Event::Served,
        _ => Event::Ignored,
    }
}

/// Does in the conversation what an entry of the history did. It is false where that comes to something else there.
fn follows(world: &mut World, step: Step) -> Result<bool, AllocError> {
    match step {
        Step::Posted(side, post) => {
            let said = say(world, side, &post)?;
            Ok(said && world.act(Act::Send(side))? == Happened::Sent)
        }
        Step::Taken(side, post) => {
            let took = Happened::Took(event_of(side, &post));
            Ok(world.act(Act::Take(side))? == took)
        }
    }
}

/// Whether the posts of a history are those of the conversation, one after the other: each ask has the reply that it has there, and
/// each post is taken in its turn.
pub fn is_conversation(world: &mut World, history: &[Entry]) -> Result<bool, AllocError> {
    for entry in history {
        if let Some(step) = step_of(entry) {
            if !follows(world, step)? {
                return Ok(false);
            }
        }
    }
    Ok(true)
}
