//! The events of a conversation, and what each came to.

use crate::message::{Ask, Event};
use win_num::Code;

/// One of the two sides.
#[derive(Clone, Copy, Debug, PartialEq, Eq)]
pub enum Side {
    Client,
    Server,
}

/// What is to happen next in a conversation.
#[derive(Clone, Copy, Debug, PartialEq, Eq)]
pub enum Act {
    /// The client asks.
    Ask(Ask),
    /// The side ends the conversation.
    Terminate(Side),
    /// The side's oldest post goes to the end of its link.
    Send(Side),
    /// The side takes the first post of the other's link.
    Take(Side),
}

/// What it came to.
#[derive(Clone, Copy, Debug, PartialEq, Eq)]
pub enum Happened {
    /// The client has asked.
    Asked,
    /// The side has ended the conversation.
    Ending,
    /// The side's oldest post is on its link.
    Sent,
    /// The side took a post, which came to this.
    Took(Event),
    /// The side refused it, with this code: `NotNow` where it has ended the conversation, `Full` where 64 asks are without an
    /// answer.
    Refused(Code),
    /// The side had nothing to send, or the link had nothing to take.
    Nothing,
}
