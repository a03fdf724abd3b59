//! What the two sides tell each other, the posts that carry it, and what taking a post came to.

/// What a client asks.
#[derive(Clone, Copy, Debug, PartialEq, Eq)]
pub enum Ask {
    /// The value of an item is to be told (Microsoft, WM_DDE_REQUEST message).
    Request { item: u16 },
    /// An item is to have this value from now on (Microsoft, WM_DDE_POKE message).
    Poke { item: u16, value: u32 },
    /// A command is to be executed (Microsoft, WM_DDE_EXECUTE message).
    Execute { command: u16 },
}

/// What a server answers.
#[derive(Clone, Copy, Debug, PartialEq, Eq)]
pub enum Reply {
    /// The value of an item that was requested (Microsoft, WM_DDE_DATA message).
    Value { item: u16, value: u32 },
    /// Whether what was asked of the item could be done; for a command its number stands as item (Microsoft, WM_DDE_ACK message).
    Ack { item: u16, good: bool },
}

/// What one side tells the other.
#[derive(Clone, Copy, Debug, PartialEq, Eq)]
pub enum Message {
    /// The client asks.
    Asks(Ask),
    /// The server answers.
    Replies(Reply),
    /// The conversation is over (Microsoft, WM_DDE_TERMINATE message).
    Terminate,
}

/// A posted message without its window and its time: what a call `post` is given, and what a retrieval tells (Microsoft,
/// PostMessage function).
#[derive(Clone, Copy, Debug, PartialEq, Eq)]
pub struct Post {
    /// The message's number.
    pub number: u32,
    /// The window of the side that posts it.
    pub wparam: u64,
    /// A word that tells the kind, 65536 times the item, and 4294967296 times the value.
    pub lparam: u64,
}

/// What taking a post came to.
#[derive(Clone, Copy, Debug, PartialEq, Eq)]
pub enum Event {
    /// The client's oldest ask that had no answer has this one.
    Answered(Reply),
    /// The server's reply to the ask stands in its output.
    Served,
    /// The other side has ended the conversation, and so this side has.
    Ending,
    /// It means nothing to this side, and changed nothing.
    Ignored,
}
