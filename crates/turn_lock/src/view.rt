//! What a seat knows. No value of these types is made.
use std::collections::LinkedList;
use std::snapshot::Snapshot;

/// How far a seat is in taking its turn.
pub enum Stage {
    Away,
    /// It has drawn this ticket.
    Waiting(u64),
    /// The state is its own. It may have seen the whole history.
    Served(bool),
    /// Another seat has taken it in.
    Spent,
}

/// A seat that another one has taken in: its number, what it had seen, and its own calls.
pub struct Member<C, A> {
    pub number: u64,
    pub seen: LinkedList<(C, A)>,
    pub mine: LinkedList<(C, A)>,
}

pub struct View<S, C, A> {
    pub stage: Stage,
    pub number: u64,
    /// The state as the lock was opened.
    pub opening: Option<S>,
    /// The history of the state, while the state is its own.
    pub kept: LinkedList<(C, A)>,
    pub seen: LinkedList<(C, A)>,
    pub mine: LinkedList<(C, A)>,
    /// How often it has learned the whole history.
    pub looks: u64,
    /// How many seats there are. The first seat makes the others.
    pub made: u64,
    pub joined: LinkedList<Member<C, A>>,
}

/// What the lock is opened with: the state, and how many seats there are to be.
#[derive(Drop)]
pub struct Opening<S> {
    pub state: Snapshot<S>,
    pub seats: u32,
}
