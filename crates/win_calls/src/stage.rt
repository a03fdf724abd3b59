//! How far a statement has come.

use crate::compound::{Compound, Next};
use script_tree::Place;
use user_model::{Answer, Call};

/// The compounds around one that runs inside of them, by the places where its end leads: two at most, the
/// inner one first.
#[derive(Clone, Copy)]
pub enum Around {
    Nobody,
    One(Place),
    Two(Place, Place),
}

/// One call of a compound, or of a statement that is one call alone.
#[derive(Clone, Copy)]
pub struct Turn {
    /// The call, or the `await` of a send that it began.
    pub call: Call,
    /// Where its answer leads. None where it ends the statement.
    pub place: Option<Place>,
    /// The compounds around the one that makes it.
    pub around: Around,
    /// The call whose statement sets `r` and `err` at the end.
    pub statement: Call,
}

/// What comes when the procedure that runs for a call has been left.
#[derive(Clone, Copy)]
pub enum Then {
    /// The same call once more.
    Again,
    /// This answer is that of the call, with the procedure's result.
    Giving(Answer),
}

/// How far a compound has come.
#[derive(Clone, Copy)]
pub enum Stage {
    /// It hasn't begun.
    Fresh(Compound),
    /// The same, where its first call is this one.
    Ready(Turn),
    /// Its call is made.
    Asked(Turn),
    /// A procedure runs: the first for the call, or one for the `leave` of another that ran before, where
    /// the first has left with this result.
    Running(Turn, Then, Option<u64>),
    /// The procedure on top is left with the second number. The first is the result of the first that ran
    /// for the call.
    Leaving(Turn, Then, u64, u64),
    /// It has ended.
    Over,
}

/// How far a compound has come, and what it asks for there.
#[derive(Clone, Copy)]
pub struct Step {
    pub stage: Stage,
    pub next: Next,
}
