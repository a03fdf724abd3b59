//! Calls, answers and histories of the message machine, what each call answers as a function of the
//! past, and the trait of a machine.
//!
//! The definitions stand in `specs`. They speak of a past, which is a history with its newest entry
//! first, and of nothing that a machine keeps.
#![tactic(auto)]

mod call;
mod dialog;
mod entry;
mod machine;
mod story;
mod teller;

pub use call::Call;
pub use dialog::Dialog;
pub use entry::{Answer, Entry, Origin, SendCount, Setup};
pub use machine::Machine;
pub use story::SendStory;
pub use teller::{Alone, Teller, Told, alone_tells_all};

/// How many entries a history has at most.
pub const HISTORY_LIMIT: usize = 2097152;

/// How many posted messages the queue of one thread holds at most (Microsoft, PostMessage function,
/// which gives this number as the usual limit).
pub const QUEUE_LIMIT: usize = 10000;
