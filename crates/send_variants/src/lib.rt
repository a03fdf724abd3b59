//! Ready lists: for each thread the sends that it hasn't entered, and the results that are owed to its
//! callback procedures, each at its place in the order of events.
#![tactic(auto)]

mod linked;
mod lists;
mod mark;
mod ready;
mod slot;
mod table;

pub use lists::ReadyLists;
pub use ready::Ready;
pub use send_frames::{Cause, Frame, Kind, SendId, Thread};
