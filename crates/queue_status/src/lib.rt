//! How many messages of each kind there are for a thread, and how many of them came since it looked last at its queue.
#![tactic(auto)]

mod bits;
mod count;

pub use bits::Bits;
pub use count::Count;
