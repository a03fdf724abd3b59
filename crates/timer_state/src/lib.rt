//! The timers of all windows as a past has them: what an entry does to them, and which of them is due first.
#![tactic(auto)]

mod changes;
mod finding;

pub use changes::{follow_timers, set_timer};
pub use finding::{due_timer, has_due_after, has_timer, next_due, timers_are_full};
