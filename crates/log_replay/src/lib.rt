//! Whether a log is a run's: its entries are made again, one after another, on a machine without entries.
//!
//! A run is what `user_pool` says: each entry is by an actor that isn't barred and has entries left, its call is
//! the one that the actor's program makes, and its answer is the machine's. The first bad place is that of the first
//! entry that isn't so, or whose frame isn't the one that was kept; where there is none, the ending is looked at.
#![tactic(auto)]

mod differences;
mod laws;
mod moves;
mod same;
mod verdict;
mod workers;

pub use illegal_text::{End, Illegal, Log, Over, Why};
pub use laws::{illegal_logs_are_no_runs, one_first_bad_place};
pub use verdict::replay;
