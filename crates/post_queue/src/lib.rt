//! The messages posted to a thread, in posted order, with a count of the messages that are read.
#![tactic(auto)]

mod chain;
mod index;
mod posts;
mod sealed;
mod slot;
mod steps;

pub use posts::Posts;
pub use steps::Steps;
