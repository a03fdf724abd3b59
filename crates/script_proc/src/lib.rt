//! The program of a thread in the middle of its trace, which is told its answers one after another.
#![tactic(auto)]

mod compile;
mod item;
mod moves;
mod places;
mod program;
mod replies;
mod top;
mod turn;
mod worker;

pub use program::Program;
pub use turn::Turn;
pub use worker::Worker;
