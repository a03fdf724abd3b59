//! One machine for all threads of a program: each makes its calls through a seat of its own.
#![tactic(auto)]

mod desk;
mod news;
mod shared;
mod teller;

pub use desk::{Desk, DeskSeat};
pub use shared::Shared;
pub use teller::DeskTeller;
