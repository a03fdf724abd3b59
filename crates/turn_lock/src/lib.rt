//! A ticket lock for one state that threads share, with one history for all of them.
//!
//! A state that keeps a journal is shared under a lock, and each thread acts through a seat of its own. A seat
//! remembers, for proofs alone, what it has seen of the one history, which calls it made itself, and how often it
//! looked. After all seats are given back, the state comes out with a history that every seat's memory fits.
#![tactic(auto)]

mod bell;
mod close;
mod journaled;
mod lock;
mod plays;
mod seat;
mod turn;
mod view;

pub use journaled::Journaled;
pub use lock::TurnLock;
pub use seat::TurnSeat;
