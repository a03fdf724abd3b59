//! The pixels of the screen that each window owns, as regions, from the tables of windows and of the
//! z-order.
//!
//! Each window is visited after its parent, by rising number. What a parent's pixels leave to a child is
//! cut from the part of the screen that the way down to the parent comes through; what no child takes is
//! the parent's own.
#![tactic(auto)]

mod changes;
mod corners;
mod covers;
mod joined;
pub mod laws;
mod lefts;
mod owners;
mod screen;
mod shares;

pub use changes::changed_part;
pub use owners::{Owned, Owners, owned_regions, owned_regions_again};
pub use screen::{Part, Screen, whole_screen};
