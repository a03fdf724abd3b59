//! What is kept of the screen: which window owns each of its pixels, which pixels are dirty, and which windows
//! are being painted. The owners and the dirty pixels after an entry that changes windows are computed from the
//! table of windows and the z-order as the entry makes them, beside those that are there, so that want of
//! memory changes nothing.
#![tactic(auto)]

mod carry;
mod layout;
mod owned;
mod part;
mod reach;
mod screen;
mod update;
mod walk;

pub use screen::{ScreenChange, ScreenState};
pub use update::UpdateBox;
