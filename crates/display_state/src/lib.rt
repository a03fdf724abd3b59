//! What is shown: the screen, the colour of each of its pixels, and the frames that were kept of it. What an entry
//! wants in memory is taken before anything changes, so that want of memory changes nothing.
#![tactic(auto)]

mod display;
mod erasing;

pub use display::Display;
