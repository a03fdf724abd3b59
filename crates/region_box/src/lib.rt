//! What is told of a region on a screen, its kind and its least rectangle, over the list of the screen's
//! points (Microsoft, GetRgnBox function).
#![tactic(auto)]

mod laws;
mod told;

pub use laws::{lists_tell_their_pixels, screens_have_their_points};
pub use told::{told_bounds, told_kind};
