//! What was there for each thread when it looked last: how far the history had come, and which pixels of its windows were
//! dirty then.
#![tactic(auto)]

mod look;
mod looks;
mod moment;
mod pixels;
mod seen;

pub use look::Look;
pub use looks::Looks;
pub use moment::Moment;
pub use pixels::has_new_pixel;
pub use seen::{SeenWindow, seen_by};
