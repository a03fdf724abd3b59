//! The update region of a window: its dirty pixels, and whether its background is to be erased before
//! it is painted (Microsoft, The Update Region).
#![tactic(auto)]

mod update;

pub use update::Update;
