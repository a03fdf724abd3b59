//! The z-order of windows: for each parent the list of its children, from the bottom to the top.
//!
//! Top-level windows are kept mended: topmost windows stand above all others, and every owned window
//! stands above its owner (Microsoft, SetWindowPos function and Window Features, Z-Order).
#![tactic(auto)]

mod after;
mod families;
pub mod laws;
mod mending;
mod order;
mod standings;
mod top_level;

pub use after::After;
pub use order::Order;
pub use top_level::TopLevel;
