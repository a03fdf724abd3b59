//! Tables of names and numbers that are one to one both ways, and those of the window manager.
#![tactic(auto)]

mod constant_names;
mod message_names;
mod table;

pub use constant_names::{constant_value, constants};
pub use message_names::messages;
pub use table::{NameTable, Repeat, Row};
