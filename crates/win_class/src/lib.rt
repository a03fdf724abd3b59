//! Window classes by name, and the numbers of registered messages.
#![tactic(auto)]

mod classes;

pub use classes::{Class, Classes};
