//! What is kept of windows and classes: what an entry does to the table of windows and to the table of
//! classes and registered messages, and what is looked up in them.
//!
//! The definitions say which tables a past has made, and the laws that what an entry does to the tables is
//! what it does to the past.
#![tactic(auto)]

mod boxes;
mod finding;
mod looks;
mod pixels;
mod ranks;
mod tables;
mod titles;

pub use boxes::{moved_windows, origin_of};
pub use finding::{parent_of, step_told, thread_of, up, window_or_none};
pub use looks::{
    Edges, Placing, enabled_at, is_disabled, is_shown, placing_changes, relook, style_of,
};
pub use pixels::owner_at;
pub use ranks::{leave, reorder};
pub use tables::{doom, drop_window, make, name, unmake, unregister};
pub use titles::titled;
