//! The calls on dirty pixels, painting, colours and frames, answered from the state.
//!
//! `drawing` decides what the calls on dirty pixels and painting answer, `colours` those that paint pixels and
//! keep frames, `calls` joins them and adds the entry. What keeps a thread from any
//! call, and how an entry is added, `core_deliver` says.
#![tactic(auto)]

mod calls;
mod colours;
mod drawing;

pub use calls::{draw, drawing_answer};
