//! The calls on classes, windows, groups of attached threads, the mouse, keys and dialogs, answered from the state.
//!
//! `windows`, `groups`, `inputs` and `dialogs` decide what each call answers, `calls` joins them and adds the entry. What keeps a thread from
//! any call, and how an entry is added, `core_deliver` says.
#![tactic(auto)]

mod calls;
mod codes;
mod dialogs;
mod groups;
mod inputs;
mod windows;

pub use calls::{window, window_answer};
