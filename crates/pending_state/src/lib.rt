//! The mouse and keyboard input of a past that no thread has taken, and the cursor: what an entry does to them, and what of it a thread
//! may take.
#![tactic(auto)]

mod changes;

pub use changes::{Meant, add_input, cursor_after, follow_inputs, inputs_after};
