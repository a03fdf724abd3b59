//! What is kept of one thread: its posted messages, its quit, whether it has ended, and the call that it
//! waits with.
#![tactic(auto)]

mod looking;
mod passing;
mod thread;

pub use looking::{is_look, is_refusal};
pub use passing::{passes, passes_window};
pub use thread::ThreadState;
