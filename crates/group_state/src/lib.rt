//! Attached threads, and the focus, active window, capture and foreground thread, as a past has them: what an entry does to them, and
//! what is looked up in them.
#![tactic(auto)]

mod groups;

pub use groups::GroupState;
pub use input_state::Slot;
