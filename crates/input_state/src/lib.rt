//! What attached threads share: focus, active window, capture and the state of the keys.
//!
//! Each thread's last settings are kept with the place of the setting, and a group of attached threads
//! has what one of them set last (Microsoft, AttachThreadInput function). All tables have a fixed size,
//! so nothing here takes memory.
#![tactic(auto)]

mod groups;
mod masks;
mod state;
mod table;

pub use masks::is_member;
pub use state::{InputState, Slot};
