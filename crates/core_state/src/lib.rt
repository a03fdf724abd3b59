//! The history of the machine, and the parts that stand for it: the windows, the pixels that they own and that
//! are dirty, the colours and the frames, the classes, what is kept of each thread, the untaken input, the counts of posts and
//! inputs, the clock and the cursor.
//!
//! `CoreState` tells by its accessors what the definitions say of the past, without a walk through the
//! history, and adds entries. No crate above names a part.
#![tactic(auto)]

mod change;
mod kinds;
mod mouse;
mod progress;
mod sendings;
mod state;

pub use mouse::is_of_mouse;
pub use screen_state::UpdateBox;
pub use send_state::SendRow;
pub use state::CoreState;
pub use user_model::SendStory;
pub use window_state::{Edges, Placing};
