//! The sends of all threads as one state: their frames, what is known of them, and what is ready for
//! each thread.
//!
//! Each change is that of one family of entries of a history. `specs/Standing.antt` says when the parts
//! stand for a past.
#![tactic(auto)]

mod state;
mod story;
mod tally;

pub use send_frames::SendRow;
pub use state::SendState;
pub use story::{add_story, note_answer};
pub use tally::{Tally, first_cause, named_send};
pub use user_model::{Answer, SendStory};
pub use win_num::{Cause, Code, Fault, Frame, Hwnd, Kind, SendId, Thread};
