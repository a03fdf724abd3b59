//! The sends of all threads: a stack of frames a thread, and the row and first answer of each send
//! that is still known.
//!
//! A send is known from its `begin` while it has no answer, or a frame that names it stands on a stack,
//! or its result is still owed to its sender's callback procedure.
#![tactic(auto)]

mod row;
mod sends;
mod stack;
mod table;

pub use row::SendRow;
pub use sends::Sends;
pub use win_num::{Cause, Code, Fault, Frame, Hwnd, Kind, SendId, Thread};
