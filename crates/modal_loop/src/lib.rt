//! The loops of messages as resumable states without a machine, for programs that embed the machine and make its
//! calls themselves: `pump` and `dialog`.
#![tactic(auto)]

mod laws;
mod state;

pub use laws::loops_begin_as_their_statements;
pub use state::LoopState;
pub use win_calls::{Got, Next, may_follow};
