//! The compound statements, and those that are one call alone, as resumable states without a machine, for programs that embed the machine and make its
//! calls themselves.
#![tactic(auto)]

mod call_state;
mod compound;
mod ends;
mod laws;
mod stage;
mod state;
mod turns;

pub use call_state::{CallState, stands_alone};
pub use compound::{Compound, Got, Next};
pub use laws::{begins_as_its_statement, calls_as_its_statement, can_be_handed, one_next};
pub use state::CompoundState;
pub use turns::may_follow;
