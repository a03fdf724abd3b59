//! What is kept of all threads, in a list from thread 1 on, and what an entry does to it: which message it posts
//! and to whom, and which thread's part changes.
#![tactic(auto)]

mod delivery;
mod queues;

pub use delivery::{Stamp, posting};
pub use queues::{
    count_after, end, mark_look, note_entry, post, purge_kin, set_quit, take, time_after,
};
