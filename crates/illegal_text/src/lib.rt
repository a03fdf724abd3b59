//! What is wrong with a log that is no run's, in three lines.
//!
//! The lines are this project's own: `illegal PLACE REASON`, `found LINE` and `kept LINE`. PLACE is that of the
//! first bad entry, counted from 0, or for the reason `end` the number of entries. The reasons are
//!
//! ```text
//! over      the actor has no entry left to make: `kept ended`, `kept spent` where its budget is used up,
//!           `kept stop` for the clock where nothing can go on, `kept none` where there is no such actor
//! barred    the actor may not move now: `kept idle` for a thread, `kept busy T` for the clock
//! call      the actor's program makes another call, which is kept
//! answer    the machine answers otherwise, which is kept
//! frame     a row of the frame has other pixels; found and kept are that row and the right one
//! end       a line after the entries is another; found and kept are that line and the right one, or `nothing`
//! ```
//!
//! For the first four `found` is the line of the entry.
#![tactic(auto)]

mod ending;
mod illegal;
mod lines;
mod rows;
mod text;

pub use ending::{end_of, first_busy, right_lines};
pub use illegal::{Illegal, Over, Why};
pub use lines::{EndingLine, found_lines};
pub use log_read::{Log, LogEntry};
pub use log_text::{End, WriteFault};
pub use rows::split_row;
pub use text::write_illegal;
