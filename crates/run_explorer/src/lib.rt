//! All runs of a script within a bound of switches, one after another, and what is told of them.
//!
//! A switch is an entry of a thread that takes the turn from another one which moved last and could still
//! move. Few switches are known to show nearly all faults of order (Musuvathi and Qadeer, Iterative context
//! bounding for systematic testing of multithreaded programs). Each run is made from the beginning. The next
//! one goes the same way up to its last step at which a higher thread might have moved, which moves there.
#![tactic(auto)]

mod laws;
mod mark;
mod part;
mod path;
mod play;
mod report;
mod run;
mod search;
mod step;
mod text;

pub use laws::{all_runs_are_within, each_run_is_of_one_part, none_is_stuck, runs_are_told_once};
pub use part::Part;
pub use report::{Found, Order, Report};
pub use search::explore;
pub use text::put_report;
