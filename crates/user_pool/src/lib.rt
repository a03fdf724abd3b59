//! Runs a script on a machine: one thread after the other, first by the order list of the script, and
//! then by round robin; or by groups of threads that move beside each other.
//!
//! The definitions of a run stand in `specs`; they speak of the past alone. Here each thread has a
//! worker that goes on with its program, so that no step looks back at the history.
#![tactic(auto)]

mod choice;
mod desk_turn;
mod group;
mod groups;
mod laws;
mod phase;
mod run;
mod seat;

pub use choice::{first_above, runnable};
pub use groups::run_groups;
pub use laws::{
    listed_runs_are_runs, movers_decide_the_run, no_call_out_of_turn, one_run,
    runs_answer_their_sends, runs_are_interleavings, runs_are_lawful, runs_are_not_cut,
    runs_are_short,
};
pub use run::{end_of, move_clock, move_thread, run_listed};
pub use seat::{Seat, new_seats};
