//! The machine: it decides from the state what a call answers, and adds the entry to it.
//!
//! `core_deliver` answers the calls of delivery, `core_window` those on classes and windows, `core_draw` those on
//! dirty pixels, painting, colours and frames. `clock` decides the calls of time, `timers` those on timers, `answer` who has no call to make. `User` joins
//! them with the state.
#![tactic(auto)]

mod actor;
mod answer;
mod clock;
mod timers;
mod user;

pub use user::User;
pub use user_model::SendStory;
