//! The timers of all windows: when each is due, and which is due first.
//!
//! Times and periods are milliseconds of the virtual clock (Microsoft, Timers).
#![tactic(auto)]

mod setting;
mod timer;
mod timers;

pub use setting::Setting;
pub use timer::Timer;
pub use timers::Timers;
