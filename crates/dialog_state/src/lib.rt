//! The dialogs on windows as a past has them, and what an entry does to them.
#![tactic(auto)]

mod dialogs;

pub use dialogs::{Dialogs, turns};
