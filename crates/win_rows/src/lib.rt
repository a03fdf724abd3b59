//! The rows of the live windows by number, and the order in which a window and all that goes with it are
//! destroyed.
#![tactic(auto)]

mod destruction;
mod links;
mod order;
mod row;
mod rows;
mod tour;
mod window;

pub use destruction::first_left;
pub use order::{put_step, steps_of};
pub use row::{Unmade, WindowRow};
pub use rows::{Rows, has_number};
pub use window::Window;
