//! The windows that are live: whose child or owned window each is, what is marked for destruction, and
//! in which order a window and all that goes with it are destroyed.
#![tactic(auto)]

mod kin;
mod plan;
mod tree;

pub use tree::Tree;
pub use win_num::{Code, Fault, Hwnd, Rect, Thread};
pub use win_rows::{Unmade, WindowRow};
