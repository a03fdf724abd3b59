//! Numbers and small records of the window manager that every layer speaks of.
//!
//! Numbers of messages, styles and flags are those of Windows; they stand in `names`.
#![tactic(auto)]

mod code;
mod making;
mod message;
pub mod names;
mod send;
mod shapes;

pub use code::{Code, Fault};
pub use making::rect;
pub use message::{Filter, Hwnd, Msg, Thread};
pub use send::{Cause, Frame, Kind, SendId};
pub use shapes::{BadRect, Point, Rect};
