//! The status board: one thread publishes the status of its queue, and others read it without a turn of the desk.
#![tactic(auto)]

mod known;
mod reader;
mod shown;
mod writer;

pub use reader::{BoardReader, Note};
pub use shown::{Published, Shown};
pub use writer::BoardWriter;
