//! The mouse and keyboard input that no thread has taken yet, in the order of its injection.
//!
//! Attached threads share one queue of input, so an element is taken only in its turn among those of the
//! group (Microsoft, AttachThreadInput function).
#![tactic(auto)]

mod element;
mod glance;
mod inputs;
mod row;
mod rows;
mod sealed;
mod steps;

pub use element::Element;
pub use inputs::Inputs;
pub use steps::Steps;
