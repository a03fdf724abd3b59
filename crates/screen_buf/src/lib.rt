//! The colour of each pixel of a screen.
#![tactic(auto)]

mod carry;
mod paint;
mod screen;

pub use screen::Screen;
