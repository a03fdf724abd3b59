//! Which windows are being painted, each with the pixels that its painting may change (Microsoft, BeginPaint
//! and EndPaint functions).
#![tactic(auto)]

mod painting;
mod sessions;

pub use painting::PaintSessions;
pub use sessions::Session;
