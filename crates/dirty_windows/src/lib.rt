//! The dirty pixels of all windows, with their erase flags (Microsoft, The Update Region), as an entry of
//! the history changes them.
#![tactic(auto)]

mod carry;
mod change;
mod entries;
mod windows;

pub use carry::Shift;
pub use entries::DirtyWindow;
pub use windows::DirtyWindows;
