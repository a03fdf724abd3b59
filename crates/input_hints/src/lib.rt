//! Help for people where an input is refused: a line for standard error that shows the bad line and says what was expected
//! there, and a source that keeps what was read of it. The line is no format, and nothing else is made of it.
#![tactic(auto)]

mod expected;
mod forms;
mod hint;
mod kept;
mod shown;

pub use hint::{log_hint, script_hint};
pub use kept::{KEPT_LIMIT, Kept};
