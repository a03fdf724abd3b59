//! Logs: the text of a run's history and of its end.
//!
//! The form of a log is this project's own. Its first line is `log 1`. Then comes a line for each
//! entry, `WHO CALL = ANSWER`, with messages and names by their text where they have one. After the
//! line of an entry that kept a frame, which is answered `snap K`, the frame stands: a line for each row
//! of the screen, the top one first, of one digit for each pixel, 0 to 9 and a to f. Then comes the
//! line `end` with a word, extra lines, and the line of the sends. Each line ends with one line feed.
//! The summary of a run has five lines: the number that it was made from, how many entries there are,
//! the clock, and the lines of the end and of the sends.
#![tactic(auto)]

mod end;
mod ending;
mod entry;
mod frame;
mod frequent;
mod frequent_plain;
mod frequent_sends;
mod line;
mod summary;
mod words;
mod writer;

pub use end::{End, end_word};
pub use ending::{has_ended, last_call, put_end_line, put_sends_line, put_spent, put_waits};
pub use entry::{put_answer, put_call, put_entry};
pub use frame::{frame_at, put_digits, put_frame, put_whole_entry};
pub use summary::write_summary;
pub use words::Words;
pub use writer::{WriteFault, pass_on, write_log};
