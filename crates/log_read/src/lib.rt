//! Logs, read back.
//!
//! A log has one text, which `log_text` writes: the line `log 1`, a line `WHO CALL = ANSWER` for each entry,
//! the line `end` with a word, extra lines, and the line of the sends. Each line ends with one line feed, and
//! its words are separated by one blank. After `end stuck` any number of lines `waits T CALL` stand, after
//! `end spent` any number of lines `spent T`, and none after the other two words; whether they are those of
//! the run isn't told here. WHO and T are numbers from 0 to 15. A class, a title, a message that has a name and
//! a procedure are written by their names, and those of classes, titles and procedures must be the script's.
//! An entry answered `snap K` has kept a frame, and its lines stand behind that of the entry: a line for each row of the script's
//! screen, the top one first, with one digit for each pixel, 0 to 9 and a to f. K is any number of 32 bits.
#![tactic(auto)]

mod ending;
mod entries;
mod forms;
mod frames;
mod judge;
mod laws;
mod lines;
mod log;
mod parser;
mod phase;
mod reader;
mod reasons;
mod values;
mod writer;

pub use laws::{one_log, one_refusal, run_is_its_log};
pub use log::{Extra, Log, LogEntry};
pub use reader::read_log;
pub use script_text::{ReadFault, Reason, Refusal};
