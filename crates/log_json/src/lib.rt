//! The log of a run as lines of JSON.
//!
//! Each line is one JSON value (RFC 8259) with no blank outside its texts, and ends with one line feed.
//! An entry is an object with the keys `answer` and `call`, whose texts are those of the log, and `who`, a
//! number. After the line of an entry that kept a frame, a line with the key `frame` stands: a list of the rows of
//! the screen, the top one first, each a text of one digit for each pixel. Behind the entries stand a line with the key `end`, lines with the key `waits` (a text) or
//! `spent` (a number), and a line with the key `sends`, a list of seven numbers.
#![tactic(auto)]

mod ending;
mod entry;
mod frame;
mod laws;
mod line;
mod writer;

pub use laws::{entry_line, names_are_texts};
pub use writer::write_json;

#[cfg(test)]
mod tests;
