//! The words and the lines of a script's procedures and threads, both ways: a line from its words, and its text.
#![tactic(auto)]

mod forms;
mod frequent;
mod front;
mod known_writer;
mod line;
mod line_form;
mod line_reader;
mod line_writer;
mod names;
mod numbered;
mod operands;
mod rows;
mod words;

pub use forms::{
    all_are_new, all_are_told, all_have_form, has_empty_word, is_decimal, is_printable,
};
pub use frequent::frequent_line;
pub use known_writer::is_text_of;
pub use line::{Command, Line};
pub use line_form::{line_command, line_of_parts, line_parts};
pub use line_reader::{FoundLine, line_at, split_at, texts_of, word_at, words_into};
pub use line_writer::put_line;
pub use names::Names;
pub use numbered::numbered_call;
pub use operands::{NameTables, number_at};
pub use rows::{command_at, command_places, command_word};
