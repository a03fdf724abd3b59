//! One row for each form of answer: its word and the kinds of its fields.
//!
//! An answer is its form and the values of its fields, in the order in which logs write them (`split_answer`),
//! and is made of them again (`answer_of_parts`). What reads or writes answers is a loop over fields. Each
//! group of answers has its rows in a file of its own.
#![tactic(auto)]

mod answers;
mod drawing;
mod messages;
mod plain;
mod sends;
mod split;

pub use answers::{
    AnswerName, answer_form, answer_name, answer_named, answer_of_parts, answer_parts, split_answer,
};
pub use drawing::DrawingAnswer;
pub use messages::MessageAnswer;
pub use plain::PlainAnswer;
pub use sends::SendAnswer;
pub use split::SplitAnswer;
