//! Answers in the words of a log.

use answer_table::{answer_form, split_answer};
use call_fields::{Value, cause_word, code_word, source_word};
use std::fmt::{self, Display, Formatter, Write};
use user_model::Answer;

/// An answer as it is written.
#[derive(Drop)]
pub struct Told(pub Answer);

impl Display for Told {
    fn fmt<W: Write>(&self, f: &mut Formatter<W>) -> fmt::Result {
        let split = split_answer(self.0);
        write_word(f, answer_form(split.name).word)?;
        for value in &split.values {
            f.write_str(" ")?;
            write_value(f, *value)?;
        }
        Ok(())
    }
}

/// Writes a word of the tables.
fn write_word<W: Write>(f: &mut Formatter<W>, word: &[u8]) -> fmt::Result {
    for byte in word {
        write!(f, "{}", char::from(*byte))?;
    }
    Ok(())
}

/// Writes the value of a field.
fn write_value<W: Write>(f: &mut Formatter<W>, value: Value) -> fmt::Result {
    match value {
        Value::Number(number) | Value::Message(number) => write!(f, "{number}"),
        Value::Signed(number) => write!(f, "{number}"),
        Value::Name(number)
        | Value::Procedure(number)
        | Value::Count(number)
        | Value::ShortMessage(number) => write!(f, "{number}"),
        Value::Window(window) => write!(f, "{}", window.0),
        Value::Send(send) => write!(f, "{}", send.0),
        Value::Thread(thread) => write!(f, "{}", thread.0),
        Value::Pixel(pixel) => write!(f, "{pixel}"),
        Value::Byte(kind) => write!(f, "{kind}"),
        Value::Source(source) => write_word(f, source_word(source)),
        Value::Cause(cause) => write_word(f, cause_word(cause)),
        Value::Code(code) => match code_word(code) {
            Some(word) => write_word(f, word),
            None => write!(f, "{}", code.number()),
        },
    }
}
