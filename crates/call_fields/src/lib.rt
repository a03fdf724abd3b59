//! The fields of calls and answers: their kinds, the values that stand in them, and the words of some values.
#![tactic(auto)]

mod form;
mod messages;
mod value;
mod words;

pub use form::{Field, Form, row_of};
pub use messages::{MESSAGE_FIELDS, message_fields, message_values, number_values, numbers_at};
pub use value::{
    FIELD_LIMIT, Value, Values, byte_at, cause_at, code_at, count_at, field_of, message_at,
    name_at, number_at, pixel_at, procedure_at, send_at, short_message_at, signed_at, source_at,
    thread_at, values_of, window_at,
};
pub use words::{cause_word, code_word, source_word};
