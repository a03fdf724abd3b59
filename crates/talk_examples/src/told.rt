//! What an act came to, in words.

use dde_talk::{Event, Happened, Reply};
use std::fmt::{self, Display, Formatter, Write};
use win_num::Code;

/// What an act came to, as it is written.
#[derive(Drop)]
pub struct Told(pub Happened);

impl Display for Told {
    fn fmt<W: Write>(&self, f: &mut Formatter<W>) -> fmt::Result {
        match self.0 {
            Happened::Asked => f.write_str("asked"),
            Happened::Ending => f.write_str("ending"),
            Happened::Sent => f.write_str("sent"),
            Happened::Nothing => f.write_str("nothing"),
            Happened::Took(event) => write_event(f, event),
            Happened::Refused(Code::NotNow) => f.write_str("refused not_now"),
            Happened::Refused(Code::Full) => f.write_str("refused full"),
            Happened::Refused(code) => write!(f, "refused {}", code.number()),
        }
    }
}

/// Writes what taking a post came to.
fn write_event<W: Write>(f: &mut Formatter<W>, event: Event) -> fmt::Result {
    match event {
        Event::Served => f.write_str("served"),
        Event::Ending => f.write_str("ended"),
        Event::Ignored => f.write_str("ignored"),
        Event::Answered(Reply::Value { item, value }) => write!(f, "value {item} {value}"),
        Event::Answered(Reply::Ack { item, good: true }) => write!(f, "good {item}"),
        Event::Answered(Reply::Ack { item, good: false }) => write!(f, "bad {item}"),
    }
}
