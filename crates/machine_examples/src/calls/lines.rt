//! The lines of worked examples.

use call_fields::{Field, Value, Values};
use call_table::{call_form, call_named, call_of_parts};
use user_model::Call;
use win_num::Thread;

/// What a new machine is made for, as it was written: how many threads, which flags of sends with a time, and how many posted
/// messages each thread's queue holds at most, from thread 1 on.
#[derive(Clone, Copy, Drop)]
pub struct Limits {
    pub threads: u8,
    pub smto: u8,
    pub posts: [u32; 15],
}

/// What a line asks for.
#[derive(Drop)]
pub enum Line {
    /// Nothing: it is empty, or begins with `#`.
    Comment,
    /// A new machine with such threads.
    Machine(Limits),
    /// Whether an actor has no call to make now.
    Barred(Thread),
    /// How many entries the machine has, and the last of them.
    History,
    /// What became of its sends.
    Sends,
    /// The colours of the frame of a number.
    Frame(u32),
    /// The places of so many entries more.
    Reserve(u32),
    /// A call of an actor.
    Call(Thread, Call),
}

impl Line {
    /// What a line asks for. None comes where it is none of these.
    pub fn parse(line: &str) -> Option<Line> {
        if line.is_empty() || line.starts_with('#') {
            return Some(Line::Comment);
        }
        if line == "history" {
            return Some(Line::History);
        }
        if line == "sends" {
            return Some(Line::Sends);
        }
        let (first, rest) = line.split_once(' ')?;
        match first {
            "machine" => Some(Line::Machine(limits_of(rest)?)),
            "frame" => Some(Line::Frame(rest.parse().ok()?)),
            "reserve" => Some(Line::Reserve(rest.parse().ok()?)),
            "barred" => Some(Line::Barred(Thread(rest.parse().ok()?))),
            _ => Some(Line::Call(Thread(first.parse().ok()?), call_of(rest)?)),
        }
    }
}

/// The limits of a text `N`, or `N smto F posts P ..` with a limit for each of the N threads.
fn limits_of(text: &str) -> Option<Limits> {
    let mut posts = [10000; 15];
    let Some((threads, rest)) = text.split_once(" smto ") else {
        let threads = text.parse().ok()?;
        return Some(Limits {
            threads,
            smto: 1,
            posts,
        });
    };
    let (smto, each) = rest.split_once(" posts ")?;
    let threads: u8 = threads.parse().ok()?;
    let mut words = each.split(' ');
    for limit in posts.iter_mut().take(usize::from(threads)) {
        *limit = words.next()?.parse().ok()?;
    }
    if words.next().is_some() {
        return None;
    }
    Some(Limits {
        threads,
        smto: smto.parse().ok()?,
        posts,
    })
}

/// The first and the last number of a line `from FIRST to LAST: ..`, and what stands behind the colon.
pub fn range_of(line: &str) -> Option<(u64, u64, &str)> {
    let (range, calls) = line.strip_prefix("from ")?.split_once(": ")?;
    let (first, last) = range.split_once(" to ")?;
    Some((first.parse().ok()?, last.parse().ok()?, calls))
}

/// The call of its word and its fields.
fn call_of(text: &str) -> Option<Call> {
    let mut words = text.split(' ');
    let name = call_named(words.next()?.as_bytes())?;
    let mut values = Values::new();
    for field in call_form(name).fields {
        let value = value_of(*field, words.next()?)?;
        values.try_push(value).ok()?;
    }
    if words.next().is_some() {
        return None;
    }
    call_of_parts(name, &values)
}

/// The value that a word gives in a field of a call.
fn value_of(field: Field, word: &str) -> Option<Value> {
    match field {
        Field::Number => Some(Value::Number(word.parse().ok()?)),
        Field::Message => Some(Value::Message(word.parse().ok()?)),
        Field::Signed => Some(Value::Signed(word.parse().ok()?)),
        Field::Name => Some(Value::Name(word.parse().ok()?)),
        Field::Procedure => Some(Value::Procedure(word.parse().ok()?)),
        _ => None,
    }
}
