//! The lines of a conversation's text.

use dde_talk::{Act, Ask, Side};

/// What a line asks for.
pub enum Line {
    /// Nothing: it is empty, or begins with `#`.
    Comment,
    /// The next server has this item with this value.
    Item(u16, u32),
    /// The next server has this command.
    Command(u16),
    /// A new conversation, with the items and commands since the last one began.
    Begin,
    /// An act of the conversation.
    Act(Act),
}

impl Line {
    /// What a line asks for. None comes where it is none of these.
    pub fn parse(line: &str) -> Option<Line> {
        if line.is_empty() || line.starts_with('#') {
            return Some(Line::Comment);
        }
        if line == "begin" {
            return Some(Line::Begin);
        }
        let (word, rest) = line.split_once(' ')?;
        match word {
            "item" => {
                let (item, value) = rest.split_once(' ')?;
                Some(Line::Item(item.parse().ok()?, value.parse().ok()?))
            }
            "command" => Some(Line::Command(rest.parse().ok()?)),
            _ => Some(Line::Act(act_of(word, rest)?)),
        }
    }
}

/// The act of a word and what stands behind it.
fn act_of(word: &str, rest: &str) -> Option<Act> {
    match word {
        "end" => Some(Act::Terminate(side_of(rest)?)),
        "send" => Some(Act::Send(side_of(rest)?)),
        "take" => Some(Act::Take(side_of(rest)?)),
        _ => Some(Act::Ask(ask_of(word, rest)?)),
    }
}

/// The side of its name.
fn side_of(name: &str) -> Option<Side> {
    match name {
        "client" => Some(Side::Client),
        "server" => Some(Side::Server),
        _ => None,
    }
}

/// The ask of a word and what stands behind it.
fn ask_of(word: &str, rest: &str) -> Option<Ask> {
    match word {
        "request" => Some(Ask::Request {
            item: rest.parse().ok()?,
        }),
        "poke" => {
            let (item, value) = rest.split_once(' ')?;
            Some(Ask::Poke {
                item: item.parse().ok()?,
                value: value.parse().ok()?,
            })
        }
        "execute" => Some(Ask::Execute {
            command: rest.parse().ok()?,
        }),
        _ => None,
    }
}
