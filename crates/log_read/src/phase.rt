//! What may stand behind good lines of a log.

ghost use Rattle.std.specs.Prelude.{◌≡◌};
ghost use Rattle.log_read.specs.Grammar.{with_rows, below_entry};

use crate::entries::keeps_frame;
use log_text::End;
use script_tree::Script;
use user_model::Answer;

/// What may stand in the next line of a log.
#[derive(Clone, Copy, Debug, PartialEq, Eq)]
pub enum Phase {
    /// `log 1`
    First,
    /// An entry, or the line of the end.
    Entries,
    /// A row of a frame, with so many below it.
    Rows(u16),
    /// An extra line after this end, or the counts of sends.
    Extras(End),
    /// No line at all.
    Over,
}

/// What may stand where so many rows of a frame are to come.
pub fn with_rows(count: u16) -> Phase
    ensures { result ≡ with_rows count }
{
    match count.checked_sub(1) {
        Some(more) => Phase::Rows(more),
        None => Phase::Entries,
    }
}

/// What may stand below the line of an entry that was answered so.
pub fn below_entry(script: &Script, answer: Answer) -> Phase
    ensures { result ≡ below_entry script.now answer }
{
    if keeps_frame(answer) {
        with_rows(script.height())
    } else {
        Phase::Entries
    }
}
