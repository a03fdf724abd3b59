//! What became of a send.

ghost use Rattle.std.specs.Prelude.{◌≡◌};
ghost use Rattle.user_model.specs.Stories.{no_story};

use win_num::Cause;

/// Where a send was entered, and where and by which cause it got its first answer. Places are those of the
/// history's entries, from 0 on.
#[derive(Clone, Copy, Debug, PartialEq, Eq)]
pub struct SendStory {
    /// The place of the entry that entered it.
    pub entered_at: Option<u32>,
    /// The place of the entry that gave its first answer.
    pub answered_at: Option<u32>,
    /// The cause of that answer.
    pub cause: Option<Cause>,
}

impl SendStory {
    /// A send that was begun, to which nothing has happened.
    pub fn new() -> SendStory
        ensures { result ≡ no_story }
    {
        SendStory {
            entered_at: None,
            answered_at: None,
            cause: None,
        }
    }
}
