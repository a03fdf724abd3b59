//! How far the past has come.

ghost use Rattle.std.specs.Prelude.{◌≡◌};
ghost use Rattle.pending_state.specs.Changes.{FitsCursor};

use look_state::Moment;
use pending_state::{cursor_after, inputs_after};
use thread_queues::{count_after, time_after};
use user_model::Entry;
use win_num::Point;

/// How many posts and inputs there were, the clock and the cursor.
#[derive(Clone, Copy)]
pub struct Progress {
    pub posts: u32,
    pub inputs: u32,
    /// Milliseconds of the virtual clock.
    pub time: u64,
    /// In pixels of the screen.
    pub cursor: Point,
}

impl Progress {
    ghost use Rattle.core_state.specs.Progress.{moment_of, no_progress, progressed};

    /// Before the first entry.
    pub fn new() -> Progress
        ensures { result ≡ no_progress }
    {
        Progress {
            posts: 0,
            inputs: 0,
            time: 0,
            cursor: Point { x: 0, y: 0 },
        }
    }

    /// After one entry more.
    pub fn followed_by(self, entry: Entry) -> Progress
        requires { FitsCursor entry.answer entry.call }
        ensures { result ≡ progressed entry self }
    {
        Progress {
            posts: count_after(self.posts, entry.answer),
            inputs: inputs_after(self.inputs, entry.answer),
            time: time_after(self.time, entry),
            cursor: cursor_after(self.cursor, entry),
        }
    }

    /// What a look keeps of it.
    pub fn moment(self) -> Moment
        ensures { result ≡ moment_of self }
    {
        Moment {
            inputs: self.inputs,
            time: self.time,
        }
    }
}
