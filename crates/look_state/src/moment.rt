//! How far a history has come.

ghost use Rattle.std.specs.Prelude.{◌≡◌, []};
ghost use Rattle.look_state.specs.Looks.{moment_at};

/// How many inputs there were, and the clock.
#[derive(Clone, Copy, Debug, PartialEq, Eq)]
pub struct Moment {
    /// The number of the last input, counted from 1 over all threads, or 0.
    pub inputs: u32,
    /// Milliseconds of the virtual clock, below 2 to the 54th.
    pub time: u64,
}

impl Moment {
    /// Before the first entry.
    pub fn start() -> Moment
        ensures { result ≡ moment_at [] }
    {
        Moment { inputs: 0, time: 0 }
    }
}
