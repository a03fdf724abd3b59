//! What was there for one thread.

ghost use Rattle.std.specs.Prelude.{◌≡◌};
ghost use Rattle.look_state.specs.Looks.{first_look, look_at};

use crate::moment::Moment;
use crate::seen::SeenWindow;
use std::alloc::Global;
use std::marker::Model;

/// What was there for a thread when it looked last. Before its first look nothing was.
#[derive(Drop)]
pub struct Look {
    at: Moment,
    /// The dirty pixels of the thread's windows.
    seen: Vec<SeenWindow>,
}

impl Model for Look {
    ghost use Rattle.look_state.specs.Looks.{LookView};

    ghost Value = { LookView };

    ghost view = { λ k. record { at = k.at; seen = k.seen.items } };
}

impl Look {
    /// Before the first look. It takes no memory.
    pub fn new(alloc: Global) -> Look
        ensures { result ≡ first_look }
    {
        Look {
            at: Moment::start(),
            seen: Vec::new(alloc),
        }
    }

    /// How far the history had come.
    pub fn at(&self) -> Moment
        ensures { result ≡ self.now.at }
    {
        self.at
    }

    /// The dirty pixels of the thread's windows.
    pub fn seen(&self) -> &[SeenWindow]
        ensures { result.now ≡ self.now.seen }
    {
        &self.seen
    }

    /// Puts another look in its place.
    pub(crate) fn renew(&mut self, at: Moment, seen: Vec<SeenWindow>)
        ensures { self.new ≡ look_at at seen.items }
    {
        self.at = at;
        self.seen = seen;
    }
}
