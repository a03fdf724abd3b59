//! How many messages of one kind there are.

ghost use Rattle.std.specs.Prelude.{◌≡◌, ◌<◌, ◌≤◌, ◌+◌, ◌^◌};
ghost use Rattle.queue_status.specs.Counts.{MayGo, is_fresh, is_there, none_fresh, none_there, one_less, one_more};

/// How many messages of one kind there are, and how many of them came since the last look.
#[derive(Clone, Copy, Debug, PartialEq, Eq)]
pub struct Count {
    pub there: u32,
    pub fresh: u32,
}

impl Count {
    /// No message.
    pub fn none() -> Count
        ensures { result ≡ none_there }
    {
        Count { there: 0, fresh: 0 }
    }

    /// One comes: one that came since the last look, or another.
    pub fn add(&mut self, fresh: bool)
        requires sound { self.old.fresh ≤ self.old.there }
        requires room { self.old.there + 1 < 2 ^ 32 }
        ensures { self.new ≡ one_more fresh self.old }
    {
        self.there += 1;
        if fresh {
            self.fresh += 1;
        }
    }

    /// One goes: one that came since the last look, or another.
    pub fn remove(&mut self, fresh: bool)
        requires sound { self.old.fresh ≤ self.old.there }
        requires some { MayGo fresh self.old }
        ensures { self.new ≡ one_less fresh self.old }
    {
        self.there -= 1;
        if fresh {
            self.fresh -= 1;
        }
    }

    /// None is fresh any more.
    pub fn look(&mut self)
        ensures { self.new ≡ none_fresh self.old }
    {
        self.fresh = 0;
    }

    /// Whether one is there.
    pub fn is_there(self) -> bool
        ensures { result ≡ is_there self }
    {
        self.there > 0
    }

    /// Whether one came since the last look.
    pub fn is_fresh(self) -> bool
        ensures { result ≡ is_fresh self }
    {
        self.fresh > 0
    }
}
