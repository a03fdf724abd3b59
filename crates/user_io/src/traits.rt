//! What a program reads from and writes to.

ghost use Rattle.std.specs.Prelude.{ℕ, List, Option};
ghost use Rattle.user_io.specs.Outside.{IsTaken, IsPut, CountsRead, CountsWrite};

/// What a read answers. This and the next three are this project's own; std's `Read` and `Write`
/// are adapted to them.
#[derive(Clone, Copy, Debug, PartialEq, Eq)]
pub enum Took {
    /// So many bytes stand at the front of the buffer.
    Took(usize),
    /// Nothing is left.
    End,
    /// The source failed, and no byte was read.
    Failed,
}

/// What a write answers.
#[derive(Clone, Copy, Debug, PartialEq, Eq)]
pub enum Put {
    /// So many bytes from the front of the piece were written.
    Put(usize),
    /// The sink failed, and no byte was written.
    Failed,
}

/// Gives bytes, from the first to the last.
pub trait Source {
    /// What is left to read, where the source tells that.
    ghost left: { Self → Option (List ℕ) };

    /// How often it has failed; at 2^64 - 1 the count stands still.
    ghost faults: { Self → ℕ };

    /// Moves bytes from the front of what is left to the front of the buffer, at least one where
    /// the buffer isn't empty. `End` comes only where nothing is left, and `Failed` only where the
    /// count of faults rises; both move no byte. Nothing but `Failed` changes the count, and it never falls.
    fn read(&mut self, buf: &mut [u8]) -> Took
        ensures taken { IsTaken (left self.old) (left self.new) (faults self.old) (faults self.new) buf.new result }
        ensures count { CountsRead (faults self.old) (faults self.new) result };
}

/// Takes bytes, from the first to the last.
pub trait Sink {
    /// What was written, where the sink tells that.
    ghost holds: { Self → Option (List ℕ) };

    /// How often it has failed; at 2^64 - 1 the count stands still.
    ghost faults: { Self → ℕ };

    /// Appends bytes from the front of the piece, at least one where the piece isn't empty.
    /// `Failed` comes only where the count of faults rises, and then nothing was written.
    /// Nothing but `Failed` changes the count, and it never falls.
    fn write(&mut self, buf: &[u8]) -> Put
        ensures put { IsPut (holds self.old) (holds self.new) (faults self.old) (faults self.new) buf.now result }
        ensures count { CountsWrite (faults self.old) (faults self.new) result };
}
