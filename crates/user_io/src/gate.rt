//! What a group of threads passes before each of its turns.

/// Is passed before each turn, by groups that run beside each other.
pub trait Gate {
    /// Lets a group have its next turn. Groups and the turns of a group are counted from 0. It returns, and tells nothing.
    fn pass(&self, group: u32, turn: u64);
}

/// A gate at which nobody waits.
#[derive(Clone, Copy, Debug)]
pub struct NoGate;

impl Gate for NoGate {
    fn pass(&self, _group: u32, _turn: u64) {}
}
