//! A slot of the table, and the ends of a list of slots.

use crate::ready::Ready;

/// An entry of a thread's list, between the slots before and after it, or a free slot, before the next free one.
#[derive(Clone, Copy)]
pub(crate) struct Slot {
    /// The number of the thread, 0 where the slot is free.
    pub(crate) thread: u32,
    pub(crate) place: u32,
    pub(crate) ready: Ready,
    /// The key of the slot before it.
    pub(crate) before: Option<u16>,
    /// The key of the slot after it.
    pub(crate) after: Option<u16>,
}

/// The first and the last slot of a list, where it isn't empty.
#[derive(Clone, Copy)]
pub(crate) struct Ends {
    pub(crate) first: Option<u16>,
    pub(crate) last: Option<u16>,
}
