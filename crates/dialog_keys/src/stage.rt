//! How far the state of a key has come.

use crate::key::DialogKey;
use crate::walk::Walk;
use win_calls::{CallState, CompoundState, Next};

/// How far the state of a key has come.
#[derive(Clone, Copy)]
pub enum Stage {
    /// It hasn't begun.
    Fresh(DialogKey),
    /// The call for the next child is made.
    Walking(Walk),
    /// The call for the style of the child is made.
    Looking(Walk),
    /// This window gets the focus.
    Focusing(u64, CompoundState),
    /// The command is sent.
    Sending(CallState),
    /// It has ended.
    Over,
}

/// How far the state of a key has come, and what it asks for there.
#[derive(Clone, Copy)]
pub struct Step {
    pub stage: Stage,
    pub next: Next,
}
