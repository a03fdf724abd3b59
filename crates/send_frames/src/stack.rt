//! The stack of frames of one thread.

ghost use Rattle.std.specs.Prelude.{◌≡◌, ◌<◌, ◌≤◌, List, [], ◌∷◌, length, nat_lt, IfOk, MatchOption, slice_get};

use std::alloc::{AllocError, Global};
use std::marker::Model;
use win_num::Frame;

/// How many frames a stack may hold.
const DEPTH: usize = 64;

/// At most 64 frames, seen as a list with the newest first. Its room is taken when it is made.
#[derive(Drop)]
pub(crate) struct Stack {
    frames: Vec<Frame>,
}

impl Model for Stack {
    ghost use Rattle.std.specs.Prelude.{List, ◌≤◌, reverse, vec_len, vec_capacity};
    ghost use Rattle.win_num.specs.declared.send.Frame.{Frame};

    ghost Value = { List Frame };

    ghost view = { λ a. reverse a.frames.items };

    ghost invariant = { λ a. (vec_len a.frames ≤ 64) × (64 ≤ vec_capacity a.frames) };
}

impl Stack {
    /// No frame, with room for 64.
    pub(crate) fn new(alloc: Global) -> Result<Self, AllocError>
        ensures { IfOk result (λ s. s ≡ []) }
    {
        Ok(Stack {
            frames: Vec::with_capacity(alloc, DEPTH)?,
        })
    }

    /// Whether it has room for a frame.
    pub(crate) fn has_room(&self) -> bool
        ensures { result ≡ nat_lt (length self.now) 64 }
    {
        self.frames.len() < DEPTH
    }

    /// How many frames it has.
    pub(crate) fn len(&self) -> usize
        ensures len { result ≡ length self.now }
        ensures small { result ≤ 64 }
    {
        self.frames.len()
    }

    /// The newest frame.
    pub(crate) fn top(&self) -> Option<Frame>
        ensures { result ≡ slice_get self.now 0 }
    {
        self.frames.last().copied()
    }

    /// Puts a frame on the top.
    pub(crate) fn push(&mut self, frame: Frame)
        requires { length self.old < 64 }
        ensures { self.new ≡ frame ∷ self.old }
    {
        self.frames.push(frame).unwrap();
    }

    /// Takes the newest frame.
    pub(crate) fn pop(&mut self) -> Option<Frame>
        ensures { MatchOption result ((self.old ≡ []) × (self.new ≡ [])) (λ f. self.old ≡ f ∷ self.new) }
    {
        self.frames.pop()
    }
}
