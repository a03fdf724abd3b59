//! A source that keeps what was read.

ghost use Rattle.std.specs.Prelude.{◌≡◌};

use std::alloc::Global;
use user_io::{Source, Took};

/// The most bytes that are kept.
pub const KEPT_LIMIT: usize = 2_097_152;

/// Gives what another source gives, and keeps it up to a limit. Where there is more, or where memory for it is wanting,
/// nothing is kept. Contracts see the other source.
#[derive(Drop)]
pub struct Kept<S: Source> {
    source: S,
    bytes: Vec<u8>,
    is_whole: bool,
}

impl<S: Source> Kept<S> {
    /// Keeps what this source will give.
    pub fn new(alloc: Global, source: S) -> Kept<S>
        ensures { result.source ≡ source }
    {
        Kept {
            source,
            bytes: Vec::new(alloc),
            is_whole: true,
        }
    }

    /// All that was read so far. None comes where it wasn't kept.
    pub fn bytes(&self) -> Option<&[u8]> {
        if self.is_whole {
            Some(&self.bytes)
        } else {
            None
        }
    }

    /// Keeps a piece more.
    fn keep(&mut self, piece: &[u8])
        ensures { self.new.source ≡ self.old.source }
    {
        if !self.is_whole {
            return;
        }
        let is_short = piece.len() <= KEPT_LIMIT.saturating_sub(self.bytes.len());
        if !is_short || self.bytes.extend_from_slice(piece).is_err() {
            self.is_whole = false;
            self.bytes.clear();
        }
    }
}

impl<S: Source> Source for Kept<S> {
    ghost left = { λ k. S.left k.source };

    ghost faults = { λ k. S.faults k.source };

    fn read(&mut self, buf: &mut [u8]) -> Took {
        let took = self.source.read(buf);
        if let Took::Took(count) = took {
            self.keep(&buf[..count]);
        }
        took
    }
}
