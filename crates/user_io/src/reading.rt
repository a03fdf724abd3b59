//! Reading a text to its end.

ghost use Rattle.std.specs.Prelude.{◌≡◌, ◌+◌, ◌≤◌, IfOk, IsErrOf, vec_len};
ghost use Rattle.std.specs.Io.KnownBytes.{Consumes, IsAtEnd};
ghost use Rattle.user_io.specs.Outside.{Rose, ConsumesMany, ConsumesUpTo};
ghost use Rattle.user_io.specs.declared.reading.ReadEnd.TheVariants.{Memory};

use crate::traits::{Source, Took};
use std::alloc::{AllocError, Global};

/// How many bytes a read asks for at most.
const PIECE: usize = 16384;

/// Why there is no text.
#[derive(Clone, Copy, Debug, PartialEq, Eq)]
pub enum ReadEnd {
    /// The source failed: its count of faults has risen.
    Failed,
    /// There are more bytes than the limit; one byte past it was read.
    TooLong,
    /// No memory was left for the text.
    Memory,
}

impl From<AllocError> for ReadEnd {
    ghost from_gives = { λ _ e. e ≡ Memory };

    fn from(_error: AllocError) -> ReadEnd {
        ReadEnd::Memory
    }
}

/// All that the source has left, where that is at most `limit` bytes. Where there is more, one byte
/// past the limit is read, and no further.
pub fn read_all<S: Source>(alloc: Global, source: &mut S, limit: usize) -> Result<Vec<u8>, ReadEnd>
    ensures text { IfOk result (λ text. Consumes (S.left source.old) (S.left source.new) text.items) }
    ensures end { IfOk result (λ text. IsAtEnd (S.left source.new)) }
    ensures short { IfOk result (λ text. vec_len text ≤ limit) }

    ensures long { IsErrOf result ReadEnd.TooLong → ConsumesMany (S.left source.old) (S.left source.new) (limit + 1) }
    ensures failed { IsErrOf result ReadEnd.Failed → Rose (S.faults source.old) (S.faults source.new) }
    ensures unfailed { IfOk result (λ text. S.faults source.new ≡ S.faults source.old) }
    ensures unfailed_long { IsErrOf result ReadEnd.TooLong → S.faults source.new ≡ S.faults source.old }

    // Whatever the answer is.
    ensures bound { ConsumesUpTo (S.left source.old) (S.left source.new) (limit + 1) }
    ensures faults { S.faults source.old ≤ S.faults source.new }
{
    let mut text = Vec::new(alloc);
    let mut piece = [0u8; PIECE];
    while text.len() <= limit {
        let room = (limit - text.len()).min(PIECE - 1) + 1;
        match source.read(&mut piece[..room]) {
            Took::Took(count) => text.extend_from_slice(&piece[..count])?,
            Took::End => return Ok(text),
            Took::Failed => return Err(ReadEnd::Failed),
        }
    }
    Err(ReadEnd::TooLong)
}
