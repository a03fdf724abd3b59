//! What the lines of standard input say, and what is written.

ghost use Rattle.std.specs.Prelude.{◌≡◌, ◌≢◌};

use std::alloc::{AllocError, Global};

/// What the program has around it.
#[derive(Clone, Copy)]
pub struct Outside {
    /// How many bytes the source gives at most in one call.
    pub piece: usize,
    /// The call of the source that fails, from 0 on.
    pub fails_at: Option<u64>,
    /// How many bytes the sink takes.
    pub room: u32,
}

/// What `PIECE FAIL ROOM` says. None comes where it is none.
pub fn outside_of(line: &str) -> Option<Outside> {
    let (piece, rest) = line.split_once(' ')?;
    let (fails_at, room) = rest.split_once(' ')?;
    Some(Outside {
        piece: piece.parse().ok()?,
        fails_at: fails_at.parse().ok(),
        room: room.parse().ok()?,
    })
}

/// The words of a line.
pub fn words_of(alloc: Global, words: &str) -> Result<Vec<String>, AllocError> {
    let mut owned = Vec::new(alloc);
    for word in words.split(' ').filter(|word| !word.is_empty()) {
        owned.push(String::from_str(alloc, word)?)?;
    }
    Ok(owned)
}

/// A text in which `/` ends a line.
pub fn lines_of(alloc: Global, text: &str) -> Result<String, AllocError> {
    let mut lines = String::new(alloc);
    for letter in text.chars() {
        lines.push(if letter == '/' { '\n' } else { letter })?;
    }
    Ok(lines)
}

/// The character of a byte: that of the same number, and `/` for an end of a line.
fn shown_byte(byte: u8) -> char
    ensures end { byte ≡ 10 → result ≡ 47 }
    ensures other { byte ≢ 10 → result ≡ byte }
{
    if byte == b'\n' { '/' } else { char::from(byte) }
}

/// Bytes as characters of the same numbers, with `/` in the place of an end of a line.
pub fn shown(alloc: Global, bytes: &[u8]) -> Result<String, AllocError> {
    let mut text = String::new(alloc);
    for byte in bytes {
        text.push(shown_byte(*byte))?;
    }
    Ok(text)
}
