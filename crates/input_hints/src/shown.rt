//! Texts as they are shown: shortened, and printable.
#![tactic(auto, using(user_io::proofs::Texts::two))]

ghost use Rattle.std.specs.Prelude.{◌≡◌, map, OnOk};
ghost use Rattle.user_io.specs.Text.{Adds};
ghost use Rattle.input_hints.specs.Hints.{shown_byte, shown, quoted};

use std::alloc::AllocError;
use user_io::text::put_text;

/// The most bytes of a text that are shown.
const SHOWN: usize = 60;

/// A byte as it is shown: `?` in the place of one that isn't printable.
fn shown_byte(byte: u8) -> u8
    ensures { result ≡ shown_byte byte }
{
    if byte < 32 || 126 < byte { b'?' } else { byte }
}

/// Adds bytes as they are shown.
fn put_bytes(out: &mut Vec<u8>, bytes: &[u8]) -> Result<(), AllocError>
    ensures { OnOk result (Adds out.old.items out.new.items (map shown_byte bytes.now)) }
{
    for byte in bytes {
        out.push(shown_byte(*byte))?;
    }
    Ok(())
}

/// Adds the front of a text, and `..` where it is longer.
fn put_shown(out: &mut Vec<u8>, text: &[u8]) -> Result<(), AllocError>
    ensures { OnOk result (Adds out.old.items out.new.items (shown text.now)) }
{
    if text.len() <= SHOWN {
        return put_bytes(out, text);
    }
    let (front, _) = text.split_at(SHOWN);
    put_bytes(out, front)?;
    put_text(out, b"..")
}

/// Adds a text as it is shown, between quotes.
pub fn put_quoted(out: &mut Vec<u8>, text: &[u8]) -> Result<(), AllocError>
    ensures { OnOk result (Adds out.old.items out.new.items (quoted text.now)) }
{
    put_text(out, b"'")?;
    put_shown(out, text)?;
    put_text(out, b"'")
}
