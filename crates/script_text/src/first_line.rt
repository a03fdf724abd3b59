//! The first line of a text.

ghost use Rattle.std.specs.Prelude.{◌≡◌, ◌∷◌, [], ◌<◌, length, IfSome, IfNone};
ghost use Rattle.script_lines.specs.LineReading.{split_at};

use memchr::memchr;

/// The first line of a text, and what stands behind its line feed. None comes exactly where there is no line feed.
pub fn first_line(text: &[u8]) -> Option<(&[u8], &[u8])>
    ensures line { IfSome result (λ cut. split_at 10 text.now ≡ cut.0.now ∷ split_at 10 cut.1.now) }
    ensures shorter { IfSome result (λ cut. length cut.1.now < length text.now) }
    ensures none { IfNone result (split_at 10 text.now ≡ text.now ∷ []) }
{
    let end = memchr(b'\n', text)?;
    Some((&text[..end], &text[end + 1..]))
}
