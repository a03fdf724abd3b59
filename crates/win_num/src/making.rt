//! The one way to make a rectangle.

ghost use Rattle.std.specs.Prelude.{◌≡◌, ◌↔◌, IsTrue, IfOk, IsErr};
ghost use Rattle.win_num.specs.PixelSets.{box, is_bad_rect};
ghost use Rattle.win_num.specs.Rects.{box_in};

use crate::shapes::{BadRect, Rect};

/// How far an edge may be from 0, in pixels.
const FAR: i32 = 8388608;

/// The rectangle with these edges, in pixels. `BadRect` comes exactly where the right edge is left of
/// the left one, the bottom edge is above the top one, or an edge is outside -8388608..8388608.
pub fn rect(l: i32, t: i32, r: i32, b: i32) -> Result<Rect, BadRect>
    ensures ok { IfOk result (λ x. box_in x ≡ box l t r b) }
    ensures err { IsErr result ↔ IsTrue (is_bad_rect l t r b) }
{
    if r < l || b < t {
        return Err(BadRect);
    }
    if l < -FAR || l > FAR || t < -FAR || t > FAR {
        return Err(BadRect);
    }
    if r < -FAR || r > FAR || b < -FAR || b > FAR {
        return Err(BadRect);
    }
    Ok(Rect { l, t, r, b })
}
