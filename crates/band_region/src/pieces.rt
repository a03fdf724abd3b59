//! Single rectangles, and lists of them that are moved.

ghost use Rattle.std.specs.Prelude.{◌≡◌, ◌≤ℤ◌, ◌+ℤ◌, pos, negsuc, IfOk, All};
ghost use Rattle.win_num.specs.PixelSets.{box};
ghost use Rattle.win_num.specs.Rects.{box_in};
ghost use Rattle.band_region.specs.Regions.{IsFilled, StaysInPlane};
ghost use Rattle.band_region.specs.Pieces.{IsJoined, IsShift, IsMoved};

use std::alloc::{AllocError, Global};
use win_num::{Rect, rect};

/// The rectangle with these edges, in pixels.
pub(crate) fn known_rect(l: i32, t: i32, r: i32, b: i32) -> Rect
    requires across { l ≤ℤ r }
    requires down { t ≤ℤ b }
    requires left_near { negsuc 8388607 ≤ℤ l }
    requires top_near { negsuc 8388607 ≤ℤ t }
    requires right_near { r ≤ℤ pos 8388608 }
    requires bottom_near { b ≤ℤ pos 8388608 }
    ensures { box_in result ≡ box l t r b }
{
    rect(l, t, r, b).unwrap()
}

/// The least rectangle around both.
pub(crate) fn joined(a: Rect, b: Rect) -> Rect
    ensures { IsJoined a b result }
{
    known_rect(
        a.l().min(b.l()),
        a.t().min(b.t()),
        a.r().max(b.r()),
        a.b().max(b.b()),
    )
}

/// The rectangle, moved by so many pixels to the right and down.
pub(crate) fn moved(r: Rect, dx: i32, dy: i32) -> Rect
    requires left_near { negsuc 8388607 ≤ℤ (r.l +ℤ dx) }
    requires top_near { negsuc 8388607 ≤ℤ (r.t +ℤ dy) }
    requires right_near { (r.r +ℤ dx) ≤ℤ pos 8388608 }
    requires bottom_near { (r.b +ℤ dy) ≤ℤ pos 8388608 }
    ensures { IsShift dx dy r result }
{
    known_rect(r.l() + dx, r.t() + dy, r.r() + dx, r.b() + dy)
}

/// The rectangles, moved by so many pixels to the right and down.
pub(crate) fn moved_all(
    alloc: Global,
    parts: &[Rect],
    dx: i32,
    dy: i32,
) -> Result<Vec<Rect>, AllocError>
    requires filled { All IsFilled parts.now }
    requires near { StaysInPlane parts.now dx dy }
    ensures { IfOk result (λ v. IsMoved parts.now dx dy v.items) }
{
    let mut rects = Vec::with_capacity(alloc, parts.len())?;
    for part in parts {
        rects.push(moved(*part, dx, dy))?;
    }
    Ok(rects)
}
