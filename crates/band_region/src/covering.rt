//! Which rectangle of a list has a pixel, and the least one around them all, without memory.

ghost use Rattle.std.specs.Prelude.{◌≡◌, false, ◌∷◌, IfNone, IfSome};
ghost use Rattle.band_region.specs.Regions.{region_has};
ghost use Rattle.band_region.specs.Pieces.{IsFoundAt, Bounds};

use crate::pieces::joined;
use win_num::{Point, Rect};

/// The first rectangle of the list that has the pixel.
pub(crate) fn rect_at(rects: &[Rect], p: Point) -> Option<Rect>
    ensures none { IfNone result (region_has rects.now p ≡ false) }
    ensures some { IfSome result (IsFoundAt rects.now p) }
{
    for r in rects {
        if r.has(p) {
            return Some(*r);
        }
    }
    None
}

/// The least rectangle around the first one and the others.
pub(crate) fn least_around(first: Rect, others: &[Rect]) -> Rect
    ensures { Bounds (first ∷ others.now) result }
{
    let mut around = first;
    for other in others {
        around = joined(around, *other);
    }
    around
}
