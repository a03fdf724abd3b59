//! The kind and the bounds of a region, as definitions over lists of points have them.

ghost use Rattle.std.specs.Prelude.{◌≡◌, ℕ, Bool, filter};
ghost use Rattle.win_num.specs.declared.shapes.Point.{Point};
ghost use Rattle.win_num.specs.PixelSets.{bounds, kind_of};
ghost use Rattle.win_num.specs.Rects.{box_in};
ghost use Rattle.region_box.specs.Screens.{IsPassing, screen_points};

use band_region::Region;
use win_num::Rect;

/// The region's kind: 1 for no pixel, 2 for all pixels of one rectangle, else 3. Whatever screen and
/// test the region's pixels come from, it is `kind_of` of the screen's points that pass (Microsoft,
/// GetRgnBox function: NULLREGION, SIMPLEREGION and COMPLEXREGION).
pub fn told_kind(region: &Region) -> u8
    ensures { (width height : ℕ) (test : Point → Bool) → IsPassing width height test region.now → result ≡ kind_of (filter test (screen_points width height)) }
{
    region.kind()
}

/// The least rectangle around the region, or 0 0 0 0 where it has no pixel. Whatever screen and test the
/// region's pixels come from, it is `bounds` of the screen's points that pass (Microsoft, GetRgnBox
/// function).
pub fn told_bounds(region: &Region) -> Rect
    ensures { (width height : ℕ) (test : Point → Bool) → IsPassing width height test region.now → box_in result ≡ bounds (filter test (screen_points width height)) }
{
    region.bounds()
}
