//! Laws of lists of points, each the contract of a function that does nothing.

ghost use Rattle.std.specs.Prelude.{◌≡◌, ℕ, Bool, cond, count_by, filter};
ghost use Rattle.std.specs.List.{AllPairs};
ghost use Rattle.win_num.specs.declared.shapes.Point.{Point};
ghost use Rattle.win_num.specs.PixelSets.{bounds, has_pixel, kind_of};
ghost use Rattle.region_box.specs.Screens.{IsEarlier, IsKind, IsLeastBox, passes, same_point, screen_box, screen_points};

/// The list of a screen's points has each pixel of the screen once and no other point, row after row,
/// each from left to right.
pub fn screens_have_their_points()
    ensures once { (width height : ℕ) (p : Point) → count_by (same_point p) (screen_points width height) ≡ cond (has_pixel (screen_box width height) p) 1 0 }
    ensures order { (width height : ℕ) → AllPairs IsEarlier (screen_points width height) }
{}

/// Of a screen's points that pass a test, `kind_of` is 1 exactly where no pixel of the screen passes and 2
/// exactly where those that pass are all pixels of one rectangle, else 3; `bounds` has each of them, and
/// every rectangle that has them all has its pixels too.
pub fn lists_tell_their_pixels()
    ensures kind { (width height : ℕ) (test : Point → Bool) → IsKind (passes width height test) (kind_of (filter test (screen_points width height))) }
    ensures bounds { (width height : ℕ) (test : Point → Bool) → IsLeastBox (passes width height test) (bounds (filter test (screen_points width height))) }
{}
