//! A law of lists of rectangles.

ghost use Rattle.std.specs.Prelude.{◌≡◌, List};
ghost use Rattle.win_num.specs.declared.shapes.Rect.{Rect};
ghost use Rattle.band_region.specs.Regions.{IsBanded, IsSameSet};

/// Two lists in bands with the same pixels are equal.
pub fn one_list_in_bands()
    ensures { (rs : List Rect) (ss : List Rect) → IsBanded rs → IsBanded ss → IsSameSet rs ss → rs ≡ ss }
{}
