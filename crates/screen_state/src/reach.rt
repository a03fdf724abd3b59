//! The pixels of a window that painting in it reaches.

ghost use Rattle.std.specs.Prelude.{◌≡◌, ◌&&◌, IfOk, option_copied};
ghost use Rattle.win_num.specs.declared.shapes.Point.{Point as Pixel};
ghost use Rattle.band_region.specs.Regions.{region_has};
ghost use Rattle.screen_state.specs.Owned.{told_has};
ghost use Rattle.screen_state.specs.Screens.{clip_has};

use band_region::Region;
use std::alloc::{AllocError, Global};

/// The pixels that are owned, and those of the clip alone where there is one. No pixel is owned where there is
/// no region of owned pixels.
pub fn let_through(
    alloc: Global,
    owned: Option<&Region>,
    clip: Option<&Region>,
) -> Result<Region, AllocError>
    ensures { IfOk result (λ r. (p : Pixel) → region_has r p ≡ (told_has (option_copied owned.entry) p && clip_has (option_copied clip.entry) p)) }
{
    match (owned, clip) {
        (Some(owned), Some(clip)) => owned.and(alloc, clip),
        (Some(owned), None) => owned.copy(alloc),
        (None, _) => Ok(Region::empty(alloc)),
    }
}
