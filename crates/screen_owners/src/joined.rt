//! Regions that stay outside of a part of the screen and are computed anew in it.

ghost use Rattle.std.specs.Prelude.{◌≡◌, ◌&&◌, not, IfOk};
ghost use Rattle.win_num.specs.declared.shapes.Point.{Point};
ghost use Rattle.band_region.specs.Regions.{region_has};
ghost use Rattle.screen_owners.specs.Owners.{joined_has, region_in};

use crate::covers::meets;
use crate::owners::Owners;
use band_region::Region;
use std::alloc::{AllocError, Global};
use win_num::Hwnd;

/// What a part leaves of a region. One that doesn't meet the part is copied.
fn left_of(alloc: Global, region: &Region, part: &Region) -> Result<Region, AllocError>
    ensures { IfOk result (λ x. (p : Point) → region_has x p ≡ (region_has region.now p && not (region_has part.now p))) }
{
    if meets(region, part.bounds()) {
        return region.diff(alloc, part);
    }
    let copy = region.copy(alloc)?;
    Ok(copy)
}

/// What a part leaves of the pixels that a window owns.
fn outside(alloc: Global, part: &Region, owners: &Owners, w: Hwnd) -> Result<Region, AllocError>
    ensures { IfOk result (λ x. (p : Point) → region_has x p ≡ (region_has (region_in owners.now w.0) p && not (region_has part.now p))) }
{
    match owners.region_of(w) {
        Some(owned) => left_of(alloc, owned, part),
        None => Ok(Region::empty(alloc)),
    }
}

/// The pixels of a window's old region that aren't in the part, and those of its new one.
pub fn joined(
    alloc: Global,
    part: &Region,
    old: &Owners,
    new: &Owners,
    w: Hwnd,
) -> Result<Region, AllocError>
    ensures { IfOk result (λ x. (p : Point) → region_has x p ≡ joined_has part.now old.now new.now w.0 p) }
{
    let kept = outside(alloc, part, old, w)?;
    match new.region_of(w) {
        Some(owned) => kept.or(alloc, owned),
        None => Ok(kept),
    }
}
