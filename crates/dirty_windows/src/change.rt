//! What becomes dirty, and what stays so, where windows own other pixels than before.

ghost use Rattle.std.specs.Prelude.{◌≡◌, ◌<◌, ◌==◌, ℕ, true, not, ◌&&◌, ◌||◌, IfOk, OnOk};
ghost use Rattle.win_num.specs.declared.shapes.Point.{Point};
ghost use Rattle.band_region.specs.Regions.{region_has};
ghost use Rattle.screen_owners.specs.Owners.{region_in};
ghost use Rattle.dirty_windows.specs.LookUps.{RisesFrom, AreSorted};
ghost use Rattle.dirty_windows.specs.Changes.{carries, exposes, IsCut, IsExposed};

use crate::entries::{DirtyWindow, add, settle};
use band_region::Region;
use screen_owners::Owners;
use std::alloc::{AllocError, Global};
use update_region::Update;
use win_num::Hwnd;
use win_rows::has_number;

/// The pixels of the part that the window owns.
pub fn owned_part(
    alloc: Global,
    part: &Region,
    owners: &Owners,
    w: Hwnd,
) -> Result<Region, AllocError>
    ensures { IfOk result (λ x. (p : Point) → region_has x p ≡ (region_has part.now p && region_has (region_in owners.now w.0) p)) }
{
    match owners.region_of(w) {
        Some(owned) => part.and(alloc, owned),
        None => Ok(Region::empty(alloc)),
    }
}

/// What a region leaves of the part. It is nothing where both are the same.
fn left_of(alloc: Global, part: &Region, owned: &Region) -> Result<Region, AllocError>
    ensures { IfOk result (λ x. (p : Point) → region_has x p ≡ (region_has part.now p && not (region_has owned.now p))) }
{
    if part.same(owned) {
        return Ok(Region::empty(alloc));
    }
    part.diff(alloc, owned)
}

/// The pixels of the part that the window doesn't own.
fn other_part(alloc: Global, part: &Region, owners: &Owners, w: Hwnd) -> Result<Region, AllocError>
    ensures { IfOk result (λ x. (p : Point) → region_has x p ≡ (region_has part.now p && not (region_has (region_in owners.now w.0) p))) }
{
    match owners.region_of(w) {
        Some(owned) => left_of(alloc, part, owned),
        None => {
            let copy = part.copy(alloc)?;
            Ok(copy)
        }
    }
}

/// The pixels of those that a window owns that it didn't before, or where it moved all that aren't carried.
fn newly_owned(
    alloc: Global,
    owned: &Region,
    old: &Owners,
    moved: bool,
    carried: &Region,
    w: Hwnd,
) -> Result<Region, AllocError>
    ensures { IfOk result (λ x. (p : Point) → region_has x p ≡ ((region_has owned.now p && (moved || not (region_has (region_in old.now w.0) p))) && not (moved && region_has carried.now p))) }
{
    if moved {
        return owned.diff(alloc, carried);
    }
    other_part(alloc, owned, old, w)
}

/// The pixels that are exposed for the window.
fn exposed_part(
    alloc: Global,
    old: &Owners,
    new: &Owners,
    moved: &[Hwnd],
    carried: &Region,
    w: Hwnd,
) -> Result<Region, AllocError>
    requires sorted { AreSorted moved.now }
    requires window { 0 < w.0 }
    ensures { IfOk result (λ x. (p : Point) → region_has x p ≡ exposes old.now new.now moved.now carried.now w.0 p) }
{
    let moves = has_number(moved, w);
    match new.region_of(w) {
        Some(owned) => newly_owned(alloc, owned, old, moves, carried, w),
        None => Ok(Region::empty(alloc)),
    }
}

/// Makes the pixels dirty that are exposed for the window, and sets its flag where there is one.
fn expose(
    alloc: Global,
    entries: &mut Vec<DirtyWindow>,
    old: &Owners,
    new: &Owners,
    moved: &[Hwnd],
    carried: &Region,
    w: Hwnd,
) -> Result<(), AllocError>
    requires rising { RisesFrom 0 entries.old.items }
    requires moved { AreSorted moved.now }
    ensures { OnOk result (IsExposed (λ v. w.0 == v) old.now new.now moved.now carried.now entries.old.items entries.new.items) }
{
    if w == Hwnd(0) {
        return Ok(());
    }
    let part = exposed_part(alloc, old, new, moved, carried, w)?;
    if part.kind() == 1 {
        return Ok(());
    }
    add(alloc, entries, w, &part, true)
}

/// Makes the pixels dirty that are exposed for any window, and sets the flags of those windows.
pub fn expose_all(
    alloc: Global,
    entries: &mut Vec<DirtyWindow>,
    old: &Owners,
    new: &Owners,
    moved: &[Hwnd],
    carried: &Region,
) -> Result<(), AllocError>
    requires rising { RisesFrom 0 entries.old.items }
    requires moved { AreSorted moved.now }
    ensures { OnOk result (IsExposed (λ _. true) old.now new.now moved.now carried.now entries.old.items entries.new.items) }
{
    let owners = new.entries();
    for owned in owners {
        expose(alloc, entries, old, new, moved, carried, owned.window)?;
    }
    Ok(())
}

/// What is dirty of the window and among these pixels, with its flag.
fn kept_in(alloc: Global, update: &Update, owned: &Region) -> Result<Update, AllocError>
    ensures area { IfOk result (λ u. (p : Point) → region_has u.area p ≡ (region_has update.now.area p && region_has owned.now p)) }
    ensures erases { IfOk result (λ u. u.erases ≡ update.now.erases) }
{
    let mut kept = update.copy(alloc)?;
    kept.keep(alloc, owned)?;
    Ok(kept)
}

/// What is dirty of the window and still owned by it, with its flag.
fn owned_update(
    alloc: Global,
    update: &Update,
    owners: &Owners,
    w: Hwnd,
) -> Result<Update, AllocError>
    ensures area { IfOk result (λ u. (p : Point) → region_has u.area p ≡ (region_has update.now.area p && region_has (region_in owners.now w.0) p)) }
    ensures erases { IfOk result (λ u. u.erases ≡ update.now.erases) }
{
    match owners.region_of(w) {
        Some(owned) => kept_in(alloc, update, owned),
        None => {
            let none = Region::empty(alloc);
            let kept = kept_in(alloc, update, &none)?;
            Ok(kept)
        }
    }
}

/// What is dirty of the window and still owned by it, but where it carries pixels, with its flag.
fn kept_update(
    alloc: Global,
    update: &Update,
    owners: &Owners,
    moved: &[Hwnd],
    carried: &Region,
    w: Hwnd,
) -> Result<Update, AllocError>
    requires { AreSorted moved.now }
    ensures area { IfOk result (λ u. (p : Point) → region_has u.area p ≡ ((region_has update.now.area p && region_has (region_in owners.now w.0) p) && not (carries moved.now carried.now w.0 p))) }
    ensures erases { IfOk result (λ u. u.erases ≡ update.now.erases) }
{
    let mut kept = owned_update(alloc, update, owners, w)?;
    if !has_number(moved, w) {
        return Ok(kept);
    }
    kept.carry(carried)?;
    Ok(kept)
}

/// What is dirty of each window and still owned by it, but where it carries pixels, with the flags.
pub fn kept_of(
    alloc: Global,
    entries: &[DirtyWindow],
    owners: &Owners,
    moved: &[Hwnd],
    carried: &Region,
) -> Result<Vec<DirtyWindow>, AllocError>
    requires rising { RisesFrom 0 entries.now }
    requires moved { AreSorted moved.now }
    ensures { IfOk result (λ v. IsCut owners.now moved.now carried.now entries.now v.items) }
{
    let mut kept = Vec::new(alloc);
    for d in entries {
        let update = kept_update(alloc, &d.update, owners, moved, carried, d.window)?;
        settle(&mut kept, d.window, update)?;
    }
    Ok(kept)
}
