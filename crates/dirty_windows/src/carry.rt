//! What windows that are moved carry of their pixels.

ghost use Rattle.std.specs.Prelude.{◌≡◌, not, ◌&&◌, ◌||◌, IfOk};
ghost use Rattle.win_num.specs.declared.shapes.Point.{Point};
ghost use Rattle.band_region.specs.Regions.{region_has};
ghost use Rattle.screen_owners.specs.Owners.{is_on_screen, region_in};
ghost use Rattle.dirty_windows.specs.Carrying.{brings, brings_any, source, IsShort};
ghost use Rattle.dirty_windows.specs.LookUps.{area_in, RisesFrom};

use crate::entries::{DirtyWindow, update_of};
use band_region::Region;
use screen_owners::{Owners, Screen, whole_screen};
use std::alloc::{AllocError, Global};
use win_num::Hwnd;

/// How far windows are moved, in pixels to the right and down.
#[derive(Clone, Copy, Debug)]
pub struct Shift {
    /// To the right, or to the left where it is below 0.
    pub dx: i32,
    /// Down, or up where it is below 0.
    pub dy: i32,
}

/// The pixels of those that aren't dirty for the window.
fn clean_part(
    alloc: Global,
    entries: &[DirtyWindow],
    owned: &Region,
    w: Hwnd,
) -> Result<Region, AllocError>
    requires { RisesFrom 0 entries.now }
    ensures { IfOk result (λ x. (p : Point) → region_has x p ≡ (region_has owned.now p && not (region_has (area_in entries.now w.0) p))) }
{
    match update_of(entries, w) {
        Some(update) => owned.diff(alloc, update.dirty()),
        None => {
            let copy = owned.copy(alloc)?;
            Ok(copy)
        }
    }
}

/// The pixels of those that are on the screen.
fn on_screen(alloc: Global, part: &Region, screen: Screen) -> Result<Region, AllocError>
    ensures { IfOk result (λ x. (p : Point) → region_has x p ≡ (region_has part.now p && is_on_screen screen.width screen.height p)) }
{
    let whole = whole_screen(alloc, screen)?;
    part.and(alloc, &whole.region)
}

/// The pixels of the screen to which the move brings one of those.
fn moved_part(
    alloc: Global,
    part: &Region,
    screen: Screen,
    shift: Shift,
) -> Result<Region, AllocError>
    requires { IsShort shift }
    ensures { IfOk result (λ x. (p : Point) → region_has x p ≡ (region_has part.now (source shift p) && is_on_screen screen.width screen.height (source shift p))) }
{
    let near = on_screen(alloc, part, screen)?;
    near.shifted(alloc, shift.dx, shift.dy)
}

/// The pixels that the window carries, where it owned these and owns those.
fn carried_between(
    alloc: Global,
    entries: &[DirtyWindow],
    before: &Region,
    after: &Region,
    w: Hwnd,
    screen: Screen,
    shift: Shift,
) -> Result<Region, AllocError>
    requires rising { RisesFrom 0 entries.now }
    requires short { IsShort shift }
    ensures { IfOk result (λ x. (p : Point) → region_has x p ≡ (((region_has before.now (source shift p) && not (region_has (area_in entries.now w.0) (source shift p))) && is_on_screen screen.width screen.height (source shift p)) && (region_has after.now p && is_on_screen screen.width screen.height p))) }
{
    let clean = clean_part(alloc, entries, before, w)?;
    let moved = moved_part(alloc, &clean, screen, shift)?;
    let there = on_screen(alloc, after, screen)?;
    moved.and(alloc, &there)
}

/// The pixels that the window carries, where it owned these.
fn carried_from(
    alloc: Global,
    entries: &[DirtyWindow],
    before: &Region,
    new: &Owners,
    w: Hwnd,
    screen: Screen,
    shift: Shift,
) -> Result<Region, AllocError>
    requires rising { RisesFrom 0 entries.now }
    requires short { IsShort shift }
    ensures { IfOk result (λ x. (p : Point) → region_has x p ≡ (((region_has before.now (source shift p) && not (region_has (area_in entries.now w.0) (source shift p))) && is_on_screen screen.width screen.height (source shift p)) && (region_has (region_in new.now w.0) p && is_on_screen screen.width screen.height p))) }
{
    match new.region_of(w) {
        Some(after) => carried_between(alloc, entries, before, after, w, screen, shift),
        None => Ok(Region::empty(alloc)),
    }
}

/// The pixels that the window carries.
fn carried_of(
    alloc: Global,
    entries: &[DirtyWindow],
    old: &Owners,
    new: &Owners,
    w: Hwnd,
    screen: Screen,
    shift: Shift,
) -> Result<Region, AllocError>
    requires rising { RisesFrom 0 entries.now }
    requires short { IsShort shift }
    ensures { IfOk result (λ x. (p : Point) → region_has x p ≡ brings entries.now old.now new.now screen shift w.0 p) }
{
    if w == Hwnd(0) {
        return Ok(Region::empty(alloc));
    }
    match old.region_of(w) {
        Some(before) => carried_from(alloc, entries, before, new, w, screen, shift),
        None => Ok(Region::empty(alloc)),
    }
}

/// The pixels that one of both has.
fn joined(alloc: Global, all: Region, part: &Region) -> Result<Region, AllocError>
    ensures { IfOk result (λ x. (p : Point) → region_has x p ≡ (region_has all p || region_has part.now p)) }
{
    if part.kind() == 1 {
        return Ok(all);
    }
    all.or(alloc, part)
}

/// The pixels that the windows carry.
pub fn carried_all(
    alloc: Global,
    entries: &[DirtyWindow],
    old: &Owners,
    new: &Owners,
    moved: &[Hwnd],
    screen: Screen,
    shift: Shift,
) -> Result<Region, AllocError>
    requires rising { RisesFrom 0 entries.now }
    requires short { IsShort shift }
    ensures { IfOk result (λ x. (p : Point) → region_has x p ≡ brings_any entries.now old.now new.now screen shift moved.now p) }
{
    let mut all = Region::empty(alloc);
    for k in 0..moved.len() {
        let part = carried_of(alloc, entries, old, new, moved[k], screen, shift)?;
        all = joined(alloc, all, &part)?;
    }
    Ok(all)
}
