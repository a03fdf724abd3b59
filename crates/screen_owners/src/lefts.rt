//! What ever more of the visible children of a window leave of a region, from the top down.

ghost use Rattle.std.specs.Prelude.{◌≡◌, ◌<◌, ◌≤◌, ◌&&◌, not, true, List, All, length, IfOk, IfSome};
ghost use Rattle.win_num.specs.declared.shapes.Point.{Point};
ghost use Rattle.win_num.specs.declared.shapes.Rect.{Rect};
ghost use Rattle.band_region.specs.Regions.{region_has};
ghost use Rattle.screen_owners.specs.Shares.{any_covers, IsLeft, IsOver, IsTaken};

use crate::covers::{Cover, left_by, meets, taken};
use band_region::Region;
use std::alloc::{AllocError, Global};

/// The least number of covers that are taken out at once.
const AT_ONCE: usize = 32;

/// From so many rectangles on no more covers are taken out: each time goes over all of them.
const MANY: usize = 400;

/// What the covers from a place on leave of a region.
#[derive(Drop)]
pub struct Left {
    pub from: usize,
    pub region: Region,
}

/// Whether more covers are worth taking out: where some are below, and what is left is something, and not
/// in many pieces.
fn goes_on(last: &Left) -> bool
    ensures { result ≡ true → 0 < last.now.from }
{
    let count = last.region.rects().len();
    last.from > 0 && count > 0 && count < MANY
}

/// What some covers more leave: as many as all that are taken out already, and at least so many that it
/// is worth it.
fn next_left(alloc: Global, covers: &[Cover], last: &Left) -> Result<Left, AllocError>
    requires some { 0 < last.now.from }
    requires within { last.now.from ≤ length covers.now }
    ensures less { IfOk result (λ l. l.from < last.now.from) }
    ensures left { IfOk result (λ l. (whole : List Rect) → IsLeft whole covers.now last.now → IsLeft whole covers.now l) }
{
    let count = covers.len() - last.from;
    let from = last.from.saturating_sub(count.max(AT_ONCE));
    let front = covers.split_at(last.from).0;
    let more = front.split_at(from).1;
    let region = left_by(alloc, &last.region, more)?;
    Ok(Left { from, region })
}

/// What ever more of the covers leave of a region, from the top down, until nothing or very many
/// rectangles are left.
pub fn lefts_of(alloc: Global, whole: &Region, covers: &[Cover]) -> Result<Vec<Left>, AllocError>
    ensures { IfOk result (λ v. All (IsLeft whole.now covers.now) v.items) }
{
    let mut lefts = Vec::new(alloc);
    if covers.is_empty() {
        return Ok(lefts);
    }
    let from = covers.len();
    let region = whole.copy(alloc)?;
    let mut last = Left { from, region };
    while goes_on(&last) {
        let next = next_left(alloc, covers, &last)?;
        lefts.push(last)?;
        last = next;
    }
    lefts.push(last)?;
    Ok(lefts)
}

/// The place of the last of them that has none of the covers up to a place taken out.
fn place_over(lefts: &[Left], i: usize) -> Option<usize>
    ensures { IfSome result (IsOver lefts.now i) }
{
    let count = lefts.len();
    for k in 0..count {
        let j = count - 1 - k;
        if lefts[j].from > i {
            return Some(j);
        }
    }
    None
}

/// What the cover at a place takes of a region. It is nothing where the cover doesn't meet what those
/// above it leave.
pub fn taken_of(
    alloc: Global,
    whole: &Region,
    covers: &[Cover],
    lefts: &[Left],
    i: usize,
) -> Result<Region, AllocError>
    requires within { i < length covers.now }
    requires lefts { All (IsLeft whole.now covers.now) lefts.now }
    ensures { IfOk result (IsTaken whole.now covers.now i) }
{
    match place_over(lefts, i) {
        Some(j) if !meets(&lefts[j].region, covers[i].part) => Ok(Region::empty(alloc)),
        _ => taken(alloc, whole, covers, i),
    }
}

/// What all covers leave of a region, from the last of what ever more of them leave.
pub fn left_by_all(
    alloc: Global,
    whole: &Region,
    covers: &[Cover],
    lefts: &[Left],
) -> Result<Region, AllocError>
    requires { All (IsLeft whole.now covers.now) lefts.now }
    ensures { IfOk result (λ x. (p : Point) → region_has x p ≡ (region_has whole.now p && not (any_covers covers.now p))) }
{
    match lefts.last() {
        Some(l) => left_by(alloc, &l.region, covers.split_at(l.from).0),
        None => left_by(alloc, whole, covers),
    }
}
