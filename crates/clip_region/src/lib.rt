//! The pixels of the screen that a window owns: its own without those of the windows above it and of
//! its children.
#![tactic(auto)]

ghost use Rattle.std.specs.Prelude.{◌≡◌, ◌&&◌, IfOk};
ghost use Rattle.win_num.specs.declared.shapes.Point.{Point};
ghost use Rattle.band_region.specs.Regions.{region_has};
ghost use Rattle.clip_region.specs.Clipping.{is_owned};

use band_region::Region;
use std::alloc::{AllocError, Global};
use win_num::Rect;

/// The pixels of the region that a rectangle has too: those of each half of the list, united.
fn covered(alloc: Global, whole: &Region, covers: &[Rect]) -> Result<Region, AllocError>
    ensures { IfOk result (λ x. (p : Point) → region_has x p ≡ (region_has whole.now p && region_has covers.now p)) }
{
    let Some((first, others)) = covers.split_first() else {
        return Ok(Region::empty(alloc));
    };
    if others.is_empty() {
        let cover = Region::of_rect(alloc, *first)?;
        return whole.and(alloc, &cover);
    }
    let (front, back) = covers.split_at(covers.len() / 2);
    let one = covered(alloc, whole, front)?;
    let other = covered(alloc, whole, back)?;
    one.or(alloc, &other)
}

/// The pixels of the screen and the window's own rectangle that neither a rectangle above it nor a
/// child has (Microsoft, GetDC function: the client area that is visible). All rectangles are in
/// screen coordinates, in pixels.
pub fn owned(
    alloc: Global,
    screen: Rect,
    own: Rect,
    above: &[Rect],
    children: &[Rect],
) -> Result<Region, AllocError>
    ensures { IfOk result (λ x. (p : Point) → region_has x p ≡ is_owned screen own above.now children.now p) }
{
    let screen_pixels = Region::of_rect(alloc, screen)?;
    let own_pixels = Region::of_rect(alloc, own)?;
    let on_screen = screen_pixels.and(alloc, &own_pixels)?;
    let hidden = covered(alloc, &on_screen, above)?;
    let lent = covered(alloc, &on_screen, children)?;
    let uncovered = on_screen.diff(alloc, &hidden)?;
    uncovered.diff(alloc, &lent)
}
