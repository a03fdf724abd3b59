//! The screen, and the part of a window that is on it.

ghost use Rattle.std.specs.Prelude.{◌≡◌, ◌+ℤ◌, ◌≤ℤ◌, negsuc, pos, true, IfOk};
ghost use Rattle.win_num.specs.declared.shapes.Point.{Point};
ghost use Rattle.win_num.specs.PixelSets.{box, has_pixel, least, most};
ghost use Rattle.win_num.specs.Rects.{box_in};
ghost use Rattle.band_region.specs.Regions.{rect_has, region_has};
ghost use Rattle.screen_owners.specs.Owners.{is_on_screen, is_within};
ghost use Rattle.screen_owners.specs.Shares.{seen_from, IsNear};

use band_region::Region;
use std::alloc::{AllocError, Global};
use win_num::{Rect, rect};

/// A screen of so many pixels.
#[derive(Clone, Copy, Debug)]
pub struct Screen {
    pub width: u16,
    pub height: u16,
}

/// A screen, and a region whose pixels of the screen are a part of it.
#[derive(Drop)]
pub struct Part {
    pub screen: Screen,
    pub region: Region,
}

/// A window's left top corner on the screen, in pixels. It may be far off the screen.
#[derive(Clone, Copy, Debug)]
pub struct Corner {
    pub x: i64,
    pub y: i64,
}

/// The edge, brought onto the screen.
fn clamped(edge: i64, limit: u16) -> i32
    ensures { result ≡ most (pos 0) (least edge (pos limit)) }
{
    if edge < 0 {
        0
    } else if edge < i64::from(limit) {
        edge as i32
    } else {
        i32::from(limit)
    }
}

/// A coordinate, moved by an edge.
pub fn moved_by(base: i64, edge: i32) -> i64
    requires low { pos 0 ≤ℤ (base +ℤ pos 36028797018963968) }
    requires high { base ≤ℤ pos 36028797018963968 }
    ensures { result ≡ base +ℤ edge }
{
    base + i64::from(edge)
}

/// The edge of a window, counted from its parent's, brought onto the screen.
fn edge_on_screen(base: i64, edge: i32, limit: u16) -> i32
    requires low { pos 0 ≤ℤ (base +ℤ pos 36028797018963968) }
    requires high { base ≤ℤ pos 36028797018963968 }
    ensures { result ≡ most (pos 0) (least (base +ℤ edge) (pos limit)) }
{
    clamped(moved_by(base, edge), limit)
}

/// The rectangle with these edges, in pixels.
pub fn known_rect(l: i32, t: i32, r: i32, b: i32) -> Rect
    requires across { l ≤ℤ r }
    requires down { t ≤ℤ b }
    requires left_near { negsuc 8388607 ≤ℤ l }
    requires top_near { negsuc 8388607 ≤ℤ t }
    requires right_near { r ≤ℤ pos 8388608 }
    requires bottom_near { b ≤ℤ pos 8388608 }
    ensures { box_in result ≡ box l t r b }
{
    rect(l, t, r, b).unwrap()
}

/// The pixels of the screen that a window has whose parent has this corner.
pub fn part_of(screen: Screen, corner: Corner, place: Rect) -> Rect
    requires { IsNear 4294967296 corner }
    ensures { (p : Point) → is_on_screen screen.width screen.height p ≡ true → rect_has result p ≡ has_pixel (box_in place) (seen_from corner p) }
{
    let l = edge_on_screen(corner.x, place.l(), screen.width);
    let t = edge_on_screen(corner.y, place.t(), screen.height);
    let r = edge_on_screen(corner.x, place.r(), screen.width);
    let b = edge_on_screen(corner.y, place.b(), screen.height);
    known_rect(l, t, r, b)
}

/// All pixels of the screen.
fn pixels_of(alloc: Global, screen: Screen) -> Result<Region, AllocError>
    ensures { IfOk result (λ x. (p : Point) → region_has x p ≡ is_on_screen screen.width screen.height p) }
{
    let whole = known_rect(0, 0, i32::from(screen.width), i32::from(screen.height));
    Region::of_rect(alloc, whole)
}

/// The whole screen.
pub fn whole_screen(alloc: Global, screen: Screen) -> Result<Part, AllocError>
    ensures screen { IfOk result (λ x. x.screen ≡ screen) }
    ensures pixels { IfOk result (λ x. (p : Point) → region_has x.region p ≡ is_on_screen screen.width screen.height p) }
{
    let region = pixels_of(alloc, screen)?;
    Ok(Part { screen, region })
}

/// The pixels of the screen that are in the part.
pub fn pixels_in(alloc: Global, part: &Part) -> Result<Region, AllocError>
    ensures { IfOk result (λ x. (p : Point) → region_has x p ≡ is_within part.now p) }
{
    let whole = pixels_of(alloc, part.screen)?;
    whole.and(alloc, &part.region)
}
