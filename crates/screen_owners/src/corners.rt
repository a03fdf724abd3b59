//! Where windows are on the screen.

ghost use Rattle.std.specs.Prelude.{◌≡◌, ◌||◌, ◌+ℤ◌, IfOk};
ghost use Rattle.win_num.specs.declared.shapes.Point.{Point};
ghost use Rattle.band_region.specs.Regions.{region_has};
ghost use Rattle.win_rows.specs.Windows.{IsOrdered};
ghost use Rattle.screen_owners.specs.Shares.{part_has, IsNear};
ghost use Rattle.screen_owners.specs.Shown.{HasWays, HasWaysTo, IsCornerOf};

use crate::covers::part_shown;
use crate::screen::{Corner, Screen, moved_by};
use band_region::Region;
use std::alloc::{AllocError, Global};
use win_num::{Hwnd, Rect};
use win_tree::Tree;

/// A corner, moved by that of a rectangle.
fn moved_corner(corner: Corner, place: Rect) -> Corner
    requires { IsNear 4294967295 corner }
    ensures x { result.x ≡ corner.x +ℤ place.l }
    ensures y { result.y ≡ corner.y +ℤ place.t }
{
    Corner {
        x: moved_by(corner.x, place.l()),
        y: moved_by(corner.y, place.t()),
    }
}

/// A window's left top corner on the screen: its own in its parent, moved by that of its parent, and so on up
/// to the screen.
fn corner_in(tree: &Tree, w: Hwnd) -> Corner
    requires { IsOrdered 15 tree.now.last tree.now.live }
    ensures near { IsNear 4294967295 result }
    ensures corner { IsCornerOf tree.now.live w result }
{
    let mut corner = Corner { x: 0, y: 0 };
    let mut above = w;
    'steps: while let Some(row) = tree.row(above) {
        corner = moved_corner(corner, row.place);
        above = row.parent;
    }
    corner
}

/// The pixels of the screen that a window with WS_VISIBLE has. None comes where it has no such style.
fn box_shown(screen: Screen, tree: &Tree, w: Hwnd) -> Option<Rect>
    requires { IsOrdered 15 tree.now.last tree.now.live }
    ensures { HasWaysTo tree.now.live screen.width screen.height w result }
{
    match tree.row(w) {
        Some(row) => {
            let corner = corner_in(tree, row.parent);
            part_shown(screen, tree, w, corner)
        }
        None => None,
    }
}

/// The pixels of a region and of a rectangle, if there is one.
fn with_rect(alloc: Global, region: &Region, place: Option<Rect>) -> Result<Region, AllocError>
    ensures { IfOk result (λ x. (p : Point) → region_has x p ≡ (region_has region.now p || part_has place p)) }
{
    match place {
        Some(r) => {
            let more = Region::of_rect(alloc, r)?;
            region.or(alloc, &more)
        }
        None => region.copy(alloc),
    }
}

/// The pixels of the screen that some windows have, without those that have no WS_VISIBLE.
pub fn boxes_shown(
    alloc: Global,
    screen: Screen,
    tree: &Tree,
    windows: &[Hwnd],
) -> Result<Region, AllocError>
    requires { IsOrdered 15 tree.now.last tree.now.live }
    ensures { IfOk result (HasWays tree.now.live screen.width screen.height windows.now) }
{
    let mut boxes = Region::empty(alloc);
    for w in windows {
        boxes = with_rect(alloc, &boxes, box_shown(screen, tree, *w))?;
    }
    Ok(boxes)
}
