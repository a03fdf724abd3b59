//! The pixels of a rectangle that is given from a window's left top corner.

ghost use Rattle.std.specs.Prelude.{◌≡◌, ◌+ℤ◌, ◌≤ℤ◌, FitsSigned, negsuc, pos, false, IfOk};
ghost use Rattle.std.specs.Int.{w32};
ghost use Rattle.win_num.specs.PixelSets.{box};
ghost use Rattle.win_num.specs.Rects.{box_in};
ghost use Rattle.user_model.specs.Pixels.{shifted};
ghost use Rattle.user_model.specs.Refusals.{is_no_rect};
ghost use Rattle.screen_state.specs.Parts.{IsClientPart, IsLiveAt, IsNear};

use band_region::Region;
use std::alloc::{AllocError, Global};
use win_num::{Hwnd, Point, Rect, rect};
use win_tree::Tree;
use window_state::{Edges, origin_of};

/// The pixels of a rectangle that is given from the left top corner of a live window.
pub fn client_part(alloc: Global, tree: &Tree, w: Hwnd, place: Edges) -> Result<Region, AllocError>
    requires live { IsLiveAt tree.now w.0 }
    requires place { is_no_rect place.l place.t place.r place.b ≡ false }
    ensures { IfOk result (IsClientPart tree.now w.0 place.l place.t place.r place.b) }
{
    let corner = origin_of(tree, w);
    Region::of_rect(alloc, placed(place, corner))
}

/// The rectangle, moved by a corner.
fn placed(place: Edges, corner: Point) -> Rect
    requires place { is_no_rect place.l place.t place.r place.b ≡ false }
    requires corner { IsNear corner }
    ensures { box_in result ≡ shifted corner (box place.l place.t place.r place.b) }
{
    let l = moved(place.l, corner.x);
    let t = moved(place.t, corner.y);
    let r = moved(place.r, corner.x);
    let b = moved(place.b, corner.y);
    rect(l, t, r, b).unwrap()
}

/// An edge that is counted from a corner, moved by that corner.
fn moved(edge: i64, corner: i32) -> i32
    requires low { negsuc 8191 ≤ℤ edge }
    requires high { edge ≤ℤ pos 8192 }
    requires near_low { negsuc 4194303 ≤ℤ corner }
    requires near_high { corner ≤ℤ pos 4194304 }
    ensures same { result ≡ edge +ℤ corner }
    ensures fits { FitsSigned w32 result }
{
    (edge + i64::from(corner)) as i32
}
