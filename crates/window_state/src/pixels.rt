//! The window that owns a pixel of the screen: of the visible top-level windows that have it the highest,
//! then the highest such child, until no child has it. Only the siblings on this way are looked at.

ghost use Rattle.std.specs.Prelude.{◌≡◌, ◌&&◌, ◌-ℤ◌, pos, negsuc, int_le, int_lt, true, false, length};
ghost use Rattle.win_rows.specs.Windows.{nobody};
ghost use Rattle.win_num.specs.PixelSets.{has_pixel};
ghost use Rattle.user_model.specs.Pixels.{point};
ghost use Rattle.window_state.specs.Placings.{box_of};
ghost use Rattle.window_state.specs.Pixels.{covers_in, deepest_in, highest_in, inside_of, owner_in};

use crate::looks::{Edges, edges_of};
use win_num::{Hwnd, names};
use win_order::Order;
use win_tree::Tree;

/// The style of a window that is shown where its ancestors are.
const VISIBLE: u32 = names::WS_VISIBLE as u32;

/// A window, or the screen for 0, and a point counted from its left top corner, in pixels.
#[derive(Clone, Copy, Debug)]
struct Spot {
    window: Hwnd,
    x: i64,
    y: i64,
}

/// Whether a coordinate is on or behind one edge and before another.
fn is_within(low: i64, at: i64, high: i64) -> bool
    ensures { result ≡ (int_le low at && int_lt at high) }
{
    low <= at && at < high
}

/// Whether a place has the point at x and y, counted as its edges are.
fn has_point(place: Edges, x: i64, y: i64) -> bool
    ensures { result ≡ has_pixel (box_of place) (point x y) }
{
    is_within(place.l, x, place.r) && is_within(place.t, y, place.b)
}

/// How far a coordinate is behind an edge, where it is before the other edge.
fn behind(low: i64, at: i64, high: i64) -> i64
    requires left { int_lt low (negsuc 8388607) ≡ false }
    requires right { int_lt (pos 8388608) high ≡ false }
    requires within { (int_le low at && int_lt at high) ≡ true }
    ensures { result ≡ at -ℤ low }
{
    at - low
}

/// Whether w has WS_VISIBLE and has the point at x and y, counted from the corner of its parent.
fn covers(tree: &Tree, w: Hwnd, x: i64, y: i64) -> bool
    ensures { result ≡ covers_in tree.now.live (point x y) w }
{
    match tree.row(w) {
        Some(row) => row.style & VISIBLE == VISIBLE && has_point(edges_of(row.place), x, y),
        None => false,
    }
}

/// The highest child that has the point.
fn highest(tree: &Tree, order: &Order, spot: Spot) -> Option<Hwnd>
    ensures { result ≡ highest_in tree.now.live order.now (point spot.x spot.y) spot.window.0 }
{
    order
        .siblings(spot.window)
        .iter()
        .rev()
        .copied()
        .find(|w| covers(tree, *w, spot.x, spot.y))
}

/// The point of a child that has it, counted from the child's corner.
fn inside(tree: &Tree, spot: Spot, w: Hwnd) -> Spot
    requires { covers_in tree.now.live (point spot.x spot.y) w ≡ true }
    ensures window { result.window ≡ w }
    ensures point { point result.x result.y ≡ inside_of tree.now.live (point spot.x spot.y) w }
{
    let Some(row) = tree.row(w) else {
        return spot;
    };
    let place = edges_of(row.place);
    Spot {
        window: w,
        x: behind(place.l, spot.x, place.r),
        y: behind(place.t, spot.y, place.b),
    }
}

/// From the screen down to the highest child that has the point, until none has it. Each step goes to
/// another live window.
fn deepest(tree: &Tree, order: &Order, x: i64, y: i64) -> Hwnd
    ensures { result ≡ deepest_in (length tree.now.live) tree.now.live order.now (point x y) nobody }
{
    let mut spot = Spot {
        window: Hwnd(0),
        x,
        y,
    };
    for _ in 0..tree.windows().len() {
        match highest(tree, order, spot) {
            Some(w) => spot = inside(tree, spot, w),
            None => return spot.window,
        }
    }
    spot.window
}

/// The window that owns the pixel at x and y, counted from the left top corner of a screen of this width
/// and height, or 0: off the screen, and where no visible window has the pixel (Microsoft, WindowFromPoint
/// function).
pub fn owner_at(tree: &Tree, order: &Order, width: u16, height: u16, x: i64, y: i64) -> Hwnd
    ensures { result ≡ owner_in tree.now.live order.now width height (point x y) }
{
    if 0 <= x && x < i64::from(width) && 0 <= y && y < i64::from(height) {
        deepest(tree, order, x, y)
    } else {
        Hwnd(0)
    }
}
