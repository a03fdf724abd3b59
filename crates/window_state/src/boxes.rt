//! Where windows are on the screen, and which of them an entry moves.

ghost use Rattle.std.specs.Prelude.{◌≡◌, ◌<◌, ◌*◌, ◌-ℤ◌, ◌≤ℤ◌, ℕ, ℤ, pos, negsuc, length, None, IfOk, MatchOption};
ghost use Rattle.std.specs.List.Sorted.{IsNonDecreasingBy};
ghost use Rattle.win_num.specs.PixelSets.{same_box};
ghost use Rattle.win_num.specs.Rects.{box_in};
ghost use Rattle.user_model.specs.Pixels.{point, shifted};
ghost use Rattle.window_state.specs.Placings.{box_of};
ghost use Rattle.win_rows.specs.Index.{IsPlace};
ghost use Rattle.win_rows.specs.Windows.{IsOrdered, window_of};
ghost use Rattle.window_state.specs.Boxes.{origin_from, origin_in, box_on, moved_in, moved_of, IsOriginAt, AreMoved, AreBoxes, HasBoxes, IsBefore};

use crate::looks::Edges;
use std::alloc::{AllocError, Global};
use win_num::{Hwnd, Point, Rect};
use win_tree::Tree;

/// A point of the screen, or off it, in pixels.
#[derive(Clone, Copy, Debug)]
struct Corner {
    x: i64,
    y: i64,
}

/// The left top corner of a window on the screen, after so many steps up.
fn corner_within(tree: &Tree, w: Hwnd, steps: u32) -> Corner
    ensures corner { point result.x result.y ≡ origin_from steps tree.now.live w.0 }
    ensures left { (pos 0 -ℤ pos (8388608 * steps)) ≤ℤ result.x }
    ensures right { result.x ≤ℤ pos (8388608 * steps) }
    ensures above { (pos 0 -ℤ pos (8388608 * steps)) ≤ℤ result.y }
    ensures below { result.y ≤ℤ pos (8388608 * steps) }
{
    if steps == 0 {
        return Corner { x: 0, y: 0 };
    }
    match tree.row(w) {
        Some(row) => {
            let parent = corner_within(tree, row.parent, steps - 1);
            Corner {
                x: i64::from(row.place.l()) + parent.x,
                y: i64::from(row.place.t()) + parent.y,
            }
        }
        None => Corner { x: 0, y: 0 },
    }
}

/// The number, where it has 32 bits, else 0.
fn narrow(x: i64) -> i32
    ensures { negsuc 2147483647 ≤ℤ x → x ≤ℤ pos 2147483647 → result ≡ x }
{
    if -2147483648 <= x && x <= 2147483647 {
        x as i32
    } else {
        0
    }
}

/// A live window's left top corner on the screen, in pixels: its own in its parent, moved by that of its
/// parent (Microsoft, ClientToScreen function).
pub fn origin_of(tree: &Tree, w: Hwnd) -> Point
    ensures { IsOriginAt tree.now w.0 result }
{
    let corner = corner_within(tree, w, w.0);
    Point {
        x: narrow(corner.x),
        y: narrow(corner.y),
    }
}

/// The edges of a rectangle that is moved by a corner.
fn shifted(corner: Corner, place: Rect) -> Edges
    requires left { negsuc 36028797018963967 ≤ℤ corner.x }
    requires right { corner.x ≤ℤ pos 36028797018963968 }
    requires above { negsuc 36028797018963967 ≤ℤ corner.y }
    requires below { corner.y ≤ℤ pos 36028797018963968 }
    ensures { box_of result ≡ shifted (point corner.x corner.y) (box_in place) }
{
    Edges {
        l: i64::from(place.l()) + corner.x,
        t: i64::from(place.t()) + corner.y,
        r: i64::from(place.r()) + corner.x,
        b: i64::from(place.b()) + corner.y,
    }
}

/// The place of a window in the table. None comes exactly where it isn't live.
fn place_of(tree: &Tree, w: Hwnd) -> Option<usize>
    ensures { MatchOption result (window_of tree.now.live w.0 ≡ None) (IsPlace tree.now.live w.0) }
{
    let numbers = tree.windows();
    let i = numbers.partition_point(|v| *v < w);
    if i < numbers.len() && numbers[i] == w {
        Some(i)
    } else {
        None
    }
}

/// A window's rectangle on the screen, found among those of the first windows, or 0 0 0 0 where no live window has the number.
fn known_box(tree: &Tree, boxes: &[Edges], w: Hwnd) -> Edges
    requires boxes { AreBoxes tree.now.live tree.now.live boxes.now }
    requires before { IsBefore tree.now.live (length boxes.now) w.0 }
    ensures { box_of result ≡ box_on tree.now.live w.0 }
{
    match place_of(tree, w) {
        Some(i) => boxes[i],
        None => Edges {
            l: 0,
            t: 0,
            r: 0,
            b: 0,
        },
    }
}

/// The left top corner of the same rectangle.
fn known_corner(tree: &Tree, boxes: &[Edges], w: Hwnd) -> Corner
    requires ordered { (last : ℕ) × IsOrdered 15 last tree.now.live }
    requires boxes { AreBoxes tree.now.live tree.now.live boxes.now }
    requires before { IsBefore tree.now.live (length boxes.now) w.0 }
    ensures corner { point result.x result.y ≡ origin_in tree.now.live w.0 }
    ensures left { negsuc 36028797018963967 ≤ℤ result.x }
    ensures right { result.x ≤ℤ pos 36028797018963968 }
    ensures above { negsuc 36028797018963967 ≤ℤ result.y }
    ensures below { result.y ≤ℤ pos 36028797018963968 }
{
    if w.0 == 0 {
        return Corner { x: 0, y: 0 };
    }
    let place = known_box(tree, boxes, w);
    Corner {
        x: place.l,
        y: place.t,
    }
}

/// The rectangle on the screen of the window after those whose rectangles were found: its parent is one of these.
fn next_box(tree: &Tree, boxes: &[Edges], w: Hwnd) -> Edges
    requires ordered { (last : ℕ) × IsOrdered 15 last tree.now.live }
    requires boxes { AreBoxes tree.now.live tree.now.live boxes.now }
    requires before { (v : ℕ) → v < w.0 → IsBefore tree.now.live (length boxes.now) v }
    ensures { box_of result ≡ box_on tree.now.live w.0 }
{
    match tree.row(w) {
        Some(row) => shifted(known_corner(tree, boxes, row.parent), row.place),
        None => Edges {
            l: 0,
            t: 0,
            r: 0,
            b: 0,
        },
    }
}

/// The rectangles on the screen of all windows, by rising number.
fn boxes_of(alloc: Global, tree: &Tree) -> Result<Vec<Edges>, AllocError>
    ensures { IfOk result (λ v. HasBoxes tree.now.live v.items) }
{
    let windows = tree.windows();
    let mut boxes = Vec::new(alloc);
    for k in 0..windows.len() {
        let place = next_box(tree, &boxes, windows[k]);
        boxes.push(place)?;
    }
    Ok(boxes)
}

/// Whether two rectangles have the same edges.
fn has_same_edges(a: Edges, b: Edges) -> bool
    ensures { result ≡ same_box (box_of a) (box_of b) }
{
    a.l == b.l && a.t == b.t && a.r == b.r && a.b == b.b
}

/// Whether a window's rectangle on the screen is another in the second table, where these are those of each.
fn has_moved(old: &Tree, before: &[Edges], new: &Tree, after: &[Edges], w: Hwnd) -> bool
    requires before { HasBoxes old.now.live before.now }
    requires after { HasBoxes new.now.live after.now }
    ensures { result ≡ moved_in old.now.live new.now.live w.0 }
{
    !has_same_edges(known_box(new, after, w), known_box(old, before, w))
}

/// The windows of the second table whose rectangle on the screen is another there, by rising number. Want of
/// memory is the only error.
pub fn moved_windows(alloc: Global, old: &Tree, new: &Tree) -> Result<Vec<Hwnd>, AllocError>
    ensures windows { IfOk result (λ v. v.items ≡ moved_of old.now.live new.now.live) }
    ensures sorted { IfOk result (λ v. IsNonDecreasingBy (λ h. h.0) v.items) }
    ensures moved { IfOk result (λ v. AreMoved old.now new.now v.items) }
{
    let before = boxes_of(alloc, old)?;
    let after = boxes_of(alloc, new)?;
    let windows = new.windows();
    let mut moved = Vec::new(alloc);
    for k in 0..windows.len() {
        if has_moved(old, &before, new, &after, windows[k]) {
            moved.push(windows[k])?;
        }
    }
    Ok(moved)
}
