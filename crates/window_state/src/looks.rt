//! How windows look: what the calls that place, show and enable a window make of its style, extended style and place.

ghost use Rattle.std.specs.Prelude.{◌≡◌, ◌&&◌, FitsSigned, not, ◌+ℤ◌, ◌-ℤ◌, pos, true, false, int_lt, option_map, Some};
ghost use Rattle.std.specs.Int.{w32};
ghost use Rattle.win_num.specs.PixelSets.{box, same_int};
ghost use Rattle.win_num.specs.Rects.{box_in};
ghost use Rattle.win_rows.specs.Windows.{is_live, window_of};
ghost use Rattle.user_model.specs.Looks.{corner_and_size, enabled, enabled_look, moved_by, pinned_by, placed, shown, shown_look, styled_by};
ghost use Rattle.user_model.specs.Refusals.{is_no_rect, is_outside};
ghost use Rattle.user_model.specs.Windows.{has_flag};
ghost use Rattle.window_state.specs.Enabled.{IsEnabledAt, enabled_from};
ghost use Rattle.window_state.specs.Trees.{look_in};
ghost use Rattle.window_state.specs.Effects.{IsLookedAt, IsRelooked};
ghost use Rattle.window_state.specs.Needs.{FitsLooking, Fitting};
ghost use Rattle.window_state.specs.Placings.{box_of, changes_in, disabled_in, look_told, shown_in, style_in};
ghost use Rattle.user_model.specs.ReplyWindows.{bit_if, changes_told, differ, has_moved, is_resized};
ghost use Rattle.win_num.specs.declared.names.TheConstants.{WS_DISABLED, WS_VISIBLE};

use crate::finding::window_or_none;
use crate::tables::place_of;
use user_model::Call;
use win_num::{Hwnd, Rect, names};
use win_tree::{Tree, WindowRow};

/// The styles but WS_VISIBLE.
const HIDDEN_STYLES: u32 = (names::WS_CHILD + names::WS_POPUP + names::WS_DISABLED) as u32;

/// The styles but WS_DISABLED.
const ENABLED_STYLES: u32 = (names::WS_CHILD + names::WS_POPUP + names::WS_VISIBLE) as u32;

/// The style of a window that is shown where its ancestors are.
const VISIBLE: u32 = names::WS_VISIBLE as u32;

/// The style of a window that takes no part in input.
const DISABLED: u32 = names::WS_DISABLED as u32;

/// Four edges in pixels, from the left top corner of a window's parent or of the screen.
#[derive(Clone, Copy, Debug)]
pub struct Edges {
    pub l: i64,
    pub t: i64,
    pub r: i64,
    pub b: i64,
}

/// What a call says that puts a window at a place (Microsoft, SetWindowPos function).
#[derive(Clone, Copy, Debug)]
pub struct Placing {
    /// Where it comes among its siblings: minus one and minus two set and clear the topmost flag.
    pub after: i64,
    /// Where it comes, as far as the flags say so.
    pub edges: Edges,
    /// What stays, and whether it is shown or hidden.
    pub flags: u64,
}

/// A window's style, extended style and place.
#[derive(Clone, Copy, Debug)]
struct Look {
    style: u32,
    ex: u32,
    /// In pixels, from the left top corner of the parent or of the screen.
    place: Rect,
}

/// A style with WS_VISIBLE, or without.
fn shown(style: u32, on: bool) -> u32
    ensures { result ≡ shown on style }
{
    if on {
        style | VISIBLE
    } else {
        style & HIDDEN_STYLES
    }
}

/// A style without WS_DISABLED, or with.
fn enabled(style: u32, on: bool) -> u32
    ensures { result ≡ enabled on style }
{
    if on {
        style & ENABLED_STYLES
    } else {
        style | DISABLED
    }
}

/// Whether the flags have the bits.
pub(crate) fn has_flag(flags: u64, bits: u64) -> bool
    ensures { result ≡ has_flag flags bits }
{
    flags & bits == bits
}

/// The style, where flags may show or hide the window.
fn styled_by(flags: u64, style: u32) -> u32
    ensures { result ≡ styled_by flags style }
{
    if has_flag(flags, names::SWP_SHOWWINDOW) {
        shown(style, true)
    } else if has_flag(flags, names::SWP_HIDEWINDOW) {
        shown(style, false)
    } else {
        style
    }
}

/// The extended style, where the topmost flag may be set or cleared.
fn pinned_by(placing: Placing, ex: u32) -> u32
    ensures { result ≡ pinned_by placing.flags placing.after ex }
{
    if has_flag(placing.flags, names::SWP_NOZORDER) {
        return ex;
    }
    match placing.after {
        -1 => names::WS_EX_TOPMOST as u32,
        -2 => 0,
        _ => ex,
    }
}

/// The edges of a rectangle.
pub fn edges_of(place: Rect) -> Edges
    ensures { box_of result ≡ box_in place }
{
    Edges {
        l: i64::from(place.l()),
        t: i64::from(place.t()),
        r: i64::from(place.r()),
        b: i64::from(place.b()),
    }
}

/// Where an edge comes that is as far from `start` as `to` is from `from`.
fn edge_after(start: i64, from: i64, to: i64) -> i64
    requires start { is_outside start ≡ false }
    requires from { is_outside from ≡ false }
    requires order { int_lt to from ≡ false }
    requires near { int_lt (pos 4096) (to -ℤ from) ≡ false }
    ensures { result ≡ start +ℤ (to -ℤ from) }
{
    start + (to - from)
}

/// The corner of one rectangle with the size of another.
fn corner_and_size(corner: Edges, size: Edges) -> Rect
    requires corner { is_no_rect corner.l corner.t corner.r corner.b ≡ false }
    requires size { is_no_rect size.l size.t size.r size.b ≡ false }
    ensures { box_in result ≡ corner_and_size (box_of corner) (box_of size) }
{
    let r = edge_after(corner.l, size.l, size.r);
    let b = edge_after(corner.t, size.t, size.b);
    place_of(corner.l, corner.t, r, b)
}

/// The new place, where flags may keep the corner or the size of the old one.
fn moved_by(flags: u64, new: Edges, old: Rect) -> Rect
    requires new { is_no_rect new.l new.t new.r new.b ≡ false }
    requires old { is_no_rect old.l old.t old.r old.b ≡ false }
    ensures { box_in result ≡ moved_by flags (box_of new) (box_in old) }
{
    let old = edges_of(old);
    let corner = if has_flag(flags, names::SWP_NOMOVE) {
        old
    } else {
        new
    };
    let size = if has_flag(flags, names::SWP_NOSIZE) {
        old
    } else {
        new
    };
    corner_and_size(corner, size)
}

/// How a window looks once it is put at a place.
fn placed(row: WindowRow, placing: Placing) -> Look
    requires new { is_no_rect placing.edges.l placing.edges.t placing.edges.r placing.edges.b ≡ false }
    requires old { is_no_rect row.place.l row.place.t row.place.r row.place.b ≡ false }
    ensures { look_told result ≡ placed placing.flags placing.after (box_of placing.edges) (look_in row) }
{
    Look {
        style: styled_by(placing.flags, row.style),
        ex: pinned_by(placing, row.ex),
        place: moved_by(placing.flags, placing.edges, row.place),
    }
}

/// Whether two edges or lengths are the same.
fn is_same(a: i32, b: i32) -> bool
    ensures { result ≡ same_int a b }
{
    a == b
}

/// Whether two pairs of edges are as far from each other.
fn is_as_long(from: i32, to: i32, new_from: i32, new_to: i32) -> bool
    requires old { FitsSigned w32 (to -ℤ from) }
    requires new { FitsSigned w32 (new_to -ℤ new_from) }
    ensures { result ≡ same_int (to -ℤ from) (new_to -ℤ new_from) }
{
    is_same(to - from, new_to - new_from)
}

/// Whether the width is the same.
fn has_same_width(old: Rect, new: Rect) -> bool
    ensures { result ≡ same_int (old.r -ℤ old.l) (new.r -ℤ new.l) }
{
    is_as_long(old.l(), old.r(), new.l(), new.r())
}

/// Whether the height is the same.
fn has_same_height(old: Rect, new: Rect) -> bool
    ensures { result ≡ same_int (old.b -ℤ old.t) (new.b -ℤ new.t) }
{
    is_as_long(old.t(), old.b(), new.t(), new.b())
}

/// Whether the corner is another.
fn has_moved(old: Rect, new: Rect) -> bool
    ensures { result ≡ has_moved (box_in old) (box_in new) }
{
    !(is_same(old.l(), new.l()) && is_same(old.t(), new.t()))
}

/// Whether the width or the height is another.
fn is_resized(old: Rect, new: Rect) -> bool
    ensures { result ≡ is_resized (box_in old) (box_in new) }
{
    !(has_same_width(old, new) && has_same_height(old, new))
}

/// Whether a style has WS_VISIBLE.
fn is_visible(style: u32) -> bool
    ensures { result ≡ has_flag style WS_VISIBLE }
{
    style & VISIBLE == VISIBLE
}

/// A bit that is set where the test holds.
fn bit_if(holds: bool, bit: u64) -> u64
    ensures { result ≡ bit_if holds bit }
{
    if holds { bit } else { 0 }
}

/// What is another of how a window looks: 1 its corner, 2 its size, 4 whether it is shown.
fn changes_told(old: WindowRow, new: Look) -> u64
    ensures { result ≡ changes_told (look_in old) (look_told new) }
{
    let moved = bit_if(has_moved(old.place, new.place), 1);
    let resized = bit_if(is_resized(old.place, new.place), 2);
    let shown = bit_if(is_visible(old.style) != is_visible(new.style), 4);
    moved + (resized + shown)
}

/// What a placing of a live window would change: 1 its corner, 2 its size, 4 whether it is shown.
pub fn placing_changes(tree: &Tree, w: u64, placing: Placing) -> u64
    requires live { is_live tree.now.live w ≡ true }
    requires new { is_no_rect placing.edges.l placing.edges.t placing.edges.r placing.edges.b ≡ false }
    requires old { Fitting tree.now.live w }
    ensures { result ≡ changes_in tree.now.live w placing.flags placing.after (box_of placing.edges) }
{
    let row = row_of(tree, window_or_none(tree, w));
    changes_told(row, placed(row, placing))
}

/// The style bits of a live window; 0 where there is none of the number.
pub fn style_of(tree: &Tree, w: Hwnd) -> u32
    ensures { result ≡ style_in tree.now.live w.0 }
{
    match tree.row(w) {
        Some(row) => row.style,
        None => 0,
    }
}

/// Whether a live window has WS_VISIBLE; false where there is none of the number.
pub fn is_shown(tree: &Tree, w: Hwnd) -> bool
    ensures { result ≡ shown_in tree.now.live w.0 }
{
    match tree.row(w) {
        Some(row) => is_visible(row.style),
        None => false,
    }
}

/// Whether a live window has WS_DISABLED; false where there is none of the number.
pub fn is_disabled(tree: &Tree, w: Hwnd) -> bool
    ensures { result ≡ disabled_in tree.now.live w.0 }
{
    match tree.row(w) {
        Some(row) => row.style & DISABLED == DISABLED,
        None => false,
    }
}

/// The first of a window, its parent, and so on, that isn't disabled, after so many steps up; or 0.
fn enabled_within(tree: &Tree, w: Hwnd, steps: u32) -> Hwnd
    ensures { result.0 ≡ enabled_from steps tree.now.live w.0 }
{
    if steps == 0 {
        return Hwnd(0);
    }
    match tree.row(w) {
        Some(row) => {
            if is_disabled(tree, w) {
                enabled_within(tree, row.parent, steps - 1)
            } else {
                w
            }
        }
        None => Hwnd(0),
    }
}

/// A live window where it isn't disabled, else its nearest ancestor that isn't, or 0 (Microsoft, EnableWindow function).
pub fn enabled_at(tree: &Tree, w: Hwnd) -> Hwnd
    ensures { IsEnabledAt tree.now w.0 result.0 }
{
    enabled_within(tree, w, w.0)
}

/// Makes the window of a call look as the call says.
pub fn relook(tree: &mut Tree, call: Call)
    requires { FitsLooking tree.old call }
    ensures { IsLookedAt call tree.old tree.new }
{
    match call {
        Call::Place(w, after, l, t, r, b, flags) => {
            let edges = Edges { l, t, r, b };
            place(
                tree,
                w,
                Placing {
                    after,
                    edges,
                    flags,
                },
            );
        }
        Call::Show(w, on) => show(tree, w, on == 1),
        Call::Enable(w, on) => enable(tree, w, on == 1),
        _ => {}
    }
}

/// The row of a live window.
fn row_of(tree: &Tree, w: Hwnd) -> WindowRow
    requires { is_live tree.now.live w.0 ≡ true }
    ensures { Some result ≡ option_map (λ x. x.row) (window_of tree.now.live w.0) }
{
    *tree.row(w).unwrap()
}

/// Puts a window at a place.
fn place(tree: &mut Tree, w: u64, placing: Placing)
    requires live { is_live tree.old.live w ≡ true }
    requires new { is_no_rect placing.edges.l placing.edges.t placing.edges.r placing.edges.b ≡ false }
    requires old { Fitting tree.old.live w }
    ensures { IsRelooked w (placed placing.flags placing.after (box_of placing.edges)) tree.old tree.new }
{
    let window = window_or_none(tree, w);
    let look = placed(row_of(tree, window), placing);
    tree.set_row(window, look.style, look.ex, look.place);
}

/// Shows a window, or hides it.
fn show(tree: &mut Tree, w: u64, on: bool)
    requires { is_live tree.old.live w ≡ true }
    ensures { IsRelooked w (shown_look on) tree.old tree.new }
{
    let window = window_or_none(tree, w);
    let row = row_of(tree, window);
    tree.set_row(window, shown(row.style, on), row.ex, row.place);
}

/// Enables a window, or disables it.
fn enable(tree: &mut Tree, w: u64, on: bool)
    requires { is_live tree.old.live w ≡ true }
    ensures { IsRelooked w (enabled_look on) tree.old tree.new }
{
    let window = window_or_none(tree, w);
    let row = row_of(tree, window);
    tree.set_row(window, enabled(row.style, on), row.ex, row.place);
}
