//! The visible children of a window, and what they leave of a region.

ghost use Rattle.std.specs.Prelude.{◌≡◌, ◌<◌, ◌==◌, ◌&&◌, not, int_lt, true, false, length, IfOk, IfSome, IfNone, OnOk};
ghost use Rattle.std.specs.List.{list_any};
ghost use Rattle.win_num.specs.declared.shapes.Point.{Point};
ghost use Rattle.band_region.specs.Regions.{rect_has, region_has};
ghost use Rattle.window_state.specs.Pixels.{covers_in};
ghost use Rattle.screen_owners.specs.Owners.{is_on_screen, is_within};
ghost use Rattle.screen_owners.specs.Shares.{any_covers, overlaps, part_has, seen_from, AreCovers, IsLastAt, IsNear, IsPut, IsTaken};

use crate::screen::{Corner, Part, Screen, part_of};
use band_region::Region;
use std::alloc::{AllocError, Global};
use win_num::{Hwnd, Rect, names};
use win_order::Order;
use win_tree::Tree;

/// The style of a window that is shown where its ancestors are.
pub const VISIBLE: u32 = names::WS_VISIBLE as u32;

/// A visible child, and the pixels of the screen that it has.
#[derive(Clone, Copy, Debug, Drop)]
pub struct Cover {
    pub window: Hwnd,
    pub part: Rect,
}

/// The pixels of the screen that a visible child of a window with this corner has. None comes where it
/// isn't visible.
pub fn part_shown(screen: Screen, tree: &Tree, w: Hwnd, corner: Corner) -> Option<Rect>
    requires { IsNear 4294967296 corner }
    ensures { (p : Point) → is_on_screen screen.width screen.height p ≡ true → part_has result p ≡ covers_in tree.now.live (seen_from corner p) w }
{
    match tree.row(w) {
        Some(row) if row.style & VISIBLE == VISIBLE => Some(part_of(screen, corner, row.place)),
        _ => None,
    }
}

/// The rectangle, where it meets the part.
fn met(part: &Part, place: Rect) -> Option<Rect>
    ensures { (p : Point) → region_has part.now.region p ≡ true → part_has result p ≡ rect_has place p }
{
    if meets(&part.region, place) {
        Some(place)
    } else {
        None
    }
}

/// The pixels of the screen that a visible child of a window with this corner has, where they meet the part.
pub fn part_met(part: &Part, tree: &Tree, w: Hwnd, corner: Corner) -> Option<Rect>
    requires { IsNear 4294967296 corner }
    ensures { (p : Point) → is_within part.now p ≡ true → part_has result p ≡ covers_in tree.now.live (seen_from corner p) w }
{
    match part_shown(part.screen, tree, w, corner) {
        Some(place) => met(part, place),
        None => None,
    }
}

/// Puts a child of a window with this corner above the covers, where it is visible and may have a pixel of
/// the part.
#[tactic(auto, using(crate::proofs::Cuts::put_some, crate::proofs::Cuts::put_none))]
fn put(
    covers: &mut Vec<Cover>,
    part: &Part,
    tree: &Tree,
    w: Hwnd,
    corner: Corner,
) -> Result<(), AllocError>
    requires { IsNear 4294967296 corner }
    ensures { OnOk result ((p : Point) → is_within part.now p ≡ true → IsPut tree.now.live w (seen_from corner p) p covers.old.items covers.new.items) }
{
    if let Some(place) = part_met(part, tree, w, corner) {
        covers.push(Cover {
            window: w,
            part: place,
        })?;
    }
    Ok(())
}

/// The visible children of a window with this corner that may have a pixel of the part, from the bottom to
/// the top.
#[tactic(auto, using(crate::proofs::Cuts::put_more))]
pub fn covers_of(
    alloc: Global,
    part: &Part,
    tree: &Tree,
    order: &Order,
    w: Hwnd,
    corner: Corner,
) -> Result<Vec<Cover>, AllocError>
    requires { IsNear 4294967296 corner }
    ensures { IfOk result (λ v. (p : Point) → is_within part.now p ≡ true → AreCovers tree.now.live order.now corner w.0 p v.items) }
{
    let mut covers = Vec::new(alloc);
    let siblings = order.siblings(w);
    for child in siblings {
        put(&mut covers, part, tree, *child, corner)?;
    }
    Ok(covers)
}

/// The place of the highest of the covers that is this window's.
pub fn place_in(covers: &[Cover], w: Hwnd) -> Option<usize>
    ensures some { IfSome result (IsLastAt covers.now w.0) }
    ensures none { IfNone result (list_any (λ c. c.window.0 == w.0) covers.now ≡ false) }
{
    let count = covers.len();
    for k in 0..count {
        let i = count - 1 - k;
        if covers[i].window == w {
            return Some(i);
        }
    }
    None
}

/// Whether each of two rectangles begins before the other one ends, from left to right.
fn share_columns(a: Rect, b: Rect) -> bool
    ensures { result ≡ (int_lt a.l b.r && int_lt b.l a.r) }
{
    a.l() < b.r() && b.l() < a.r()
}

/// Whether each of two rectangles begins before the other one ends, from top to bottom.
fn share_rows(a: Rect, b: Rect) -> bool
    ensures { result ≡ (int_lt a.t b.b && int_lt b.t a.b) }
{
    a.t() < b.b() && b.t() < a.b()
}

/// Whether two rectangles may share a pixel.
fn overlap(a: Rect, b: Rect) -> bool
    ensures { result ≡ overlaps a b }
{
    share_columns(a, b) && share_rows(a, b)
}

/// Whether a region and a rectangle may share a pixel.
#[tactic(auto, using(crate::proofs::Cuts::meet_more))]
pub fn meets(region: &Region, r: Rect) -> bool
    ensures { result ≡ false → (p : Point) → (region_has region.now p && rect_has r p) ≡ false }
{
    let rects = region.rects();
    for x in rects {
        if overlap(*x, r) {
            return true;
        }
    }
    false
}

/// What a rectangle leaves of a region.
fn cut(alloc: Global, region: &Region, part: Rect) -> Result<Region, AllocError>
    ensures { IfOk result (λ x. (p : Point) → region_has x p ≡ (region_has region.now p && not (rect_has part p))) }
{
    let hidden = Region::of_rect(alloc, part)?;
    let left = region.diff(alloc, &hidden)?;
    Ok(left)
}

/// What the covers leave of a region, taken out one after the other where they meet what is left, as long
/// as a pixel is left.
fn without(alloc: Global, region: Region, covers: &[Cover]) -> Result<Region, AllocError>
    ensures { IfOk result (λ x. (p : Point) → region_has x p ≡ (region_has region p && not (any_covers covers.now p))) }
{
    let mut left = region;
    for c in covers {
        if left.rects().is_empty() {
            return Ok(left);
        }
        if meets(&left, c.part) {
            left = cut(alloc, &left, c.part)?;
        }
    }
    Ok(left)
}

/// What the cover at a place takes of a region: its part without those of the covers above it.
pub fn taken(
    alloc: Global,
    whole: &Region,
    covers: &[Cover],
    i: usize,
) -> Result<Region, AllocError>
    requires { i < length covers.now }
    ensures { IfOk result (IsTaken whole.now covers.now i) }
{
    let part = Region::of_rect(alloc, covers[i].part)?;
    let part = whole.and(alloc, &part)?;
    let above = covers.split_at(i + 1).1;
    let left = without(alloc, part, above)?;
    Ok(left)
}

/// Those of the covers that meet a region.
#[tactic(auto, using(crate::proofs::Cuts::met_more, crate::proofs::Cuts::met_same))]
fn meeting(alloc: Global, region: &Region, covers: &[Cover]) -> Result<Vec<Cover>, AllocError>
    ensures { IfOk result (λ v. (p : Point) → (region_has region.now p && any_covers v.items p) ≡ (region_has region.now p && any_covers covers.now p)) }
{
    let mut met = Vec::new(alloc);
    for c in covers {
        if meets(region, c.part) {
            met.push(*c)?;
        }
    }
    Ok(met)
}

/// The pixels that a cover has: those of each half of the covers, united.
fn united(alloc: Global, covers: &[Cover]) -> Result<Region, AllocError>
    ensures { IfOk result (λ x. (p : Point) → region_has x p ≡ any_covers covers.now p) }
{
    let Some((first, others)) = covers.split_first() else {
        return Ok(Region::empty(alloc));
    };
    if others.is_empty() {
        return Region::of_rect(alloc, first.part);
    }
    let (front, back) = covers.split_at(covers.len() / 2);
    let one = united(alloc, front)?;
    let other = united(alloc, back)?;
    one.or(alloc, &other)
}

/// What the covers leave of a region, all that meet it taken out at once.
#[tactic(auto, using(crate::proofs::Cuts::left_met))]
pub fn left_by(alloc: Global, whole: &Region, covers: &[Cover]) -> Result<Region, AllocError>
    ensures { IfOk result (λ x. (p : Point) → region_has x p ≡ (region_has whole.now p && not (any_covers covers.now p))) }
{
    let met = meeting(alloc, whole, covers)?;
    let lent = united(alloc, &met)?;
    whole.diff(alloc, &lent)
}
