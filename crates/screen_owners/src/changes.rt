//! The part of the screen whose pixels may have other owners where windows have changed.

ghost use Rattle.std.specs.Prelude.{◌≡◌, true, false, IfOk, OnOk};
ghost use Rattle.win_order.specs.Layers.{siblings_of};
ghost use Rattle.win_rows.specs.Windows.{IsOrdered};
ghost use Rattle.screen_owners.specs.Owners.{AreChildren};
ghost use Rattle.screen_owners.specs.Shares.{is_one_of};
ghost use Rattle.screen_owners.specs.Shown.{others, shown_place, HasWays, Keeps, KeepsOutside, ListsSame, ListsSameOf, LookSame, ShowsSamePlaces};

use crate::corners::boxes_shown;
use crate::covers::VISIBLE;
use crate::screen::{Part, Screen, whole_screen};
use band_region::Region;
use std::alloc::{AllocError, Global};
use win_num::{Hwnd, Rect};
use win_order::Order;
use win_tree::Tree;

/// From so many changed windows on all regions are computed anew.
const MANY: usize = 16;

/// The place of a live window that has WS_VISIBLE.
fn place_shown(tree: &Tree, w: Hwnd) -> Option<Rect>
    ensures { result ≡ shown_place tree.now.live w.0 }
{
    match tree.row(w) {
        Some(row) if row.style & VISIBLE == VISIBLE => Some(row.place),
        _ => None,
    }
}

/// Whether both are the same rectangle, or none.
fn alike(a: Option<Rect>, b: Option<Rect>) -> bool
    ensures { result ≡ true → a ≡ b }
{
    match (a, b) {
        (Some(one), Some(other)) => one == other,
        (None, None) => true,
        _ => false,
    }
}

/// Whether a window has WS_VISIBLE in both tables and the same place, or in none.
fn looks_same(old: &Tree, new: &Tree, w: Hwnd) -> bool
    ensures { result ≡ true → shown_place old.now.live w.0 ≡ shown_place new.now.live w.0 }
{
    alike(place_shown(old, w), place_shown(new, w))
}

/// Puts a window to the changed ones, if it doesn't look the same.
fn push_changed(changed: &mut Vec<Hwnd>, old: &Tree, new: &Tree, w: Hwnd) -> Result<(), AllocError>
    ensures kept { OnOk result (Keeps changed.old.items changed.new.items) }
    ensures added { OnOk result (is_one_of changed.new.items w ≡ false → shown_place old.now.live w.0 ≡ shown_place new.now.live w.0) }
{
    if looks_same(old, new, w) {
        return Ok(());
    }
    changed.push(w)?;
    Ok(())
}

/// Puts those of some windows to the changed ones that don't look the same.
fn add_changed(
    changed: &mut Vec<Hwnd>,
    old: &Tree,
    new: &Tree,
    windows: &[Hwnd],
) -> Result<(), AllocError>
    ensures kept { OnOk result (Keeps changed.old.items changed.new.items) }
    ensures added { OnOk result (LookSame old.now.live new.now.live windows.now changed.new.items) }
{
    for w in windows {
        push_changed(changed, old, new, *w)?;
    }
    Ok(())
}

/// The windows that don't look the same, and w.
fn changed_windows(alloc: Global, old: &Tree, new: &Tree, w: Hwnd) -> Result<Vec<Hwnd>, AllocError>
    ensures older { IfOk result (λ _. IsOrdered 15 old.now.last old.now.live) }
    ensures newer { IfOk result (λ _. IsOrdered 15 new.now.last new.now.live) }
    ensures changed { IfOk result (λ v. ShowsSamePlaces v.items old.now.live new.now.live) }
{
    let older = old.windows();
    let newer = new.windows();
    let mut changed = Vec::new(alloc);
    changed.push(w)?;
    add_changed(&mut changed, old, new, older)?;
    add_changed(&mut changed, old, new, newer)?;
    Ok(changed)
}

/// Whether a window is one of these.
fn is_one_of(windows: &[Hwnd], w: Hwnd) -> bool
    ensures { result ≡ is_one_of windows.now w }
{
    windows.iter().any(|v| *v == w)
}

/// The windows but these.
fn others(alloc: Global, changed: &[Hwnd], windows: &[Hwnd]) -> Result<Vec<Hwnd>, AllocError>
    ensures { IfOk result (λ v. v.items ≡ others changed.now windows.now) }
{
    windows
        .iter()
        .filter(|w| !is_one_of(changed, **w))
        .copied()
        .collect(alloc)
}

/// Whether both lists have the same windows in the same order.
fn list_same(a: &[Hwnd], b: &[Hwnd]) -> bool
    ensures { result ≡ true → a.now ≡ b.now }
{
    a == b
}

/// Whether the children of a window, or for 0 the top-level windows, are the same in both orders but for
/// these.
fn lists_same(
    alloc: Global,
    changed: &[Hwnd],
    old: &Order,
    new: &Order,
    w: Hwnd,
) -> Result<bool, AllocError>
    ensures { IfOk result (λ b. b ≡ true → others changed.now (siblings_of w.0 old.now) ≡ others changed.now (siblings_of w.0 new.now)) }
{
    let before = others(alloc, changed, old.siblings(w))?;
    let after = others(alloc, changed, new.siblings(w))?;
    Ok(list_same(&before, &after))
}

/// Whether they are so for each of some windows.
fn each_list_same(
    alloc: Global,
    changed: &[Hwnd],
    old: &Order,
    new: &Order,
    windows: &[Hwnd],
) -> Result<bool, AllocError>
    ensures { IfOk result (λ b. b ≡ true → ListsSameOf changed.now old.now new.now windows.now) }
{
    for w in windows {
        let same = lists_same(alloc, changed, old, new, *w)?;
        if !same {
            return Ok(false);
        }
    }
    Ok(true)
}

/// Whether they are so for 0 and for each window of the table, and not too many have changed.
fn keeps_lists(
    alloc: Global,
    changed: &[Hwnd],
    old: &Order,
    tree: &Tree,
    new: &Order,
) -> Result<bool, AllocError>
    ensures { IfOk result (λ b. b ≡ true → ListsSame changed.now old.now tree.now.live new.now) }
{
    if changed.len() > MANY {
        return Ok(false);
    }
    let same = lists_same(alloc, changed, old, new, Hwnd(0))?;
    if !same {
        return Ok(false);
    }
    each_list_same(alloc, changed, old, new, tree.windows())
}

/// The pixels of the screen that some windows have in one of two tables, without those that have no
/// WS_VISIBLE.
fn boxes_in_both(
    alloc: Global,
    screen: Screen,
    old: &Tree,
    new: &Tree,
    windows: &[Hwnd],
) -> Result<Region, AllocError>
    requires older { IsOrdered 15 old.now.last old.now.live }
    requires newer { IsOrdered 15 new.now.last new.now.live }
    ensures before { IfOk result (HasWays old.now.live screen.width screen.height windows.now) }
    ensures after { IfOk result (HasWays new.now.live screen.width screen.height windows.now) }
{
    let before = boxes_shown(alloc, screen, old, windows)?;
    let after = boxes_shown(alloc, screen, new, windows)?;
    before.or(alloc, &after)
}

/// A part of the screen outside of which each pixel has the same owner by both pairs of tables: the boxes of
/// the windows that don't look the same, and of w, which may stand elsewhere among its siblings. Where more
/// than that has changed it is the whole screen. Want of memory is the only error.
pub fn changed_part(
    alloc: Global,
    screen: Screen,
    old: &Tree,
    old_order: &Order,
    new: &Tree,
    new_order: &Order,
    w: Hwnd,
) -> Result<Part, AllocError>
    requires before { AreChildren old.now.live old_order.now }
    requires after { AreChildren new.now.live new_order.now }
    ensures screen { IfOk result (λ x. x.screen ≡ screen) }
    ensures kept { IfOk result (KeepsOutside old.now.live old_order.now new.now.live new_order.now) }
{
    let changed = changed_windows(alloc, old, new, w)?;
    let keeps = keeps_lists(alloc, &changed, old_order, new, new_order)?;
    if !keeps {
        let whole = whole_screen(alloc, screen)?;
        return Ok(whole);
    }
    let region = boxes_in_both(alloc, screen, old, new, &changed)?;
    Ok(Part { screen, region })
}
