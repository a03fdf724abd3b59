//! The pixels of a part of the screen that each window has to share out among its children and itself.

ghost use Rattle.std.specs.Prelude.{◌≡◌, ◌<◌, true, length, map, IfOk, IfSome, IfNone, MatchOption, slice_index_or};
ghost use Rattle.win_num.specs.declared.shapes.Point.{Point};
ghost use Rattle.win_rows.specs.Windows.{nobody, number_of, IsOrdered};
ghost use Rattle.screen_owners.specs.Owners.{AreChildren};
ghost use Rattle.screen_owners.specs.Shares.{IsBelow, IsLastAt, IsMovedBy, IsNear, IsOlderShare, IsParentAt, IsParentless, IsShare, IsShareOf, IsSharedOut, IsSharedUpTo, IsUnreached};
ghost use Rattle.std.specs.List.{AllPairs};

use crate::covers::{Cover, covers_of, part_met, place_in};
use crate::lefts::{Left, lefts_of, taken_of};
use crate::screen::{Corner, Part, moved_by, pixels_in};
use band_region::Region;
use std::alloc::{AllocError, Global};
use win_num::Hwnd;
use win_order::Order;
use win_tree::Tree;

/// What a window, or the screen for 0, has to share out.
#[derive(Drop)]
pub struct Share {
    pub window: Hwnd,
    /// Its left top corner on the screen.
    pub corner: Corner,
    /// The pixels of the part that the way down to it comes through.
    pub taken: Region,
    /// Its visible children that may have a pixel of the part, from the bottom to the top.
    pub covers: Vec<Cover>,
    /// What ever more of these leave of the pixels, from the top down.
    pub lefts: Vec<Left>,
}

/// The shares of the screen and of each window that the way down to a pixel comes through, by rising
/// number.
pub fn shares_of(
    alloc: Global,
    part: &Part,
    tree: &Tree,
    order: &Order,
) -> Result<Vec<Share>, AllocError>
    requires { AreChildren tree.now.live order.now }
    ensures ordered { IfOk result (λ _. IsOrdered 15 tree.now.last tree.now.live) }
    ensures shares { IfOk result (λ v. IsSharedOut tree.now.live order.now part.now v.items) }
{
    let windows = tree.windows();
    let mut shares = Vec::new(alloc);
    shares.push(screen_share(alloc, part, tree, order)?)?;
    for k in 0..windows.len() {
        if let Some(share) = share_of(alloc, part, tree, order, &shares, k)? {
            shares.push(share)?;
        }
    }
    Ok(shares)
}

/// The whole part.
fn screen_share(alloc: Global, part: &Part, tree: &Tree, order: &Order) -> Result<Share, AllocError>
    requires ordered { IsOrdered 15 tree.now.last tree.now.live }
    requires children { AreChildren tree.now.live order.now }
    ensures { IfOk result (IsShareOf tree.now.live order.now part.now nobody) }
{
    let corner = Corner { x: 0, y: 0 };
    let taken = pixels_in(alloc, part)?;
    let covers = covers_of(alloc, part, tree, order, Hwnd(0), corner)?;
    let lefts = lefts_of(alloc, &taken, &covers)?;
    Ok(Share {
        window: Hwnd(0),
        corner,
        taken,
        covers,
        lefts,
    })
}

/// What the window at a place has, where the screen and all older windows have their shares. None comes
/// where the way down to no pixel comes through it.
fn share_of(
    alloc: Global,
    part: &Part,
    tree: &Tree,
    order: &Order,
    shares: &[Share],
    k: usize,
) -> Result<Option<Share>, AllocError>
    requires children { AreChildren tree.now.live order.now }
    requires within { k < length tree.now.live }
    requires shares { IsSharedUpTo k tree.now.live order.now part.now shares.now }
    ensures { (w : Hwnd) → w ≡ slice_index_or (map number_of tree.now.live) k w → IfOk result (λ s. MatchOption s (IsUnreached tree.now.live order.now part.now w) (IsShareOf tree.now.live order.now part.now w)) }
{
    let w = tree.windows()[k];
    match parent_in(tree, shares, w) {
        Some(i) => share_under(alloc, part, tree, order, &shares[i], w),
        None => Ok(None),
    }
}

/// The place of the share of a live window's parent.
fn parent_in(tree: &Tree, shares: &[Share], w: Hwnd) -> Option<usize>
    requires { AllPairs IsOlderShare shares.now }
    ensures some { IfSome result (IsParentAt tree.now.live shares.now w) }
    ensures none { IfNone result (IsParentless tree.now.live shares.now w) }
{
    let row = tree.row(w)?;
    let i = shares.partition_point(|s| s.window < row.parent);
    if i < shares.len() && shares[i].window == row.parent {
        Some(i)
    } else {
        None
    }
}

/// What a window has of its parent's share. One that has no pixel of the part isn't looked up among the covers.
fn share_under(
    alloc: Global,
    part: &Part,
    tree: &Tree,
    order: &Order,
    parent: &Share,
    w: Hwnd,
) -> Result<Option<Share>, AllocError>
    requires ordered { IsOrdered 15 tree.now.last tree.now.live }
    requires children { AreChildren tree.now.live order.now }
    requires parent { IsShare tree.now.live order.now part.now parent.now }
    requires below { IsBelow tree.now.live parent.now.window w }
    ensures { IfOk result (λ s. MatchOption s (IsUnreached tree.now.live order.now part.now w) (IsShareOf tree.now.live order.now part.now w)) }
{
    // It is read for its range: 32 bits bound how far the corner is.
    let _number = parent.window.0;
    match part_met(part, tree, w, parent.corner) {
        Some(_) => share_met(alloc, part, tree, order, parent, w),
        None => Ok(None),
    }
}

/// The same of a window that may have a pixel of the part.
fn share_met(
    alloc: Global,
    part: &Part,
    tree: &Tree,
    order: &Order,
    parent: &Share,
    w: Hwnd,
) -> Result<Option<Share>, AllocError>
    requires ordered { IsOrdered 15 tree.now.last tree.now.live }
    requires children { AreChildren tree.now.live order.now }
    requires parent { IsShare tree.now.live order.now part.now parent.now }
    requires below { IsBelow tree.now.live parent.now.window w }
    ensures { IfOk result (λ s. MatchOption s (IsUnreached tree.now.live order.now part.now w) (IsShareOf tree.now.live order.now part.now w)) }
{
    match place_in(&parent.covers, w) {
        Some(i) => child_share(alloc, part, tree, order, parent, w, i),
        None => Ok(None),
    }
}

/// What a visible child has of its parent's share, where it is the cover at a place.
fn child_share(
    alloc: Global,
    part: &Part,
    tree: &Tree,
    order: &Order,
    parent: &Share,
    w: Hwnd,
    i: usize,
) -> Result<Option<Share>, AllocError>
    requires ordered { IsOrdered 15 tree.now.last tree.now.live }
    requires children { AreChildren tree.now.live order.now }
    requires parent { IsShare tree.now.live order.now part.now parent.now }
    requires below { IsBelow tree.now.live parent.now.window w }
    requires last { IsLastAt parent.now.covers.items w.0 i }
    ensures { IfOk result (λ s. MatchOption s (IsUnreached tree.now.live order.now part.now w) (IsShareOf tree.now.live order.now part.now w)) }
{
    // It is read for its range: 32 bits bound how far the corner is.
    let _number = parent.window.0;
    let taken = taken_of(alloc, &parent.taken, &parent.covers, &parent.lefts, i)?;
    if taken.rects().is_empty() {
        return Ok(None);
    }
    let corner = corner_of(tree, parent.corner, w);
    let covers = covers_of(alloc, part, tree, order, w, corner)?;
    let lefts = lefts_of(alloc, &taken, &covers)?;
    Ok(Some(Share {
        window: w,
        corner,
        taken,
        covers,
        lefts,
    }))
}

/// A live window's corner on the screen, from that of its parent.
fn corner_of(tree: &Tree, corner: Corner, w: Hwnd) -> Corner
    requires { IsNear 4294967295 corner }
    ensures { IsMovedBy tree.now.live w corner result }
{
    match tree.row(w) {
        Some(row) => Corner {
            x: moved_by(corner.x, row.place.l()),
            y: moved_by(corner.y, row.place.t()),
        },
        None => corner,
    }
}
