//! The regions that windows own on the screen.

ghost use Rattle.std.specs.Prelude.{◌≡◌, IfOk, OnOk, option_copied, option_map};
ghost use Rattle.win_num.specs.declared.shapes.Point.{Point};
ghost use Rattle.band_region.specs.Regions.{region_has};
ghost use Rattle.win_rows.specs.Windows.{IsOrdered};
ghost use Rattle.screen_owners.specs.Owners.{entry_of, owned_region, AreChildren, AreOwners, AreOwnersIn, AreOwnersOutside, IsOwned};
ghost use Rattle.screen_owners.specs.Joined.{AreJoined, IsJoined};
ghost use Rattle.screen_owners.specs.Shares.{screen_and, AreSharesOf, IsShare, IsSharedOut};

use crate::joined::joined;
use crate::lefts::left_by_all;
use crate::screen::{Part, Screen, whole_screen};
use crate::shares::{Share, shares_of};
use band_region::Region;
use std::alloc::{AllocError, Global};
use std::marker::Model;
use win_num::Hwnd;
use win_order::Order;
use win_tree::Tree;

/// A window, or the screen for 0, with the pixels of the screen that it owns.
#[derive(Drop)]
pub struct Owned {
    pub window: Hwnd,
    pub region: Region,
}

/// The pixels of the screen that windows own. Contracts see the entries, by rising number, each window
/// once. A window that has no entry owns no pixel.
#[derive(Drop)]
pub struct Owners {
    entries: Vec<Owned>,
}

impl Model for Owners {
    ghost use Rattle.std.specs.Prelude.{List};
    ghost use Rattle.std.specs.List.{AllPairs};
    ghost use Rattle.screen_owners.specs.declared.owners.Owned.{Owned};
    ghost use Rattle.screen_owners.specs.Owners.{IsBefore};

    ghost Value = { List Owned };

    ghost view = { λ o. o.entries.items };

    ghost invariant = { λ o. AllPairs IsBefore o.entries.items };
}

impl Owners {
    /// The pixels that a window owns. None comes where it has no entry, so that it owns none.
    pub fn region_of(&self, w: Hwnd) -> Option<&Region>
        ensures { option_copied result ≡ option_map owned_region (entry_of self.now w.0) }
    {
        let i = self.entries.partition_point(|o| o.window < w);
        if i < self.entries.len() && self.entries[i].window == w {
            Some(&self.entries[i].region)
        } else {
            None
        }
    }

    /// The entries, by rising number.
    pub fn entries(&self) -> &[Owned]
        ensures { result.now ≡ self.now }
    {
        &self.entries
    }

    /// The same entries.
    pub fn copy(&self, alloc: Global) -> Result<Owners, AllocError>
        ensures { IfOk result (λ o. o ≡ self.now) }
    {
        let mut entries = Vec::new(alloc);
        for o in &self.entries {
            let region = o.region.copy(alloc)?;
            entries.push(Owned {
                window: o.window,
                region,
            })?;
        }
        Ok(Owners { entries })
    }
}

/// The pixels of the screen that windows own, with an entry for each window that owns some, and for the
/// screen, as window 0. A window owns the pixels of the screen that the way down from the screen through
/// the highest visible windows ends at (Microsoft, WindowFromPoint function): those that it has inside of
/// all its parents, without those of its visible children, of the visible siblings above it and of those
/// above its parents. A window that isn't visible, or has a parent that isn't, owns none. Window 0 owns
/// the pixels that no window does. The listed children of each window are those that have it as their
/// parent, and the top-level windows those of parent 0.
pub fn owned_regions(
    alloc: Global,
    screen: Screen,
    tree: &Tree,
    order: &Order,
) -> Result<Owners, AllocError>
    requires { AreChildren tree.now.live order.now }
    ensures { IfOk result (AreOwners tree.now.live order.now screen.width screen.height) }
{
    let part = whole_screen(alloc, screen)?;
    regions_in(alloc, &part, tree, order)
}

/// The pixels of the screen that windows own, where they changed in a part of it alone: a window has those of
/// its old region that aren't in the part, and in the part it has those that it owns by the two tables. Where
/// the old regions have the right pixels outside of the part, all have them.
pub fn owned_regions_again(
    alloc: Global,
    part: &Part,
    tree: &Tree,
    order: &Order,
    old: &Owners,
) -> Result<Owners, AllocError>
    requires { AreChildren tree.now.live order.now }
    ensures { IfOk result (λ os. AreOwnersOutside tree.now.live order.now part.now old.now → AreOwners tree.now.live order.now part.now.screen.width part.now.screen.height os) }
{
    let new = regions_in(alloc, part, tree, order)?;
    let owners = joined_all(alloc, &part.region, tree, old, &new)?;
    Ok(owners)
}

/// The regions of the screen and of all windows, joined, without those that have no pixels.
fn joined_all(
    alloc: Global,
    part: &Region,
    tree: &Tree,
    old: &Owners,
    new: &Owners,
) -> Result<Owners, AllocError>
    ensures ordered { IfOk result (λ _. IsOrdered 15 tree.now.last tree.now.live) }
    ensures joined { IfOk result (AreJoined part.now old.now new.now (screen_and tree.now.live)) }
{
    let windows = tree.windows();
    let mut entries = Vec::new(alloc);
    push_joined(alloc, &mut entries, part, old, new, Hwnd(0))?;
    for w in windows {
        push_joined(alloc, &mut entries, part, old, new, *w)?;
    }
    Ok(Owners { entries })
}

/// Puts a window's regions, joined, behind the entries, where they have a pixel.
fn push_joined(
    alloc: Global,
    entries: &mut Vec<Owned>,
    part: &Region,
    old: &Owners,
    new: &Owners,
    w: Hwnd,
) -> Result<(), AllocError>
    ensures { OnOk result (IsJoined part.now old.now new.now w entries.old.items entries.new.items) }
{
    let region = joined(alloc, part, old, new, w)?;
    if region.rects().is_empty() {
        return Ok(());
    }
    entries.push(Owned { window: w, region })?;
    Ok(())
}

/// The pixels of a part of the screen that windows own, as `owned_regions` has those of all of it.
fn regions_in(alloc: Global, part: &Part, tree: &Tree, order: &Order) -> Result<Owners, AllocError>
    requires { AreChildren tree.now.live order.now }
    ensures { IfOk result (AreOwnersIn tree.now.live order.now part.now) }
{
    let shares = shares_of(alloc, part, tree, order)?;
    owners_of(alloc, part, tree, order, &shares)
}

/// What each share leaves to none of its children.
fn owners_of(
    alloc: Global,
    part: &Part,
    tree: &Tree,
    order: &Order,
    shares: &[Share],
) -> Result<Owners, AllocError>
    requires ordered { IsOrdered 15 tree.now.last tree.now.live }
    requires children { AreChildren tree.now.live order.now }
    requires shares { IsSharedOut tree.now.live order.now part.now shares.now }
    ensures { IfOk result (AreOwnersIn tree.now.live order.now part.now) }
{
    let mut entries = Vec::new(alloc);
    for share in shares {
        entries.push(owned_of(alloc, part, tree, order, share)?)?;
    }
    Ok(Owners { entries })
}

/// What a window leaves to none of its children.
fn owned_of(
    alloc: Global,
    part: &Part,
    tree: &Tree,
    order: &Order,
    share: &Share,
) -> Result<Owned, AllocError>
    requires ordered { IsOrdered 15 tree.now.last tree.now.live }
    requires children { AreChildren tree.now.live order.now }
    requires share { IsShare tree.now.live order.now part.now share.now }
    ensures window { IfOk result (λ o. o.window ≡ share.now.window) }
    ensures owned { IfOk result (IsOwned tree.now.live order.now part.now) }
{
    let region = left_by_all(alloc, &share.taken, &share.covers, &share.lefts)?;
    Ok(Owned {
        window: share.window,
        region,
    })
}
