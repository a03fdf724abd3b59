//! A screen without windows. Windows are made by a history, so examples with windows stand with machines.

use crate::facts::hold;
use band_region::Region;
use screen_owners::{
    Owned, Owners, Part, Screen, changed_part, owned_regions, owned_regions_again,
};
use std::alloc::{AllocError, Global};
use std::test::Fail;
use win_num::Hwnd;
use win_order::Order;
use win_tree::Tree;

const SCREEN: Screen = Screen {
    width: 8,
    height: 6,
};

/// The regions of the screen.
fn regions(alloc: Global) -> Result<Owners, AllocError> {
    let tree = Tree::new(alloc);
    let order = Order::new(alloc);
    owned_regions(alloc, SCREEN, &tree, &order)
}

/// The part that changes where no window does.
fn changed(alloc: Global) -> Result<Part, AllocError> {
    let tree = Tree::new(alloc);
    let order = Order::new(alloc);
    changed_part(alloc, SCREEN, &tree, &order, &tree, &order, Hwnd(16))
}

/// The regions after a change in this part.
fn regions_again(alloc: Global, part: &Part, old: &Owners) -> Result<Owners, AllocError> {
    let tree = Tree::new(alloc);
    let order = Order::new(alloc);
    owned_regions_again(alloc, part, &tree, &order, old)
}

/// Whether it is the whole screen, as one rectangle.
fn is_whole(region: &Region) -> bool {
    for r in region.rects() {
        if (r.l(), r.t(), r.r(), r.b()) != (0, 0, 8, 6) {
            return false;
        }
    }
    region.rects().len() == 1
}

/// Whether these are the screen's pixels alone.
fn are_screens(entries: &[Owned]) -> bool {
    for o in entries {
        if o.window != Hwnd(0) || !is_whole(&o.region) {
            return false;
        }
    }
    entries.len() == 1
}

#[test]
fn screen_without_windows_has_all_its_pixels(rt: HostRuntime) -> Result<(), Fail> {
    let owners = regions(rt.alloc())?.copy(rt.alloc())?;
    let facts = [
        are_screens(owners.entries()),
        owners.region_of(Hwnd(16)).is_none(),
        owners.region_of(Hwnd(0)).is_some(),
    ];
    hold(&rt, &facts);
    Ok(())
}

#[test]
fn same_tables_change_no_part(rt: HostRuntime) -> Result<(), Fail> {
    let old = regions(rt.alloc())?;
    let part = changed(rt.alloc())?;
    let new = regions_again(rt.alloc(), &part, &old)?;
    let facts = [part.region.rects().is_empty(), are_screens(new.entries())];
    hold(&rt, &facts);
    Ok(())
}
