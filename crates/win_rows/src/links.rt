//! Which windows stand directly under which.

ghost use Rattle.std.specs.Prelude.{◌≡◌, ◌<◌, length, IfSome, OnSome};
ghost use Rattle.win_rows.specs.Links.{above_by, under, IsUnder, IsPut, IsPutAt, AreEmpty};

use crate::rows::Rows;
use crate::window::Window;
use std::alloc::Global;
use win_num::Hwnd;

/// How a window stands under another.
#[derive(Clone, Copy, Drop)]
pub enum Link {
    /// As its child.
    Parent,
    /// As a window that it owns.
    Owner,
}

/// Windows by number.
#[derive(Drop)]
pub struct Group {
    pub windows: Vec<Window>,
}

/// The windows that stand directly under each window, at its place.
#[derive(Drop)]
pub struct Under {
    pub link: Link,
    pub groups: Vec<Group>,
}

/// What the window stands under by this link, or 0.
pub fn above_by(link: Link, x: &Window) -> Hwnd
    ensures { result ≡ above_by link x.now }
{
    match link {
        Link::Parent => x.row.parent,
        Link::Owner => x.row.owner,
    }
}

/// The windows by what they stand under. None comes where memory wants.
pub fn grouped(alloc: Global, rows: &Rows, link: Link) -> Option<Under>
    ensures { IfSome result (λ u. (u.link ≡ link) × IsUnder rows.now u) }
{
    let mut groups = no_groups(alloc, rows.len())?;
    for i in 0..rows.len() {
        let x = rows.at(i);
        put(rows, &mut groups, above_by(link, x), x)?;
    }
    Some(Under { link, groups })
}

/// Puts a window last in the group of the one above it, where that is live.
fn put(rows: &Rows, groups: &mut Vec<Group>, above: Hwnd, x: &Window) -> Option<()>
    requires { length groups.old.items ≡ length rows.now }
    ensures { OnSome result (IsPut rows.now above.0 x.now groups.old.items groups.new.items) }
{
    match rows.place_of(above) {
        Some(p) => put_at(groups, p, x),
        None => Some(()),
    }
}

/// Puts a window last in the group at this place.
fn put_at(groups: &mut Vec<Group>, p: usize, x: &Window) -> Option<()>
    requires { p < length groups.old.items }
    ensures { OnSome result (IsPutAt p x.now groups.old.items groups.new.items) }
{
    if groups[p].windows.push(*x).is_err() {
        return None;
    }
    Some(())
}

/// As many groups of no window. None comes where memory wants.
fn no_groups(alloc: Global, n: usize) -> Option<Vec<Group>>
    ensures { IfSome result (λ groups. AreEmpty n groups.items) }
{
    let mut groups = Vec::new(alloc);
    'groups: for _ in 0..n {
        let windows = Vec::new(alloc);
        if groups.push(Group { windows }).is_err() {
            return None;
        }
    }
    Some(groups)
}

/// The windows directly under one of this number. None comes where it isn't live.
pub fn of<'a>(rows: &Rows, u: &'a Under, w: Hwnd) -> Option<&'a [Window]>
    requires { IsUnder rows.now u.now }
    ensures { IfSome result (λ windows. windows.now ≡ under u.now.link rows.now w.0) }
{
    match rows.place_of(w) {
        Some(p) => Some(&u.groups[p].windows),
        None => None,
    }
}
