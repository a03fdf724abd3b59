//! The lists of siblings.

ghost use Rattle.std.specs.Prelude.{◌≡◌, ◌≤◌, [], map, length, not, position, ◌==◌, IfOk, OnOk, OnErr};
ghost use Rattle.std.specs.List.{filter, insert};
ghost use Rattle.std.specs.List.Sorted.{IsNonDecreasingBy};
ghost use Rattle.win_order.specs.Families.{place_in, put, windows_of, with_windows, without};
ghost use Rattle.win_order.specs.Layers.{is_among, is_gone, staying_in};
ghost use Rattle.win_order.specs.Listed.{without_child};

use crate::after::After;
use indexmap::IndexMap;
use std::alloc::{AllocError, Global};
use std::marker::Model;
use win_num::Hwnd;

/// The children of one parent, from the bottom to the top.
#[derive(Drop)]
pub struct Family {
    windows: Vec<Hwnd>,
}

impl Model for Family {
    ghost use Rattle.std.specs.Prelude.{List};
    ghost use Rattle.win_num.specs.declared.message.Hwnd.{Hwnd};

    ghost Value = { List Hwnd };

    ghost view = { λ f. f.windows.items };
}

impl Family {
    /// The children, from the bottom to the top.
    fn windows(&self) -> &[Hwnd]
        ensures { result.now ≡ self.now }
    {
        &self.windows
    }

    /// Takes a window out.
    fn take_out(&mut self, window: Hwnd)
        ensures { self.new ≡ without window.0 self.old }
    {
        self.windows.retain(|w| *w != window);
    }

    /// Keeps these windows alone, whose numbers rise.
    fn keep(&mut self, staying: &[Hwnd])
        ensures { IsNonDecreasingBy (λ v. v.0) staying.now → (self.new ≡ filter (λ v. not (is_gone staying.now v.0)) self.old) }
    {
        self.windows.retain(|w| !is_gone(staying, w.0));
    }

    /// The same children.
    fn copy(&self, alloc: Global) -> Result<Family, AllocError>
        ensures { IfOk result (λ f. f ≡ self.now) }
    {
        Ok(Family {
            windows: Vec::from_slice(alloc, &self.windows)?,
        })
    }
}

/// The lists of siblings, each found by its parent, which is 0 for the top-level windows. No parent has two.
#[derive(Drop)]
pub struct Families {
    lists: IndexMap<u32, Family>,
}

impl Model for Families {
    ghost use Rattle.std.specs.Prelude.{List, map, nat_eq};
    ghost use Rattle.indexmap.specs.IndexMap.{IsUnique};
    ghost use Rattle.win_order.specs.Listed.{siblings};
    ghost use Rattle.win_order.specs.Siblings.{Siblings};

    ghost Value = { List Siblings };

    ghost view = { λ f. map siblings f.lists.entries };

    ghost invariant = { λ f. IsUnique nat_eq f.lists };
}

impl Families {
    /// No list.
    pub fn new(alloc: Global) -> Families
        ensures { result ≡ [] }
    {
        Families {
            lists: IndexMap::new(alloc),
        }
    }

    /// The children of the parent, from the bottom to the top.
    pub fn windows_of(&self, parent: Hwnd) -> &[Hwnd]
        ensures { result.now ≡ windows_of self.now parent.0 }
    {
        match self.lists.get(&parent.0) {
            Some(family) => family.windows(),
            None => &[],
        }
    }

    /// Makes these the children of the parent.
    pub fn set_windows(&mut self, parent: Hwnd, windows: Vec<Hwnd>) -> Result<(), AllocError>
        ensures ok { OnOk result (self.new ≡ with_windows parent windows.items self.old) }
        ensures err { OnErr result (self.new ≡ self.old) }
    {
        self.lists.insert(parent.0, Family { windows })?;
        Ok(())
    }

    /// Takes a window out of the list of this parent, and the list of its own children out of all.
    pub fn take_out(&mut self, parent: Hwnd, window: Hwnd)
        ensures { self.new ≡ map (without_child parent.0 window.0) (filter (λ f. not (f.parent.0 == window.0)) self.old) }
    {
        let _ = self.lists.shift_remove(&window.0);
        if let Some(at) = self.lists.get_index_of(&parent.0) {
            let (_, family) = self.lists.pair_mut(at);
            family.take_out(window);
        }
    }

    /// Keeps these windows, and the lists of their children, alone.
    pub fn keep(&mut self, staying: &[Hwnd])
        requires { IsNonDecreasingBy (λ v. v.0) staying.now }
        ensures { self.new ≡ map (staying_in staying.now) (filter (λ f. not (is_gone staying.now f.parent.0)) self.old) }
    {
        self.lists
            .retain(|parent, family| stays(staying, *parent, family));
    }

    /// The same lists.
    pub fn copy(&self, alloc: Global) -> Result<Families, AllocError>
        ensures { IfOk result (λ f. f ≡ self.now) }
    {
        let mut lists = IndexMap::new(alloc);
        for i in 0..self.lists.len() {
            let (parent, family) = self.lists.get_index(i).unwrap();
            lists.insert(*parent, family.copy(alloc)?)?;
        }
        Ok(Families { lists })
    }
}

/// Whether the list of this parent stays where these windows do, which are kept in it alone.
fn stays(staying: &[Hwnd], parent: u32, family: &mut Family) -> bool
    ensures stays { IsNonDecreasingBy (λ v. v.0) staying.now → (result ≡ not (is_gone staying.now parent)) }
    ensures kept { IsNonDecreasingBy (λ v. v.0) staying.now → (family.new ≡ filter (λ v. not (is_gone staying.now v.0)) family.old) }
{
    family.keep(staying);
    !is_gone(staying, parent)
}

/// Whether a window isn't among those that stay, whose numbers rise. 0 is no window.
pub fn is_gone(staying: &[Hwnd], window: u32) -> bool
    ensures { IsNonDecreasingBy (λ v. v.0) staying.now → (result ≡ is_gone staying.now window) }
{
    window != 0 && !is_among(staying, window)
}

/// Whether a window is among these, whose numbers rise.
fn is_among(windows: &[Hwnd], window: u32) -> bool
    ensures { IsNonDecreasingBy (λ v. v.0) windows.now → (result ≡ is_among windows.now window) }
{
    windows.binary_search_by_key(&window, |v| v.0).is_ok()
}

/// The siblings with a new window at this place.
pub fn with_new(
    alloc: Global,
    siblings: &[Hwnd],
    at: usize,
    window: Hwnd,
) -> Result<Vec<Hwnd>, AllocError>
    requires { at ≤ length siblings.now }
    ensures { IfOk result (λ v. v.items ≡ insert siblings.now at window) }
{
    let mut list = Vec::from_slice(alloc, siblings)?;
    list.insert(at, window)?;
    Ok(list)
}

/// The siblings with the window taken out and put where it belongs.
pub fn put(
    alloc: Global,
    siblings: &[Hwnd],
    window: Hwnd,
    after: After,
) -> Result<Vec<Hwnd>, AllocError>
    ensures { IfOk result (λ v. v.items ≡ put after window siblings.now) }
{
    let mut list = without(alloc, window, siblings)?;
    let at = place_in(&list, after);
    list.insert(at, window)?;
    Ok(list)
}

/// The siblings but this one.
fn without(alloc: Global, window: Hwnd, siblings: &[Hwnd]) -> Result<Vec<Hwnd>, AllocError>
    ensures { IfOk result (λ v. v.items ≡ without window.0 siblings.now) }
{
    siblings
        .iter()
        .filter(|w| **w != window)
        .copied()
        .collect(alloc)
}

/// How many of the other siblings stand below the place that is meant.
fn place_in(others: &[Hwnd], after: After) -> usize
    ensures place { result ≡ place_in after others.now }
    ensures within { result ≤ length others.now }
{
    match after {
        After::Top | After::Topmost | After::NoTopmost => others.len(),
        After::Bottom => 0,
        After::Below(sibling) => place_of(others, sibling).unwrap_or(others.len()),
    }
}

/// The place of a sibling, where it is there.
fn place_of(others: &[Hwnd], sibling: Hwnd) -> Option<usize>
    ensures { result ≡ position (λ v. v.0 == sibling.0) others.now }
{
    others.iter().position(|w| *w == sibling)
}
