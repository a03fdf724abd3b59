//! What is known of each window that stands in the order.

ghost use Rattle.std.specs.Prelude.{◌≡◌, ◌<◌, ◌≤◌, ◌∷◌, [], List, ◌==◌, nat_eq, true, not, ◌&&◌, length, map, take, IsTrue, IfOk, IfSome, OnOk, OnErr};
ghost use Rattle.std.specs.List.{filter, list_all, list_any};
ghost use Rattle.std.specs.List.Sorted.{IsNonDecreasingBy};
ghost use Rattle.indexmap.specs.IndexMap.{IsUnique};
ghost use Rattle.indexmap.specs.IndexSet.{spare};
ghost use Rattle.win_order.specs.Entries.{known_of, newest_first, standing};
ghost use Rattle.win_order.specs.Kept.{AllCameNew};
ghost use Rattle.win_order.specs.Tops.{AreTopmost, marked};
ghost use Rattle.win_order.specs.Layers.{IsNew, is_gone, may_stay};
ghost use Rattle.win_order.specs.Lone.{GoesAlone};
ghost use Rattle.win_order.specs.Standing.{Standing};
ghost use Rattle.win_order.specs.Standings.{parent_of, owner_of, is_topmost, top_level, flagged, pinned};

use crate::after::After;
use crate::families::is_gone;
use crate::top_level::TopLevel;
use indexmap::{IndexMap, IndexSet};
use std::alloc::{AllocError, Global};
use std::marker::Model;
use win_num::Hwnd;

/// What is known of a window that stands in the order.
#[derive(Clone, Copy)]
pub struct Known {
    /// Its parent, or 0 for a top-level window.
    pub parent: Hwnd,
    /// The window that owns it, or 0.
    pub owner: Hwnd,
    /// Its own topmost flag.
    pub topmost: bool,
}

/// The windows that stand, each found by its number. Contracts see them with the newest first. Each came
/// new to the older ones.
#[derive(Drop)]
pub struct Standings {
    windows: IndexMap<u32, Known>,
    /// Those that are topmost, by their own flag or by that of an owner up the chain.
    topmost: IndexSet<u32>,
}

impl Model for Standings {
    ghost use Rattle.std.specs.Prelude.{List, nat_eq};
    ghost use Rattle.indexmap.specs.IndexMap.{IsUnique};
    ghost use Rattle.win_order.specs.Entries.{newest_first};
    ghost use Rattle.win_order.specs.Kept.{AllCameNew};
    ghost use Rattle.win_order.specs.Standing.{Standing};
    ghost use Rattle.win_order.specs.Tops.{AreTopmost};

    ghost Value = { List Standing };

    ghost view = { λ s. newest_first s.windows.entries };

    ghost invariant = { λ s. IsUnique nat_eq s.windows × AllCameNew (newest_first s.windows.entries) × AreTopmost s.topmost.keys (newest_first s.windows.entries) };
}

impl Standings {
    /// No window.
    pub fn new(alloc: Global) -> Standings
        ensures { result ≡ [] }
    {
        Standings {
            windows: IndexMap::new(alloc),
            topmost: IndexSet::new(alloc),
        }
    }

    /// What is known of the window, where it stands.
    fn known(&self, window: Hwnd) -> Option<Known>
        ensures { result ≡ known_of self.now window.0 }
    {
        self.windows.get(&window.0).copied()
    }

    /// The window's parent, or 0.
    pub fn parent_of(&self, window: Hwnd) -> Hwnd
        ensures { result ≡ parent_of self.now window.0 }
    {
        match self.known(window) {
            Some(known) => known.parent,
            None => Hwnd(0),
        }
    }

    /// The window's owner, or 0.
    fn owner_of(&self, window: Hwnd) -> Hwnd
        ensures { result ≡ owner_of self.now window.0 }
    {
        match self.known(window) {
            Some(known) => known.owner,
            None => Hwnd(0),
        }
    }

    /// Whether the window is topmost, by its own flag or by that of an owner up the chain.
    pub fn is_topmost(&self, window: Hwnd) -> bool
        ensures { result ≡ is_topmost self.now window.0 }
    {
        self.topmost.contains(&window.0)
    }

    /// The window as mending sees it.
    pub fn top_level(&self, window: Hwnd) -> TopLevel
        ensures { result ≡ top_level self.now window }
    {
        TopLevel {
            window,
            owner: self.owner_of(window),
            topmost: self.is_topmost(window),
        }
    }

    /// One more window, the newest. Where no memory can be had nothing changes.
    pub fn insert(&mut self, window: Hwnd, known: Known) -> Result<(), AllocError>
        requires { IsNew window.0 known.parent.0 known.owner.0 (record { standings = self.old; families = [] }) }
        ensures ok { OnOk result (self.new ≡ standing (window.0, known) ∷ self.old) }
        ensures err { OnErr result (self.new ≡ self.old) }
    {
        self.topmost.reserve(1)?;
        self.windows.insert(window.0, known)?;
        mark(&mut self.topmost, window.0, known);
        Ok(())
    }

    /// The newest window is forgotten.
    pub fn forget_newest(&mut self)
        ensures { (s : Standing) (ss : List Standing) → self.old ≡ s ∷ ss → self.new ≡ ss }
    {
        if let Some((window, _known)) = self.windows.pop() {
            self.topmost.swap_remove(&window);
        }
    }

    /// The same with the window's topmost flag set or cleared where its new place says so.
    pub fn pinned(&self, alloc: Global, window: Hwnd, after: After) -> Result<Standings, AllocError>
        ensures { IfOk result (λ s. s ≡ pinned after window.0 self.now) }
    {
        match after {
            After::Topmost => self.flagged(alloc, window, true),
            After::NoTopmost => self.flagged(alloc, window, false),
            After::Top | After::Bottom | After::Below(_) => self.copy(),
        }
    }

    /// The same with this as the window's topmost flag, where it stands.
    fn flagged(&self, alloc: Global, window: Hwnd, flag: bool) -> Result<Standings, AllocError>
        ensures { IfOk result (λ s. s ≡ map (flagged window.0 flag) self.now) }
    {
        let Standings { mut windows, .. } = self.copy()?;
        set_flag(&mut windows, window, flag);
        let topmost = topmost_among(alloc, &windows)?;
        Ok(Standings { windows, topmost })
    }

    /// A window goes that no other has as its parent or owner.
    pub fn remove(&mut self, window: Hwnd)
        requires last { IsTrue (list_all (λ s. not (s.parent.0 == window.0) && not (s.owner.0 == window.0)) self.old) }
        requires stands { IsTrue (list_any (λ s. s.window.0 == window.0) self.old) }
        ensures { self.new ≡ filter (λ s. not (s.window.0 == window.0)) self.old }
    {
        let _ = self.windows.shift_remove(&window.0);
        self.topmost.swap_remove(&window.0);
    }

    /// The window that goes alone where these stay, which are all others in their order. None comes where
    /// several go or none, or the others lie in another order.
    pub fn alone_gone(&self, staying: &[Hwnd]) -> Option<Hwnd>
        ensures { IfSome result (λ w. GoesAlone staying.now w.0 self.now) }
    {
        let windows = self.windows.keys().as_slice();
        if windows.len() != staying.len() + 1 {
            return None;
        }
        let at = same_front(windows, staying);
        if !is_same(&windows[at + 1..], &staying[at..]) {
            return None;
        }
        Some(Hwnd(windows[at]))
    }

    /// These windows alone stay, and none has a parent or an owner that goes.
    pub fn keep(&mut self, staying: &[Hwnd])
        requires rising { IsNonDecreasingBy (λ v. v.0) staying.now }
        requires along { IsTrue (may_stay staying.now self.old) }
        ensures { self.new ≡ filter (λ s. not (is_gone staying.now s.window.0)) self.old }
    {
        self.windows
            .retain(|window, _known| !is_gone(staying, *window));
        self.topmost.retain(|window| !is_gone(staying, *window));
    }

    /// The same windows.
    pub fn copy(&self) -> Result<Standings, AllocError>
        ensures { IfOk result (λ s. s ≡ self.now) }
    {
        Ok(Standings {
            windows: self.windows.clone()?,
            topmost: self.topmost.clone()?,
        })
    }
}

/// How many numbers from the front on are those of these windows.
fn same_front(numbers: &[u32], windows: &[Hwnd]) -> usize
    requires { length windows.now ≤ length numbers.now }
    ensures within { result ≤ length windows.now }
    ensures same { take result numbers.now ≡ map (λ v. v.0) (take result windows.now) }
{
    for i in 0..windows.len() {
        if numbers[i] != windows[i].0 {
            return i;
        }
    }
    windows.len()
}

/// Whether the numbers are those of these windows.
fn is_same(numbers: &[u32], windows: &[Hwnd]) -> bool
    ensures { result ≡ true → numbers.now ≡ map (λ v. v.0) windows.now }
{
    numbers.len() == windows.len() && same_front(numbers, windows) == windows.len()
}

/// Sets the window's topmost flag to this, where the window stands.
fn set_flag(windows: &mut IndexMap<u32, Known>, window: Hwnd, topmost: bool)
    requires { IsUnique nat_eq windows.old }
    ensures unique { IsUnique nat_eq windows.new }
    ensures flag { newest_first windows.new.entries ≡ map (flagged window.0 topmost) (newest_first windows.old.entries) }
{
    if let Some(known) = windows.get(&window.0).copied() {
        let _old = windows.insert(window.0, Known { topmost, ..known });
    }
}

/// The windows that are topmost, by their own flag or by that of an owner up the chain.
fn topmost_among(alloc: Global, windows: &IndexMap<u32, Known>) -> Result<IndexSet<u32>, AllocError>
    requires { AllCameNew (newest_first windows.now.entries) }
    ensures { IfOk result (λ s. AreTopmost s.keys (newest_first windows.now.entries)) }
{
    let mut topmost = IndexSet::new(alloc);
    for i in 0..windows.len() {
        let (window, known) = windows.get_index(i).unwrap();
        topmost.reserve(1)?;
        mark(&mut topmost, *window, *known);
    }
    Ok(topmost)
}

/// Adds a new window to those that are topmost, if it is.
fn mark(topmost: &mut IndexSet<u32>, window: u32, known: Known)
    requires { 0 < spare topmost.old }
    ensures { topmost.new.keys ≡ marked topmost.old.keys window known }
{
    if known.topmost || topmost.contains(&known.owner.0) {
        topmost.insert(window).unwrap();
    }
}
