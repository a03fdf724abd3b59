//! The order of all windows.

ghost use Rattle.std.specs.Prelude.{◌≡◌, ◌≤◌, true, false, not, map, length, IsTrue, IfOk, OnOk, OnErr};
ghost use Rattle.std.specs.List.Sorted.{IsNonDecreasingBy, IsPartitionPoint};
ghost use Rattle.win_order.specs.Entries.{goes_low};
ghost use Rattle.win_order.specs.Mended.{is_parted};
ghost use Rattle.win_order.specs.Families.{windows_of};
ghost use Rattle.win_order.specs.Standings.{is_topmost, top_level};
ghost use Rattle.win_order.specs.Layers.{empty, inserted, placed, removed, siblings_of, IsNew, IsPlace, kept, may_stay, stands, has_none, settled, relisted};

use crate::after::After;
use crate::families::{self, Families};
use crate::mending::mended;
use crate::standings::{Known, Standings};
use crate::top_level::TopLevel;
use std::alloc::{AllocError, Global};
use std::marker::Model;
use win_num::Hwnd;

/// The windows that stand, each in the list of its siblings. Contracts see what is known of each
/// window, the newest first, and for each parent the list of its children from the bottom to the top.
#[derive(Drop)]
pub struct Order {
    standings: Standings,
    families: Families,
}

impl Model for Order {
    ghost use Rattle.win_order.specs.Kept.{IsKept};
    ghost use Rattle.win_order.specs.Layers.{Layers};

    ghost Value = { Layers };

    ghost view = { λ o. record { standings = o.standings; families = o.families } };

    ghost invariant = { λ o. IsKept (record { standings = o.standings; families = o.families }) };
}

impl Order {
    /// An order in which no window stands.
    pub fn new(alloc: Global) -> Order
        ensures { result ≡ empty }
    {
        Order {
            standings: Standings::new(alloc),
            families: Families::new(alloc),
        }
    }

    /// A new window, which isn't 0 and doesn't stand yet, comes to the top of its siblings. The parent
    /// is 0, for a top-level window, or stands. The owner is 0, or for a top-level window a top-level
    /// window that stands. The top-level windows are then mended. Where no memory can be had the
    /// order is as it was.
    pub fn insert(
        &mut self,
        alloc: Global,
        w: Hwnd,
        parent: Hwnd,
        owner: Hwnd,
        topmost: bool,
    ) -> Result<(), AllocError>
        requires { IsNew w.0 parent.0 owner.0 self.old }
        ensures ok { OnOk result (self.new ≡ inserted w parent owner topmost self.old) }
        ensures err { OnErr result (self.new ≡ self.old) }
    {
        let new = Known {
            parent,
            owner,
            topmost,
        };
        let siblings = self.families.windows_of(parent);
        let at = new_place(&self.standings, siblings, new);
        let windows = families::with_new(alloc, siblings, at, w)?;
        self.standings.insert(w, new)?;
        let listed = self.families.set_windows(parent, windows);
        if listed.is_err() {
            self.standings.forget_newest();
        }
        listed
    }

    /// A window that stands is taken out of its siblings and put where `after` says, which names a
    /// sibling other than the window itself where it names one. The top-level windows are then mended
    /// (Microsoft, SetWindowPos function). Where no memory can be had the order is as it was.
    pub fn place(&mut self, alloc: Global, w: Hwnd, after: After) -> Result<(), AllocError>
        requires { IsPlace w.0 after self.old }
        ensures ok { OnOk result (self.new ≡ placed w after self.old) }
        ensures err { OnErr result (self.new ≡ self.old) }
    {
        let standings = self.standings.pinned(alloc, w, after)?;
        let parent = self.standings.parent_of(w);
        relist(alloc, &mut self.families, &standings, parent, w, after)?;
        self.standings = standings;
        Ok(())
    }

    /// The same windows in the same lists.
    pub fn copy(&self, alloc: Global) -> Result<Order, AllocError>
        ensures { IfOk result (λ o. o ≡ self.now) }
    {
        Ok(Order {
            standings: self.standings.copy()?,
            families: self.families.copy(alloc)?,
        })
    }

    /// A window that stands, and that no other has as its parent or owner, is taken out of its
    /// siblings, whose order stays.
    pub fn remove(&mut self, w: Hwnd)
        requires stands { IsTrue (stands w.0 self.old) }
        requires last { IsTrue (has_none w.0 self.old) }
        ensures { self.new ≡ removed w.0 self.old }
    {
        let parent = self.standings.parent_of(w);
        self.standings.remove(w);
        self.families.take_out(parent, w);
    }

    /// All windows but these are taken out at once. Their numbers rise, and none of them has a parent or
    /// an owner that goes. They keep their order. Takes no memory.
    pub fn keep(&mut self, staying: &[Hwnd])
        requires rising { IsNonDecreasingBy (λ v. v.0) staying.now }
        requires along { IsTrue (may_stay staying.now self.old.standings) }
        ensures { self.new ≡ kept staying.now self.old }
    {
        if let Some(window) = self.standings.alone_gone(staying) {
            self.remove(window);
            return;
        }
        self.standings.keep(staying);
        self.families.keep(staying);
    }

    /// The children of the parent, or for 0 the top-level windows, from the bottom to the top.
    pub fn siblings(&self, parent: Hwnd) -> &[Hwnd]
        ensures { result.now ≡ siblings_of parent.0 self.now }
    {
        self.families.windows_of(parent)
    }
}

/// How many of the siblings stand below a new window: all, or for a top-level window that isn't topmost
/// those that aren't topmost.
fn new_place(standings: &Standings, siblings: &[Hwnd], new: Known) -> usize
    requires { (new.parent.0 ≡ 0) → (is_parted (map (top_level standings.now) siblings.now) ≡ true) }
    ensures within { result ≤ length siblings.now }
    ensures high { (goes_low standings.now new ≡ false) → (result ≡ length siblings.now) }
    ensures low { (goes_low standings.now new ≡ true) → IsPartitionPoint (λ w. not (is_topmost standings.now w.0) ≡ true) (λ w. not (is_topmost standings.now w.0) ≡ false) siblings.now result }
{
    if new.parent != Hwnd(0) || new.topmost || standings.is_topmost(new.owner) {
        return siblings.len();
    }
    siblings.partition_point(|w| !standings.is_topmost(*w))
}

/// Puts a window of this parent where it belongs among its siblings.
fn relist(
    alloc: Global,
    families: &mut Families,
    standings: &Standings,
    parent: Hwnd,
    window: Hwnd,
    after: After,
) -> Result<(), AllocError>
    ensures ok { OnOk result (families.new ≡ relisted standings.now parent window after families.old) }
    ensures err { OnErr result (families.new ≡ families.old) }
{
    let windows = families::put(alloc, families.windows_of(parent), window, after)?;
    let windows = settled(alloc, standings, parent, windows)?;
    families.set_windows(parent, windows)
}

/// The siblings, mended where they are the top-level windows.
fn settled(
    alloc: Global,
    standings: &Standings,
    parent: Hwnd,
    windows: Vec<Hwnd>,
) -> Result<Vec<Hwnd>, AllocError>
    ensures { IfOk result (λ v. v.items ≡ settled standings.now parent.0 windows.items) }
{
    if parent != Hwnd(0) {
        return Ok(windows);
    }
    let list = top_levels(alloc, standings, &windows)?;
    windows_in(alloc, &mended(alloc, &list)?)
}

/// The windows as mending sees them.
fn top_levels(
    alloc: Global,
    standings: &Standings,
    windows: &[Hwnd],
) -> Result<Vec<TopLevel>, AllocError>
    ensures { IfOk result (λ v. v.items ≡ map (top_level standings.now) windows.now) }
{
    windows
        .iter()
        .map(|w| standings.top_level(*w))
        .collect(alloc)
}

/// The windows alone.
fn windows_in(alloc: Global, list: &[TopLevel]) -> Result<Vec<Hwnd>, AllocError>
    ensures { IfOk result (λ v. v.items ≡ map (λ t. t.window) list.now) }
{
    list.iter().map(|t| t.window).collect(alloc)
}
