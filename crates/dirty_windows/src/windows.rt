//! All windows that have something to paint.

ghost use Rattle.std.specs.Prelude.{if◌then◌else◌, ◌≡◌, ◌≢◌, ◌↔◌, ◌<◌, ◌==◌, ℕ, [], true, false, not, ◌&&◌, ◌||◌, IsTrue, IfOk, OnOk, OnErr, option_copied, option_map};
ghost use Rattle.win_num.specs.declared.shapes.Point.{Point};
ghost use Rattle.band_region.specs.Regions.{region_has, IsEmpty};
ghost use Rattle.screen_owners.specs.Owners.{region_in};
ghost use Rattle.dirty_windows.specs.LookUps.{area_in, entry_area, entry_of, erases_in, is_among, update_in, IsAllClean, RisesFrom, AreSorted};
ghost use Rattle.dirty_windows.specs.Changes.{carries, exposes};
ghost use Rattle.dirty_windows.specs.Carrying.{brings_any, IsShort};

use crate::carry::{Shift, carried_all};
use crate::change::{expose_all, kept_of, owned_part};
use crate::entries::{
    DirtyWindow, add, are_clean, copy_of, keep_listed, remove, settle, update_of,
};
use band_region::Region;
use screen_owners::{Owners, Screen};
use std::alloc::{AllocError, Global};
use std::marker::Model;
use win_num::Hwnd;

/// The dirty pixels and the erase flags of all windows. Contracts see a list of entries by rising number,
/// each of a window above 0. A window without an entry has no dirty pixel, and its flag is clear.
#[derive(Drop)]
pub struct DirtyWindows {
    alloc: Global,
    entries: Vec<DirtyWindow>,
    clean: bool,
}

impl Model for DirtyWindows {
    ghost use Rattle.std.specs.Prelude.{List};
    ghost use Rattle.dirty_windows.specs.declared.entries.DirtyWindow.{DirtyWindow};
    ghost use Rattle.dirty_windows.specs.LookUps.{AreKept};

    ghost Value = { List DirtyWindow };

    ghost view = { λ a. a.entries.items };

    ghost invariant = { λ a. AreKept a.entries.items a.clean };
}

impl DirtyWindows {
    /// No window has a dirty pixel, and no flag is set.
    pub fn new(alloc: Global) -> DirtyWindows
        ensures { result ≡ [] }
    {
        DirtyWindows {
            alloc,
            entries: Vec::new(alloc),
            clean: true,
        }
    }

    /// The dirty pixels of the window. None comes where it has no entry, so that none is dirty.
    pub fn region_of(&self, w: Hwnd) -> Option<&Region>
        ensures { option_copied result ≡ option_map entry_area (entry_of self.now w.0) }
    {
        match update_of(&self.entries, w) {
            Some(update) => Some(update.dirty()),
            None => None,
        }
    }

    /// The erase flag of the window.
    pub fn erases(&self, w: Hwnd) -> bool
        ensures { result ≡ erases_in self.now w.0 }
    {
        match update_of(&self.entries, w) {
            Some(update) => update.erase(),
            None => false,
        }
    }

    /// Whether no window has a dirty pixel. It looks at no window.
    pub fn is_empty(&self) -> bool
        ensures { IsTrue result ↔ IsAllClean self.now }
    {
        self.clean
    }

    /// The entries, by rising number, which is above 0.
    pub fn entries(&self) -> &[DirtyWindow]
        ensures value { result.now ≡ self.now }
        ensures rising { RisesFrom 0 result.now }
    {
        &self.entries
    }

    /// Makes the pixels of the part that the window owns dirty for it, and sets its flag where `erase` is
    /// true (Microsoft, InvalidateRgn function). Want of memory is the only error.
    pub fn invalidate(
        &mut self,
        alloc: Global,
        w: Hwnd,
        part: &Region,
        owners: &Owners,
        erase: bool,
    ) -> Result<(), AllocError>
        requires { 0 < w.0 }
        ensures area { OnOk result ((v : ℕ) (p : Point) → region_has (area_in self.new v) p ≡ (region_has (area_in self.old v) p || ((w.0 == v) && (region_has part.now p && region_has (region_in owners.now v) p)))) }
        ensures erases { OnOk result ((v : ℕ) → erases_in self.new v ≡ (erases_in self.old v || ((w.0 == v) && erase))) }
        ensures err { OnErr result (self.new ≡ self.old) }
    {
        let part = owned_part(alloc, part, owners, w)?;
        add(alloc, &mut self.entries, w, &part, erase)?;
        self.clean = are_clean(&self.entries);
        Ok(())
    }

    /// Makes the pixels of the part clean for the window, and clears its flag where none is dirty then
    /// (Microsoft, ValidateRgn function). Want of memory is the only error.
    pub fn validate(&mut self, alloc: Global, w: Hwnd, part: &Region) -> Result<(), AllocError>
        requires { 0 < w.0 }
        ensures area { OnOk result ((v : ℕ) (p : Point) → region_has (area_in self.new v) p ≡ (region_has (area_in self.old v) p && not ((w.0 == v) && region_has part.now p))) }
        ensures cleared { OnOk result (IsEmpty (area_in self.new w.0) → erases_in self.new w.0 ≡ false) }
        ensures kept { OnOk result ((IsEmpty (area_in self.new w.0) → ⊥) → erases_in self.new w.0 ≡ erases_in self.old w.0) }
        ensures others { OnOk result ((v : ℕ) → v ≢ w.0 → erases_in self.new v ≡ erases_in self.old v) }
        ensures err { OnErr result (self.new ≡ self.old) }
    {
        let mut update = copy_of(alloc, &self.entries, w)?;
        update.validate(alloc, part)?;
        settle(&mut self.entries, w, update)?;
        self.clean = are_clean(&self.entries);
        Ok(())
    }

    /// The dirty pixels and the flag of the window. None is dirty for it then, and the flag is clear
    /// (Microsoft, BeginPaint function). It takes no memory.
    pub fn take(&mut self, w: Hwnd) -> (Region, bool)
        ensures region { result.0 ≡ area_in self.old w.0 }
        ensures flag { result.1 ≡ erases_in self.old w.0 }
        ensures area { area_in self.new w.0 ≡ [] }
        ensures erases { erases_in self.new w.0 ≡ false }
        ensures others { (v : ℕ) → v ≢ w.0 → update_in self.new v ≡ update_in self.old v }
    {
        let taken = remove(&mut self.entries, w);
        self.clean = are_clean(&self.entries);
        match taken {
            Some(mut d) => d.update.take(),
            None => (Region::empty(self.alloc), false),
        }
    }

    /// Leaves the entries of these windows, and no others. It takes no memory.
    pub fn keep(&mut self, live: &[Hwnd])
        requires { AreSorted live.now }
        ensures area { (w : ℕ) → area_in self.new w ≡ (if is_among w live.now then area_in self.old w else []) }
        ensures erases { (w : ℕ) → erases_in self.new w ≡ (is_among w live.now && erases_in self.old w) }
    {
        keep_listed(&mut self.entries, live);
        self.clean = are_clean(&self.entries);
    }

    /// The pixels that windows carry that are moved so far, where `new` are the owners of pixels and `old` were those
    /// before (Microsoft, SetWindowPos function: valid contents are copied back after a move). It is each pixel of
    /// the screen that one of the windows owns now, and from where the move brings a pixel that the same window owned,
    /// and that wasn't dirty for it. The move is no further than a screen may be wide or high. Want of memory is the
    /// only error.
    pub fn carried(
        &self,
        alloc: Global,
        old: &Owners,
        new: &Owners,
        moved: &[Hwnd],
        screen: Screen,
        shift: Shift,
    ) -> Result<Region, AllocError>
        requires { IsShort shift }
        ensures { IfOk result (λ x. (p : Point) → region_has x p ≡ brings_any self.now old.now new.now screen shift moved.now p) }
    {
        carried_all(alloc, &self.entries, old, new, moved, screen, shift)
    }

    /// What is dirty where `new` are the owners of pixels and `old` were those before. `moved` are the
    /// windows whose rectangle on the screen changed, by number, and `carried` the pixels that they carry. A pixel is
    /// exposed for a window that owns it now, and didn't before or has moved and doesn't carry it. It is dirty then,
    /// and the window's flag is set. A pixel that was dirty is so still where the window owns it and doesn't
    /// carry it, and other flags are as before. Want of memory is the only error.
    pub fn after_change(
        &self,
        alloc: Global,
        old: &Owners,
        new: &Owners,
        moved: &[Hwnd],
        carried: &Region,
    ) -> Result<DirtyWindows, AllocError>
        requires { AreSorted moved.now }
        ensures area { IfOk result (λ ds. (w : ℕ) (p : Point) → region_has (area_in ds w) p ≡ (((region_has (area_in self.now w) p && region_has (region_in new.now w) p) && not (carries moved.now carried.now w p)) || exposes old.now new.now moved.now carried.now w p)) }
        ensures set { IfOk result (λ ds. (w : ℕ) (p : Point) → exposes old.now new.now moved.now carried.now w p ≡ true → erases_in ds w ≡ true) }
        ensures same { IfOk result (λ ds. (w : ℕ) → ((p : Point) → exposes old.now new.now moved.now carried.now w p ≡ false) → erases_in ds w ≡ erases_in self.now w) }
    {
        let mut entries = kept_of(alloc, &self.entries, new, moved, carried)?;
        expose_all(alloc, &mut entries, old, new, moved, carried)?;
        let clean = are_clean(&entries);
        Ok(DirtyWindows {
            alloc,
            entries,
            clean,
        })
    }
}
