//! Update regions.

ghost use Rattle.std.specs.Prelude.{◌≡◌, ◌↔◌, [], false, not, ◌&&◌, ◌||◌, IsTrue, IfOk, OnOk, OnErr, if◌then◌else◌};
ghost use Rattle.win_num.specs.declared.shapes.Point.{Point};
ghost use Rattle.band_region.specs.Regions.{region_has, IsEmpty};

use band_region::Region;
use std::alloc::{AllocError, Global};
use std::marker::Model;
use std::mem;

/// The dirty pixels of a window, and its erase flag.
#[derive(Drop)]
pub struct Update {
    alloc: Global,
    region: Region,
    flag: bool,
}

impl Model for Update {
    ghost use Rattle.update_region.specs.Updates.{Dirty};

    ghost Value = { Dirty };

    ghost view = { λ a. record { area = a.region; erases = a.flag } };
}

impl Update {
    /// No dirty pixel, and the flag clear.
    pub fn new(alloc: Global) -> Update
        ensures area { result.area ≡ [] }
        ensures erases { result.erases ≡ false }
    {
        Update {
            alloc,
            region: Region::empty(alloc),
            flag: false,
        }
    }

    /// Adds the pixels, and sets the flag where `erase` is true (Microsoft, InvalidateRgn function).
    pub fn invalidate(&mut self, alloc: Global, add: &Region, erase: bool) -> Result<(), AllocError>
        ensures area { OnOk result ((p : Point) → region_has self.new.area p ≡ (region_has self.old.area p || region_has add.now p)) }
        ensures erases { OnOk result (self.new.erases ≡ (self.old.erases || erase)) }
        ensures err { OnErr result (self.new ≡ self.old) }
    {
        let region = self.region.or(alloc, add)?;
        self.region = region;
        self.flag = self.flag || erase;
        Ok(())
    }

    /// Takes the pixels out, and clears the flag where none is left (Microsoft, ValidateRgn function).
    pub fn validate(&mut self, alloc: Global, less: &Region) -> Result<(), AllocError>
        ensures area { OnOk result ((p : Point) → region_has self.new.area p ≡ (region_has self.old.area p && not (region_has less.now p))) }
        ensures cleared { OnOk result (IsEmpty self.new.area → self.new.erases ≡ false) }
        ensures kept { OnOk result ((IsEmpty self.new.area → ⊥) → self.new.erases ≡ self.old.erases) }
        ensures err { OnErr result (self.new ≡ self.old) }
    {
        let region = self.region.diff(alloc, less)?;
        self.flag = self.flag && region.kind() != 1;
        self.region = region;
        Ok(())
    }

    /// Takes the pixels out that a move brings along as they were, and leaves the flag as it is (Microsoft,
    /// SetWindowPos function: valid contents are copied back after a move). Want of memory is the only error.
    pub fn carry(&mut self, less: &Region) -> Result<(), AllocError>
        ensures area { OnOk result ((p : Point) → region_has self.new.area p ≡ (region_has self.old.area p && not (region_has less.now p))) }
        ensures erases { self.new.erases ≡ self.old.erases }
        ensures err { OnErr result (self.new ≡ self.old) }
    {
        let region = self.region.diff(self.alloc, less)?;
        self.region = region;
        Ok(())
    }

    /// Leaves the common pixels, and the flag as it is.
    pub fn keep(&mut self, alloc: Global, owned: &Region) -> Result<(), AllocError>
        ensures area { OnOk result ((p : Point) → region_has self.new.area p ≡ (region_has self.old.area p && region_has owned.now p)) }
        ensures erases { self.new.erases ≡ self.old.erases }
        ensures err { OnErr result (self.new ≡ self.old) }
    {
        self.region = self.region.and(alloc, owned)?;
        Ok(())
    }

    /// The same dirty pixels and the same flag.
    pub fn copy(&self, alloc: Global) -> Result<Update, AllocError>
        ensures { IfOk result (λ u. u ≡ self.now) }
    {
        let region = self.region.copy(alloc)?;
        Ok(Update {
            alloc: self.alloc,
            region,
            flag: self.flag,
        })
    }

    /// The erase flag.
    pub fn erase(&self) -> bool
        ensures { result ≡ self.now.erases }
    {
        self.flag
    }

    /// The dirty pixels and the flag. No pixel is dirty then, and the flag is clear.
    pub fn take(&mut self) -> (Region, bool)
        ensures region { result.0 ≡ self.old.area }
        ensures flag { result.1 ≡ self.old.erases }
        ensures area { self.new.area ≡ [] }
        ensures erases { self.new.erases ≡ false }
    {
        let region = mem::replace(&mut self.region, Region::empty(self.alloc));
        let flag = mem::replace(&mut self.flag, false);
        (region, flag)
    }

    /// Whether no pixel is dirty.
    pub fn is_empty(&self) -> bool
        ensures { IsTrue result ↔ IsEmpty self.now.area }
    {
        self.region.kind() == 1
    }

    /// The dirty pixels.
    pub fn dirty(&self) -> &Region
        ensures { result.now ≡ self.now.area }
    {
        &self.region
    }
}
