//! Entries of windows, by rising number.

ghost use Rattle.std.specs.Prelude.{◌≡◌, ◌≢◌, ◌↔◌, ◌<◌, ℕ, false, All, IsTrue, IfOk, IfErr, OnOk, OnErr, option_copied, option_map};
ghost use Rattle.std.specs.List.{filter};
ghost use Rattle.band_region.specs.Regions.{IsEmpty};
ghost use Rattle.dirty_windows.specs.LookUps.{entry_of, entry_update, is_among, nothing, update_in, AreSorted, IsClean, RisesFrom};
ghost use Rattle.dirty_windows.specs.Places.{IsAt, IsMissingAt, IsPut, IsSettled};
ghost use Rattle.dirty_windows.specs.Changes.{IsAdded};

use band_region::Region;
use std::alloc::{AllocError, Global};
use update_region::Update;
use win_num::Hwnd;
use win_rows::has_number;

/// A window with its dirty pixels and its erase flag.
#[derive(Drop)]
pub struct DirtyWindow {
    /// The window's number, which is above 0.
    pub window: Hwnd,
    /// The dirty pixels, and whether the background is to be erased.
    pub update: Update,
}

/// Where the window's entry stands, or as an error where it would have to.
fn place_of(entries: &[DirtyWindow], w: Hwnd) -> Result<usize, usize>
    requires { RisesFrom 0 entries.now }
    ensures found { IfOk result (IsAt entries.now w.0) }
    ensures missing { IfErr result (IsMissingAt entries.now w.0) }
{
    let i = entries.partition_point(|d| d.window < w);
    if i < entries.len() && entries[i].window == w {
        Ok(i)
    } else {
        Err(i)
    }
}

/// What is dirty of the window. None comes where it has no entry.
pub fn update_of(entries: &[DirtyWindow], w: Hwnd) -> Option<&Update>
    requires { RisesFrom 0 entries.now }
    ensures { option_copied result ≡ option_map entry_update (entry_of entries.now w.0) }
{
    match place_of(entries, w) {
        Ok(i) => Some(&entries[i].update),
        Err(_) => None,
    }
}

/// What is dirty of the window, again.
pub fn copy_of(alloc: Global, entries: &[DirtyWindow], w: Hwnd) -> Result<Update, AllocError>
    requires { RisesFrom 0 entries.now }
    ensures { IfOk result (λ u. u ≡ update_in entries.now w.0) }
{
    match update_of(entries, w) {
        Some(update) => {
            let copy = update.copy(alloc)?;
            Ok(copy)
        }
        None => Ok(Update::new(alloc)),
    }
}

/// Whether there is neither a dirty pixel nor the flag.
fn is_nothing(update: &Update) -> bool
    ensures area { IsTrue result → IsEmpty update.now.area }
    ensures erases { IsTrue result → update.now.erases ≡ false }
{
    !update.erase() && update.is_empty()
}

/// Whether no entry has a dirty pixel.
pub fn are_clean(entries: &[DirtyWindow]) -> bool
    ensures { IsTrue result ↔ All IsClean entries.now }
{
    for d in entries {
        if !d.update.is_empty() {
            return false;
        }
    }
    true
}

/// Puts the update in the place of the window's.
fn put(entries: &mut Vec<DirtyWindow>, w: Hwnd, update: Update) -> Result<(), AllocError>
    requires rising { RisesFrom 0 entries.old.items }
    requires window { 0 < w.0 }
    ensures ok { OnOk result (IsPut w.0 update entries.old.items entries.new.items) }
    ensures err { OnErr result (entries.new.items ≡ entries.old.items) }
{
    match place_of(entries, w) {
        Ok(i) => {
            entries[i] = DirtyWindow { window: w, update };
            Ok(())
        }
        Err(i) => {
            entries.insert(i, DirtyWindow { window: w, update })?;
            Ok(())
        }
    }
}

/// Takes the window's entry out, if it has one.
pub fn remove(entries: &mut Vec<DirtyWindow>, w: Hwnd) -> Option<DirtyWindow>
    requires { RisesFrom 0 entries.old.items }
    ensures entry { result ≡ entry_of entries.old.items w.0 }
    ensures left { IsPut w.0 nothing entries.old.items entries.new.items }
{
    match place_of(entries, w) {
        Ok(i) => Some(entries.remove(i)),
        Err(_) => None,
    }
}

/// Takes out the entries of all windows but these.
pub fn keep_listed(entries: &mut Vec<DirtyWindow>, live: &[Hwnd])
    requires { AreSorted live.now }
    ensures { entries.new.items ≡ filter (λ d. is_among d.window.0 live.now) entries.old.items }
{
    entries.retain(|d| has_number(live, d.window));
}

/// Puts the update in the place of the window's. One without pixels and flag has no entry.
pub fn settle(entries: &mut Vec<DirtyWindow>, w: Hwnd, update: Update) -> Result<(), AllocError>
    requires rising { RisesFrom 0 entries.old.items }
    requires window { 0 < w.0 }
    ensures ok { OnOk result (IsSettled w.0 update entries.old.items entries.new.items) }
    ensures err { OnErr result (entries.new.items ≡ entries.old.items) }
{
    if is_nothing(&update) {
        remove(entries, w);
        return Ok(());
    }
    put(entries, w, update)
}

/// Makes the pixels dirty for the window, and sets its flag where `erase` is true.
pub fn add(
    alloc: Global,
    entries: &mut Vec<DirtyWindow>,
    w: Hwnd,
    part: &Region,
    erase: bool,
) -> Result<(), AllocError>
    requires rising { RisesFrom 0 entries.old.items }
    requires window { 0 < w.0 }
    ensures ok { OnOk result (IsAdded w.0 part.now erase entries.old.items entries.new.items) }
    ensures err { OnErr result (entries.new.items ≡ entries.old.items) }
{
    let mut update = copy_of(alloc, entries, w)?;
    update.invalidate(alloc, part, erase)?;
    settle(entries, w, update)
}
