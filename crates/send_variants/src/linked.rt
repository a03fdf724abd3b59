//! The entries of all threads, in linked slots.

ghost use Rattle.std.specs.Prelude.{◌≡◌, ◌+◌, ◌<◌, ◌≤◌, ◌∷◌, ◌++◌, ℕ, Some, [], length, vec_len, slice_index_or, slice_set, drop, replicate, slice_get, option_map, IfOk, IfNone, IfSome};
ghost use Rattle.send_variants.specs.declared.slot.Slot.{Slot};
ghost use Rattle.send_variants.specs.declared.slot.Ends.{Ends};
ghost use Rattle.send_variants.specs.Lists.{AreBelow, IsSound, IsThread, IsWithdrawn, all_without, count_on, list_of, named_by, place_on, total, with_list};
ghost use Rattle.send_variants.specs.Tables.{IsPut, IsTaken, no_ends, slot_of};

use crate::ready::Ready;
use crate::slot::{Ends, Slot};
use crate::table::{empty_ends, free_slots, holder, put_last, slot_under, take_out};
use std::alloc::{AllocError, Global};
use std::marker::Model;
use win_num::{SendId, Thread};

/// One list of entries for each thread, in the order of their places. At most 1,024 entries stand in all
/// lists together, and at most one of them names a send.
#[derive(Drop)]
pub(crate) struct LinkedLists {
    slots: Vec<Slot>,
    /// Those of each thread's list.
    ends: Vec<Ends>,
    /// The key of the first free slot.
    free: Option<u16>,
}

impl Model for LinkedLists {
    ghost use Rattle.std.specs.Prelude.{List, ℕ};
    ghost use Rattle.send_variants.specs.declared.ready.Ready.{Ready};
    ghost use Rattle.send_variants.specs.Lists.{IsSound};
    ghost use Rattle.send_variants.specs.Tables.{IsTable, lists_in};

    ghost Value = { List (List (ℕ × Ready)) };

    ghost view = { λ a. lists_in a.slots.items a.ends.items };

    ghost invariant = { λ a. IsTable a.slots.items a.ends.items a.free × IsSound (lists_in a.slots.items a.ends.items) };
}

impl LinkedLists {
    /// An empty list for each thread, with room for 1,024 entries.
    pub(crate) fn new(alloc: Global, threads: u8) -> Result<LinkedLists, AllocError>
        requires { (1 ≤ threads) × (threads ≤ 15) }
        ensures { IfOk result (λ lists. lists ≡ replicate threads []) }
    {
        let ends = empty_ends(alloc, threads)?;
        let (slots, free) = free_slots(alloc)?;
        Ok(LinkedLists { slots, ends, free })
    }

    /// Puts an entry at the end of a thread's list.
    pub(crate) fn put(&mut self, t: Thread, place: u32, r: Ready)
        requires thread { IsThread self.old t.0 }
        requires above { AreBelow place (list_of self.old t.0) }
        requires room { total self.old < 1024 }
        requires unnamed { count_on (named_by r) self.old ≡ 0 }
        ensures put { self.new ≡ with_list self.old t.0 (list_of self.old t.0 ++ (place, r) ∷ []) }
        ensures threads { length self.new ≡ length self.old }
        ensures sound { IsSound self.new }
    {
        let at = usize::from(t.0) - 1;
        put_at(
            &mut self.slots,
            &mut self.ends,
            &mut self.free,
            at,
            place,
            r,
        );
    }

    /// What is ready at the least place of a thread's list, `None` exactly where the list is empty.
    pub(crate) fn head(&self, t: Thread) -> Option<Ready>
        requires { IsThread self.now t.0 }
        ensures head { result ≡ option_map (λ e. e.1) (slice_get (list_of self.now t.0) 0) }
        ensures sound { IsSound self.now }
    {
        let at = usize::from(t.0) - 1;
        let slot = slot_under(&self.slots, self.ends[at].first)?;
        Some(slot.ready)
    }

    /// Takes the entry at the least place of a thread's list, and tells its place. `None` exactly where the
    /// list is empty.
    pub(crate) fn take(&mut self, t: Thread) -> Option<(u32, Ready)>
        requires { IsThread self.old t.0 }
        ensures taken { result ≡ slice_get (list_of self.old t.0) 0 }
        ensures rest { self.new ≡ with_list self.old t.0 (drop 1 (list_of self.old t.0)) }
        ensures threads { length self.new ≡ length self.old }
        ensures sound { IsSound self.new }
    {
        let at = usize::from(t.0) - 1;
        let key = self.ends[at].first?;
        take_at(&mut self.slots, &mut self.ends, &mut self.free, at, key)
    }

    /// Takes a send out of every list, and tells which list had it and the place of its entry. `None` exactly
    /// where no list has it.
    pub(crate) fn withdraw(&mut self, s: SendId) -> Option<(usize, u32)>
        ensures place { option_map (λ r. r.1) result ≡ place_on s.0 self.old }
        ensures rest { self.new ≡ all_without s.0 self.old }
        ensures from { IfSome result (λ r. IsWithdrawn self.old self.new r.0 r.1) }
        ensures same { IfNone result (self.new ≡ self.old) }
        ensures sound { IsSound self.new }
    {
        let (at, key) = holder(&self.slots, &self.ends, s)?;
        with_place(
            at,
            take_at(&mut self.slots, &mut self.ends, &mut self.free, at, key),
        )
    }
}

/// Puts an entry last in the list of the thread whose number is one above `at`.
fn put_at(
    slots: &mut Vec<Slot>,
    ends: &mut Vec<Ends>,
    free: &mut Option<u16>,
    at: usize,
    place: u32,
    ready: Ready,
)
    requires at { at < vec_len ends.old }
    requires few { at < 15 }
    ensures { (key : ℕ) (was : Slot) → free.old ≡ Some key → slice_get slots.old.items key ≡ Some was → (pair : Ends) × IsPut slots.old.items slots.new.items free.new (slice_index_or ends.old.items at no_ends) pair key was (slot_of at place ready (slice_index_or ends.old.items at no_ends)) × (ends.new.items ≡ slice_set ends.old.items at pair) }
{
    let pair = &mut ends[at];
    let slot = Slot {
        thread: at as u32 + 1,
        place,
        ready,
        before: pair.last,
        after: None,
    };
    put_last(slots, free, pair, slot);
}

/// Takes the entry of a slot out of its list, whose thread has the number one above `at`.
fn take_at(
    slots: &mut Vec<Slot>,
    ends: &mut Vec<Ends>,
    free: &mut Option<u16>,
    at: usize,
    key: u16,
) -> Option<(u32, Ready)>
    requires { at < vec_len ends.old }
    ensures { (was : Slot) → slice_get slots.old.items key ≡ Some was → (pair : Ends) × IsTaken slots.old.items slots.new.items free.old free.new (slice_index_or ends.old.items at no_ends) pair key was result × (ends.new.items ≡ slice_set ends.old.items at pair) }
{
    take_out(slots, free, &mut ends[at], key)
}

/// The number beside the place of an entry, if there is one.
fn with_place(at: usize, entry: Option<(u32, Ready)>) -> Option<(usize, u32)>
    ensures { result ≡ option_map (λ e. (at, e.0)) entry }
{
    let (place, _) = entry?;
    Some((at, place))
}
