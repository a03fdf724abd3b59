//! The table of slots. The slots of a thread are linked in the order of their places, and so are the free ones.

ghost use Rattle.std.specs.Prelude.{◌≡◌, ◌<◌, ℕ, List, Some, None, length, vec_len, slice_get, slice_set, slice_index_or, IfOk, IfSome, IfNone, replicate};
ghost use Rattle.send_variants.specs.declared.slot.Slot.{Slot};
ghost use Rattle.send_variants.specs.declared.slot.Ends.{Ends};
ghost use Rattle.send_variants.specs.Lists.{count_in, count_on};
ghost use Rattle.send_variants.specs.Tables.{Freed, IsAfterChanged, IsBeforeChanged, IsChangedAt, IsPut, IsReached, IsTaken, end_left, freed, listed, lists_in, no_ends, seen, slot_under, walk};

use crate::ready::Ready;
use crate::slot::{Ends, Slot};
use std::alloc::{AllocError, Global};
use win_num::SendId;

/// How many slots there are.
const ROOM: u16 = 1024;

/// All slots, free, with the key of the first one.
pub(crate) fn free_slots(alloc: Global) -> Result<(Vec<Slot>, Option<u16>), AllocError>
    ensures { IfOk result (λ r. (ks : List ℕ) × Freed (seen r.0.items 0) r.1 ks × (length ks ≡ 1024)) }
{
    let mut slots = Vec::with_capacity(alloc, usize::from(ROOM))?;
    let mut free = None;
    for key in 0..ROOM {
        slots.push(Slot {
            thread: 0,
            place: 0,
            ready: Ready::Send(SendId(0)),
            before: None,
            after: free,
        })?;
        free = Some(key);
    }
    Ok((slots, free))
}

/// The ends of so many empty lists.
pub(crate) fn empty_ends(alloc: Global, threads: u8) -> Result<Vec<Ends>, AllocError>
    ensures { IfOk result (λ ends. ends.items ≡ replicate threads no_ends) }
{
    let mut ends = Vec::with_capacity(alloc, usize::from(threads))?;
    for _ in 0..threads {
        ends.push(Ends {
            first: None,
            last: None,
        })?;
    }
    Ok(ends)
}

/// Puts an entry last in a list, in the first free slot.
pub(crate) fn put_last(slots: &mut Vec<Slot>, free: &mut Option<u16>, ends: &mut Ends, slot: Slot)
    ensures { (key : ℕ) (was : Slot) → free.old ≡ Some key → slice_get slots.old.items key ≡ Some was → IsPut slots.old.items slots.new.items free.new ends.old ends.new key was slot }
{
    if let Some(key) = fill(slots, free, slot) {
        join_after(slots, &mut ends.first, ends.last, Some(key));
        ends.last = Some(key);
    }
}

/// Takes the entry of a slot out of its list, and frees the slot.
pub(crate) fn take_out(
    slots: &mut Vec<Slot>,
    free: &mut Option<u16>,
    ends: &mut Ends,
    key: u16,
) -> Option<(u32, Ready)>
    ensures { (was : Slot) → slice_get slots.old.items key ≡ Some was → IsTaken slots.old.items slots.new.items free.old free.new ends.old ends.new key was result }
{
    let slot = vacate(slots, free, key)?;
    join_after(slots, &mut ends.first, slot.before, slot.after);
    join_before(slots, &mut ends.last, slot.after, slot.before);
    Some((slot.place, slot.ready))
}

/// The slot under a key, if there is one.
pub(crate) fn slot_under(slots: &Vec<Slot>, at: Option<u16>) -> Option<Slot>
    ensures { result ≡ slot_under slots.now.items at }
{
    slots.get(usize::from(at?)).copied()
}

/// In which list a send is named, and under which key. `None` exactly where in none.
pub(crate) fn holder(slots: &Vec<Slot>, ends: &Vec<Ends>, send: SendId) -> Option<(usize, u16)>
    ensures none { IfNone result (count_on send.0 (lists_in slots.now.items ends.now.items) ≡ 0) }
    ensures some { IfSome result (λ r. (r.0 < length ends.now.items) × IsReached slots.now.items (slice_index_or ends.now.items r.0 no_ends).first send.0 r.1) }
{
    for i in 0..ends.len() {
        if let Some(key) = find(slots, ends[i].first, send) {
            return Some((i, key));
        }
    }
    None
}

/// Where a send is named among the slots of a list, from the first one on.
fn find(slots: &Vec<Slot>, first: Option<u16>, send: SendId) -> Option<u16>
    ensures none { IfNone result (count_in send.0 (walk (slice_get slots.now.items) 1024 first) ≡ 0) }
    ensures some { IfSome result (λ key. IsReached slots.now.items first send.0 key) }
{
    let mut at = first;
    for _ in 0..ROOM {
        let slot = slot_under(slots, at)?;
        if slot.ready.send().0 == send.0 {
            return at;
        }
        at = slot.after;
    }
    None
}

/// Puts a slot in the place of the first free one, and answers its key.
fn fill(slots: &mut Vec<Slot>, free: &mut Option<u16>, slot: Slot) -> Option<u16>
    ensures { (key : ℕ) (was : Slot) → free.old ≡ Some key → slice_get slots.old.items key ≡ Some was → (result ≡ Some key) × (free.new ≡ was.after) × (slots.new.items ≡ slice_set slots.old.items key slot) }
{
    let key = (*free)?;
    let i = usize::from(key);
    if slots.len() <= i {
        return None;
    }
    *free = slots[i].after;
    slots[i] = slot;
    Some(key)
}

/// Frees a slot, and answers what it was.
fn vacate(slots: &mut Vec<Slot>, free: &mut Option<u16>, key: u16) -> Option<Slot>
    ensures { (was : Slot) → slice_get slots.old.items key ≡ Some was → (result ≡ Some was) × (free.new ≡ Some key) × (slots.new.items ≡ slice_set slots.old.items key (freed was free.old)) }
{
    let i = usize::from(key);
    if slots.len() <= i {
        return None;
    }
    let slot = &mut slots[i];
    let was = *slot;
    slot.thread = 0;
    slot.after = *free;
    *free = Some(key);
    Some(was)
}

/// Says which slot comes after the one under this key, or first where there is none.
fn join_after(slots: &mut Vec<Slot>, first: &mut Option<u16>, at: Option<u16>, after: Option<u16>)
    ensures slots { IsChangedAt at (IsAfterChanged after) (slice_get slots.old.items) (slice_get slots.new.items) }
    ensures first { first.new ≡ end_left at first.old after }
{
    match at {
        Some(key) => set_after(slots, key, after),
        None => *first = after,
    }
}

/// Says which slot comes before the one under this key, or last where there is none.
fn join_before(slots: &mut Vec<Slot>, last: &mut Option<u16>, at: Option<u16>, before: Option<u16>)
    ensures slots { IsChangedAt at (IsBeforeChanged before) (slice_get slots.old.items) (slice_get slots.new.items) }
    ensures last { last.new ≡ end_left at last.old before }
{
    match at {
        Some(key) => set_before(slots, key, before),
        None => *last = before,
    }
}

/// Says which slot comes after the one under this key.
fn set_after(slots: &mut Vec<Slot>, key: u16, after: Option<u16>)
    ensures { IsChangedAt (Some key) (IsAfterChanged after) (slice_get slots.old.items) (slice_get slots.new.items) }
{
    let i = usize::from(key);
    if i < slots.len() {
        slots[i].after = after;
    }
}

/// Says which slot comes before the one under this key.
fn set_before(slots: &mut Vec<Slot>, key: u16, before: Option<u16>)
    ensures { IsChangedAt (Some key) (IsBeforeChanged before) (slice_get slots.old.items) (slice_get slots.new.items) }
{
    let i = usize::from(key);
    if i < slots.len() {
        slots[i].before = before;
    }
}
