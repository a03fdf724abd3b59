//! Slots that are linked in posted order.

ghost use Rattle.std.specs.Prelude.{◌≡◌, ◌++◌, ◌∷◌, [], ◌<◌, ◌≤◌, ◌^◌, ℕ, Bool, List, nat_lt, not, filter, count_by, OnOk, OnErr, All, length};
ghost use Rattle.std.specs.Fn.{FnReturnsAt};
ghost use Rattle.std.specs.List.{list_any};
ghost use Rattle.win_num.specs.declared.message.Hwnd.{Hwnd};
ghost use Rattle.slab.specs.Slab.{get};
ghost use Rattle.post_queue.specs.Queue.{FindsFirst, count_above, count_for, message_of, post_of, without_number};
ghost use Rattle.post_queue.specs.Chains.{IsAfterChanged, IsBeforeChanged, IsChain, IsChangedAt, end_left, posted_at, posted_in, posted_of};

use crate::index::Index;
use crate::sealed::Sealed;
use crate::slot::Slot;
use crate::steps::Steps;
use slab::Slab;
use std::alloc::{AllocError, Global};
use std::sync::ledger::Ledger;
use win_num::{Hwnd, Msg};

/// Messages in slots that are linked in posted order, and where the slot of each number is.
#[derive(Drop)]
pub(crate) struct Chain {
    pub(crate) slots: Slab<Slot>,
    pub(crate) index: Index,
    /// The key of the first slot.
    pub(crate) first: Option<usize>,
    /// The key of the last slot.
    pub(crate) last: Option<usize>,
}

/// No message.
pub(crate) fn no_messages(alloc: Global) -> Chain
    ensures chain { IsChain result }
    ensures empty { posted_in result ≡ [] }
{
    Chain {
        slots: Slab::new(alloc),
        index: Index::new(alloc),
        first: None,
        last: None,
    }
}

/// Puts a message last, under a number above all others.
pub(crate) fn push(chain: &mut Chain, number: u32, msg: Msg) -> Result<(), AllocError>
    requires chain { IsChain chain.old }
    requires above { All (λ p. p.number < number) (posted_in chain.old) }
    ensures chain { IsChain chain.new }
    ensures ok { OnOk result (posted_in chain.new ≡ posted_in chain.old ++ post_of number msg ∷ []) }
    ensures err { OnErr result (posted_in chain.new ≡ posted_in chain.old) }
{
    chain.slots.reserve(1)?;
    let key = chain.slots.vacant_key();
    chain.index.push(number, key)?;
    chain.slots.insert_reserved(Slot {
        number,
        hwnd: msg.hwnd,
        sealed: Sealed::new(msg),
        before: chain.last,
        after: None,
    });
    join_after(&mut chain.slots, &mut chain.first, chain.last, Some(key));
    chain.last = Some(key);
    Ok(())
}

/// Takes out the message of a number, and links those beside it. None comes exactly where there is none.
pub(crate) fn take(chain: &mut Chain, number: u32) -> Option<Msg>
    requires { IsChain chain.old }
    ensures chain { IsChain chain.new }
    ensures message { result ≡ message_of (posted_in chain.old) number }
    ensures rest { posted_in chain.new ≡ without_number (posted_in chain.old) number }
    ensures parts { (us vs : List (ℕ × ℕ)) (key : ℕ) → chain.old.index.entries ≡ us ++ (number, key) ∷ vs → (chain.new.index.entries ≡ us ++ vs) × (posted_at (get chain.new.slots) us ≡ posted_at (get chain.old.slots) us) × (posted_at (get chain.new.slots) vs ≡ posted_at (get chain.old.slots) vs) }
{
    let key = chain.index.take(number)?;
    let slot = chain.slots.remove(key);
    join_after(&mut chain.slots, &mut chain.first, slot.before, slot.after);
    join_before(&mut chain.slots, &mut chain.last, slot.after, slot.before);
    Some(slot.sealed.into_msg())
}

/// Takes all messages out.
pub(crate) fn clear(chain: &mut Chain)
    ensures chain { IsChain chain.new }
    ensures empty { posted_in chain.new ≡ [] }
{
    chain.slots.clear();
    chain.index.clear();
    chain.first = None;
    chain.last = None;
}

/// The first message that passes, with its number, read from the front.
pub(crate) fn first_in<F: Fn(&Msg) -> bool, L: Ledger>(
    chain: &Chain,
    pass: F,
    steps: &mut Steps<L>,
) -> Option<(u32, Msg)>
    requires callable { F.IsAlwaysCallable pass }
    requires chain { IsChain chain.now }
    ensures { FindsFirst (FnReturnsAt F.Fn pass) (posted_in chain.now) result steps.old steps.new }
{
    let mut at = chain.first;
    'slots: while let Some(key) = at {
        let slot = &chain.slots[key];
        let msg = slot.sealed.read(steps);
        if pass(&msg) {
            return Some((slot.number, msg));
        }
        at = slot.after;
    }
    None
}

/// Whether a message has a number above this: the last has the greatest.
pub(crate) fn has_above(chain: &Chain, number: u32) -> bool
    requires { IsChain chain.now }
    ensures { result ≡ list_any (λ p. nat_lt number p.number) (posted_in chain.now) }
{
    let Some(key) = chain.last else {
        return false;
    };
    match chain.slots.get(key) {
        Some(slot) => number < slot.number,
        None => false,
    }
}

/// How many messages have a number above this.
pub(crate) fn count_above(chain: &Chain, number: u32) -> u32
    requires chain { IsChain chain.now }
    requires few { length (posted_in chain.now) < 2 ^ 32 }
    ensures { result ≡ count_by (λ p. nat_lt number p.number) (posted_in chain.now) }
{
    let mut count = 0;
    let mut at = chain.first;
    'slots: while let Some(key) = at {
        let slot = &chain.slots[key];
        count += one_above(slot, number);
        at = slot.after;
    }
    count
}

/// One where the message has a number above this.
fn one_above(slot: &Slot, number: u32) -> u32
    ensures { result ≡ count_by (λ p. nat_lt number p.number) (posted_of slot.now ∷ []) }
{
    u32::from(number < slot.number)
}

/// How many messages are for the window, and how many of them have a number above `look`.
pub(crate) fn counted(chain: &Chain, w: Hwnd, look: u32) -> (u32, u32)
    requires chain { IsChain chain.now }
    requires few { length (posted_in chain.now) < 2 ^ 32 }
    ensures count { result.0 ≡ count_for (posted_in chain.now) w.0 }
    ensures fresh { result.1 ≡ count_above (posted_in chain.now) w.0 look }
{
    let mut count = 0;
    let mut fresh = 0;
    let mut at = chain.first;
    'slots: while let Some(key) = at {
        let slot = &chain.slots[key];
        let (more, newer) = counts_of(slot, w, look);
        count += more;
        fresh += newer;
        at = slot.after;
    }
    (count, fresh)
}

/// One where the message is for the window, and one where its number is above `look` too.
fn counts_of(slot: &Slot, w: Hwnd, look: u32) -> (u32, u32)
    ensures count { result.0 ≡ count_for (posted_of slot.now ∷ []) w.0 }
    ensures fresh { result.1 ≡ count_above (posted_of slot.now ∷ []) w.0 look }
{
    let here = slot.hwnd.0 == w.0;
    (u32::from(here), u32::from(here && look < slot.number))
}

/// Takes out the messages whose window goes.
pub(crate) fn purge<F: Fn(Hwnd) -> bool>(chain: &mut Chain, goes: F)
    requires callable { F.IsAlwaysCallable goes }
    requires chain { IsChain chain.old }
    ensures chain { IsChain chain.new }
    ensures fewer { length (posted_in chain.new) ≤ length (posted_in chain.old) }
    ensures rest { (test : ℕ → Bool) → ((w : Hwnd) (b : Bool) → F.post goes w b → b ≡ test w.0) → posted_in chain.new ≡ filter (λ p. not (test p.msg.hwnd.0)) (posted_in chain.old) }
{
    let mut at = chain.first;
    'slots: while let Some(key) = at {
        let slot = &chain.slots[key];
        let number = slot.number;
        let window = slot.hwnd;
        at = slot.after;
        if goes(window) {
            take(chain, number);
        }
    }
}

/// Says which slot comes after the one under this key, or first where there is none.
fn join_after(
    slots: &mut Slab<Slot>,
    first: &mut Option<usize>,
    at: Option<usize>,
    after: Option<usize>,
)
    ensures slots { IsChangedAt at (IsAfterChanged after) (get slots.old) (get slots.new) }
    ensures first { first.new ≡ end_left at first.old after }
{
    match at {
        Some(_) => set_after(slots, at, after),
        None => *first = after,
    }
}

/// Says which slot comes before the one under this key, or last where there is none.
fn join_before(
    slots: &mut Slab<Slot>,
    last: &mut Option<usize>,
    at: Option<usize>,
    before: Option<usize>,
)
    ensures slots { IsChangedAt at (IsBeforeChanged before) (get slots.old) (get slots.new) }
    ensures last { last.new ≡ end_left at last.old before }
{
    match at {
        Some(_) => set_before(slots, at, before),
        None => *last = before,
    }
}

/// Says which slot comes after the one under this key, if there is one.
fn set_after(slots: &mut Slab<Slot>, at: Option<usize>, after: Option<usize>)
    ensures { IsChangedAt at (IsAfterChanged after) (get slots.old) (get slots.new) }
{
    if let Some(key) = at {
        if let Some(slot) = slots.get_mut(key) {
            slot.after = after;
        }
    }
}

/// Says which slot comes before the one under this key, if there is one.
fn set_before(slots: &mut Slab<Slot>, at: Option<usize>, before: Option<usize>)
    ensures { IsChangedAt at (IsBeforeChanged before) (get slots.old) (get slots.new) }
{
    if let Some(key) = at {
        if let Some(slot) = slots.get_mut(key) {
            slot.before = before;
        }
    }
}
