//! Groups of attached threads.

ghost use Rattle.std.specs.Prelude.{if◌then◌else◌, ◌≡◌, ◌≢◌, ◌↔◌, ℕ, ◌<◌, ◌==◌, ◌||◌, ◌⊎◌, slice_index};
ghost use Rattle.std.specs.Int.{bit_at};
ghost use Rattle.input_state.specs.Groups.{Joins, IsClosure, SetsPair, EndsLinks, link_at};

use crate::masks::{has, with_member, without_member};

/// The groups that the links make.
pub fn groups_of(links: &[u16; 16]) -> [u16; 16]
    ensures { IsClosure (Joins links.now) result }
{
    let mut groups = singles();
    for k in 0..256 {
        let from = k / 16;
        let to = k % 16;
        if has(links[from], to) {
            groups = joined(&groups, from, to);
        }
    }
    groups
}

/// Each thread alone.
fn singles() -> [u16; 16]
    ensures { (t u : ℕ) → t < 16 → u < 16 → (bit_at (slice_index result t) u ≡ 1) ↔ (t ≡ u) }
{
    let mut groups = [0; 16];
    for t in 0..16 {
        groups[t] = with_member(0, t);
    }
    groups
}

/// The groups with one more step: who reaches `from` reaches what `to` reaches.
fn joined(groups: &[u16; 16], from: usize, to: usize) -> [u16; 16]
    requires from { from < 16 }
    requires to { to < 16 }
    ensures { (t u : ℕ) → t < 16 → u < 16 → (bit_at (slice_index result t) u ≡ 1) ↔ ((bit_at (slice_index groups.now t) u ≡ 1) ⊎ ((bit_at (slice_index groups.now t) from ≡ 1) × (bit_at (slice_index groups.now to) u ≡ 1))) }
{
    let mut wider = *groups;
    for t in 0..16 {
        wider[t] = through(groups[t], groups[to], from);
    }
    wider
}

/// A group with what can be reached from there, if it has `from`.
fn through(group: u16, onward: u16, from: usize) -> u16
    requires { from < 16 }
    ensures { (u : ℕ) → (bit_at result u ≡ 1) ↔ ((bit_at group u ≡ 1) ⊎ ((bit_at group from ≡ 1) × (bit_at onward u ≡ 1))) }
{
    if has(group, from) {
        return group | onward;
    }
    group
}

/// The links with the pair, in both directions.
pub fn with_pair(links: &[u16; 16], a: usize, b: usize) -> [u16; 16]
    requires first { a < 16 }
    requires second { b < 16 }
    ensures { SetsPair links.now result a b 1 }
{
    let mut new = *links;
    new[a] = with_member(new[a], b);
    new[b] = with_member(new[b], a);
    new
}

/// The links without the pair, in both directions.
pub fn without_pair(links: &[u16; 16], a: usize, b: usize) -> [u16; 16]
    requires first { a < 16 }
    requires second { b < 16 }
    ensures { SetsPair links.now result a b 0 }
{
    let mut new = *links;
    new[a] = without_member(new[a], b);
    new[b] = without_member(new[b], a);
    new
}

/// The links without those of a thread.
pub fn without_thread(links: &[u16; 16], t: usize) -> [u16; 16]
    requires { t < 16 }
    ensures { EndsLinks links.now result t }
{
    let mut new = [0; 16];
    for u in 0..16 {
        new[u] = row_without(links, u, t);
    }
    new
}

/// Whom a thread is joined to without another thread, or nobody where it is that one.
fn row_without(links: &[u16; 16], u: usize, t: usize) -> u16
    requires row { u < 16 }
    requires thread { t < 16 }
    ensures { (v : ℕ) → v < 16 → bit_at result v ≡ (if (u == t) || (v == t) then 0 else link_at links.now u v) }
{
    if u == t {
        return 0;
    }
    without_member(links[u], t)
}
