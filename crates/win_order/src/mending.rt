//! Mending: topmost windows come above all others, and owned windows above their owners.

ghost use Rattle.std.specs.Prelude.{◌≡◌, ℕ, suc, ◌*◌, ◌++◌, [], false, not, ◌||◌, ◌==◌, nat_eq, length, reverse, IfOk, OnOk};
ghost use Rattle.std.specs.List.{filter, list_any};
ghost use Rattle.win_order.specs.Marks.{IsMarked};
ghost use Rattle.win_order.specs.Mending.{owned_by, not_owned_by, parted, rewritten, mended};

use crate::top_level::TopLevel;
use indexmap::IndexSet;
use std::alloc::{AllocError, Global};
use win_num::Hwnd;

/// The list of top-level windows, from the bottom to the top, mended.
pub fn mended(alloc: Global, list: &[TopLevel]) -> Result<Vec<TopLevel>, AllocError>
    ensures { IfOk result (λ v. v.items ≡ mended list.now) }
{
    let next = parted_from_top(alloc, list)?;
    rewritten(alloc, next)
}

/// The windows that aren't topmost below those that are, listed from the top to the bottom.
fn parted_from_top(alloc: Global, list: &[TopLevel]) -> Result<Vec<TopLevel>, AllocError>
    ensures { IfOk result (λ v. v.items ≡ reverse (parted list.now)) }
{
    let mut parted = ordinary(alloc, list)?;
    parted.extend_from_slice(&topmost(alloc, list)?)?;
    parted.reverse();
    Ok(parted)
}

/// The windows that aren't topmost.
fn ordinary(alloc: Global, list: &[TopLevel]) -> Result<Vec<TopLevel>, AllocError>
    ensures { IfOk result (λ v. v.items ≡ filter (λ t. not t.topmost) list.now) }
{
    list.iter().filter(|t| !t.topmost).copied().collect(alloc)
}

/// The topmost windows.
fn topmost(alloc: Global, list: &[TopLevel]) -> Result<Vec<TopLevel>, AllocError>
    ensures { IfOk result (λ v. v.items ≡ filter (λ t. t.topmost) list.now) }
{
    list.iter().filter(|t| t.topmost).copied().collect(alloc)
}

/// A list that is written anew from the bottom.
#[derive(Drop)]
pub struct Rewriting {
    written: Vec<TopLevel>,
    held: Vec<TopLevel>,
    /// From the top to the bottom.
    next: Vec<TopLevel>,
    /// The windows that are written.
    marked: IndexSet<u32>,
    /// The owners for which held windows wait or have waited.
    awaited: IndexSet<u32>,
}

/// The list written anew from the bottom. `next` has it from the top to the bottom.
fn rewritten(alloc: Global, next: Vec<TopLevel>) -> Result<Vec<TopLevel>, AllocError>
    ensures { IfOk result (λ v. v.items ≡ rewritten (2 * length next.items) [] [] (reverse next.items)) }
{
    let steps = 2 * next.len();
    let mut list = Rewriting {
        written: Vec::with_capacity(alloc, next.len())?,
        held: Vec::new(alloc),
        next,
        marked: IndexSet::new(alloc),
        awaited: IndexSet::new(alloc),
    };
    'steps: for _ in 0..steps {
        write_next(alloc, &mut list)?;
    }
    whole(list)
}

/// The written windows, below those held and those that come next.
fn whole(list: Rewriting) -> Result<Vec<TopLevel>, AllocError>
    ensures { IfOk result (λ v. v.items ≡ list.written.items ++ list.held.items ++ reverse list.next.items) }
{
    let Rewriting {
        mut written,
        held,
        mut next,
        ..
    } = list;
    written.extend_from_slice(&held)?;
    next.reverse();
    written.extend_from_slice(&next)?;
    Ok(written)
}

/// One step: the window that comes next is held back or written.
fn write_next(alloc: Global, list: &mut Rewriting) -> Result<(), AllocError>
    requires { IsMarked list.old.written.items list.old.held.items list.old.marked.keys list.old.awaited.keys }
    ensures marked { OnOk result (IsMarked list.new.written.items list.new.held.items list.new.marked.keys list.new.awaited.keys) }
    ensures step { OnOk result ((n : ℕ) → rewritten n list.new.written.items list.new.held.items (reverse list.new.next.items) ≡ rewritten (suc n) list.old.written.items list.old.held.items (reverse list.old.next.items)) }
{
    let Some(top) = list.next.pop() else {
        return Ok(());
    };
    if !follows(&list.marked, top) {
        list.awaited.insert(top.owner.0)?;
        list.held.push(top)?;
        return Ok(());
    }
    list.marked.insert(top.window.0)?;
    list.written.push(top)?;
    release(
        alloc,
        top.window,
        &list.awaited,
        &mut list.held,
        &mut list.next,
    )
}

/// Whether the window has no owner, or its owner is marked as written.
fn follows(marked: &IndexSet<u32>, top: TopLevel) -> bool
    ensures { result ≡ ((top.owner.0 == 0) || list_any (nat_eq top.owner.0) marked.now.keys) }
{
    top.owner == Hwnd(0) || marked.contains(&top.owner.0)
}

/// Moves the windows that this one owns from those held back to the front of those that come next,
/// which lie from the last to the first. Where none waits for it, none is looked at.
fn release(
    alloc: Global,
    owner: Hwnd,
    awaited: &IndexSet<u32>,
    held: &mut Vec<TopLevel>,
    next: &mut Vec<TopLevel>,
) -> Result<(), AllocError>
    requires { (list_any (nat_eq owner.0) awaited.now.keys ≡ false) → (owned_by owner.0 held.old.items ≡ []) }
    ensures held { OnOk result (held.new.items ≡ not_owned_by owner.0 held.old.items) }
    ensures next { OnOk result (reverse next.new.items ≡ owned_by owner.0 held.old.items ++ reverse next.old.items) }
{
    if !awaited.contains(&owner.0) {
        return Ok(());
    }
    let mut owned = owned_by(alloc, owner, held)?;
    owned.reverse();
    next.extend_from_slice(&owned)?;
    held.retain(|t| t.owner != owner);
    Ok(())
}

/// Those that the window owns.
fn owned_by(alloc: Global, owner: Hwnd, held: &[TopLevel]) -> Result<Vec<TopLevel>, AllocError>
    ensures { IfOk result (λ v. v.items ≡ owned_by owner.0 held.now) }
{
    held.iter()
        .filter(|t| t.owner == owner)
        .copied()
        .collect(alloc)
}
