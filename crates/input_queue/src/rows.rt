//! The untaken elements of all threads, in a list for each home.

ghost use Rattle.std.specs.Prelude.{◌≡◌, ◌+◌, ◌<◌, ◌≤◌, ◌==◌, ◌∷◌, ◌++◌, ◌&&◌, ℕ, [], All, Bool, List, None, Some, true, IfNone, IfSome, OnErr, OnOk, find, is_some, length, min, nat_lt, option_map, slice_get, slice_index_or};
ghost use Rattle.std.specs.Fn.{FnReturnsAt};
ghost use Rattle.std.specs.List.{list_any};
ghost use Rattle.win_num.specs.declared.message.Thread.{Thread};
ghost use Rattle.input_queue.specs.declared.element.Element.{Element};
ghost use Rattle.input_queue.specs.Elements.{Answers, first_takeable, last_of, of_group, reads_of, replaced_in, without, without_home, without_replaced};
ghost use Rattle.input_queue.specs.Rows.{IsKept, IsLeft, glance_of, has_home, head_of, merged, row, spot_of};

use crate::element::Element;
use crate::glance::{Glance, Spot, later, nearer};
use crate::row::Row;
use crate::steps::Steps;
use std::alloc::{AllocError, Global};
use std::array;
use std::sync::ledger::Ledger;
use win_num::Thread;
use win_num::names::WM_MOUSEMOVE;

/// How many lists there are: one for each thread from 1 to 15, and an empty one.
pub(crate) const HOMES: usize = 16;

/// How many untaken elements a group may have.
pub(crate) const MOST: usize = 512;

/// No elements. It takes no room.
pub(crate) fn no_rows(alloc: Global) -> [Row; 16]
    ensures kept { IsKept result }
    ensures empty { merged result ≡ [] }
{
    array::from_fn(|_| Row::new(alloc))
}

/// Whether the group has the thread of this number: it has bit t for thread t.
fn has(group: u16, home: usize) -> bool
    requires { home < 16 }
    ensures { result ≡ has_home group home }
{
    (group >> home) & 1 == 1
}

/// The list of a home.
fn row_at(rows: &[Row], home: usize) -> &Row
    requires { home < length rows.now }
    ensures { result.now ≡ row rows.now home }
{
    &rows[home]
}

/// The sum of two numbers of elements, where it is less than 512, else 512.
fn added(count: usize, more: usize) -> usize
    requires { count ≤ 512 }
    ensures { result ≡ min 512 (count + more) }
{
    MOST.min(count + MOST.min(more))
}

/// How many elements the group has, where it is fewer than 512, else 512.
pub(crate) fn count_of(rows: &[Row], group: u16) -> usize
    requires { IsKept rows.now }
    ensures { result ≡ min 512 (length (of_group group (merged rows.now))) }
{
    let mut count = 0;
    for home in 0..HOMES {
        if has(group, home) {
            count = added(count, row_at(rows, home).len());
        }
    }
    count
}

/// What a glance at the group's last element tells: that of the greatest number among the last ones of its members.
fn last_in(rows: &[Row], group: u16) -> Option<Glance>
    requires { IsKept rows.now }
    ensures { result ≡ option_map glance_of (last_of (of_group group (merged rows.now))) }
{
    let mut last = None;
    for home in 0..HOMES {
        if has(group, home) {
            last = later(last, row_at(rows, home).glance());
        }
    }
    last
}

/// The number of the element that a new one with this message replaces.
pub(crate) fn replaced_by(rows: &[Row], message: u32, group: u16) -> Option<u32>
    requires { IsKept rows.now }
    ensures { result ≡ replaced_in message group (merged rows.now) }
{
    if message != WM_MOUSEMOVE {
        return None;
    }
    match last_in(rows, group) {
        Some(last) if last.message == WM_MOUSEMOVE => Some(last.number),
        _ => None,
    }
}

/// The number of the next element of a member, of whose elements so many were read. For a thread of another group there is none.
fn head_in(rows: &[Row], seen: &[usize], group: u16, home: usize) -> Option<u32>
    requires rows { length rows.now ≡ 16 }
    requires seen { length seen.now ≡ 16 }
    requires home { home < 16 }
    ensures head { result ≡ head_of group rows.now seen.now home }
    ensures within { IfSome result (λ _. slice_index_or seen.now home 0 < length (row rows.now home)) }
{
    if !has(group, home) {
        return None;
    }
    row_at(rows, home).number(seen[home])
}

/// Where the group's next element is, of the least number among the next ones of its members.
fn next_in(rows: &[Row], seen: &[usize], group: u16) -> Option<Spot>
    requires rows { length rows.now ≡ 16 }
    requires seen { length seen.now ≡ 16 }
    ensures within { IfSome result (λ s. (s.home < 16) × (slice_index_or seen.now s.home 0 < length (row rows.now s.home))) }
    ensures next { (left : List Element) → IsLeft group rows.now seen.now left → result ≡ option_map spot_of (slice_get left 0) }
{
    let mut next = None;
    for home in 0..HOMES {
        next = nearer(next, home, head_in(rows, seen, group, home));
    }
    next
}

/// The first element of the group that thread `t` may take. The lists of the group's members are merged by rising
/// number, up to the element that ends the search.
pub(crate) fn first_in<T: Fn(&Element) -> Thread, F: Fn(&Element) -> bool, L: Ledger>(
    rows: &[Row],
    t: Thread,
    group: u16,
    target: T,
    pass: F,
    steps: &mut Steps<L>,
) -> Option<Element>
    requires kept { IsKept rows.now }
    requires targeted { T.IsAlwaysCallable target }
    requires tested { F.IsAlwaysCallable pass }
    ensures value { (target_of : Element → Thread) (test : Element → Bool) → Answers T.Fn target_of target → Answers F.Fn test pass → result ≡ first_takeable t target_of test (of_group group (merged rows.now)) }
    ensures reads { (target_of : Element → Thread) (test : Element → Bool) → Answers T.Fn target_of target → Answers F.Fn test pass → steps.new ≡ steps.old + reads_of t target_of test (of_group group (merged rows.now)) }
    ensures passed { IfSome result (λ x. FnReturnsAt F.Fn pass x true) }
{
    let mut seen = [0; 16];
    'elements: while let Some(spot) = next_in(rows, &seen, group) {
        let element = row_at(rows, spot.home).read(seen[spot.home], steps);
        if target(&element) != t {
            return None;
        }
        if pass(&element) {
            return Some(element);
        }
        seen[spot.home] += 1;
    }
    None
}

/// Whether an element has a number above this and passes, whoever takes it.
pub(crate) fn has_above<F: Fn(&Element) -> bool, L: Ledger>(
    rows: &[Row],
    number: u32,
    pass: F,
    steps: &mut Steps<L>,
) -> bool
    requires kept { IsKept rows.now }
    requires tested { F.IsAlwaysCallable pass }
    ensures { (test : Element → Bool) → Answers F.Fn test pass → result ≡ list_any (λ x. nat_lt number x.number && test x) (merged rows.now) }
{
    for home in 0..HOMES {
        if row_at(rows, home).has_above(number, &pass, steps) {
            return true;
        }
    }
    false
}

/// Puts an element behind all others.
pub(crate) fn push(rows: &mut [Row], e: Element) -> Result<(), AllocError>
    requires kept { IsKept rows.old }
    requires rising { All (λ x. x.number < e.number) (merged rows.old) }
    requires thread { e.home.0 < 16 }
    ensures kept { IsKept rows.new }
    ensures ok { OnOk result (merged rows.new ≡ merged rows.old ++ e ∷ []) }
    ensures err { OnErr result (merged rows.new ≡ merged rows.old) }
{
    let home = usize::from(e.home.0);
    rows[home].push(e)
}

/// In which list the element of this number is, if there is one.
fn holder(rows: &[Row], number: u32) -> Option<usize>
    requires { IsKept rows.now }
    ensures within { IfSome result (λ home. home < 16) }
    ensures found { IfSome result (λ home. is_some (find (λ x. x.number == number) (row rows.now home)) ≡ true) }
    ensures none { IfNone result (find (λ x. x.number == number) (merged rows.now) ≡ None) }
{
    for home in 0..HOMES {
        if row_at(rows, home).has(number) {
            return Some(home);
        }
    }
    None
}

/// Takes the element of this number out. `None` comes exactly where there is none.
pub(crate) fn take(rows: &mut [Row], number: u32) -> Option<Element>
    requires { IsKept rows.old }
    ensures kept { IsKept rows.new }
    ensures value { result ≡ find (λ x. x.number == number) (merged rows.old) }
    ensures left { merged rows.new ≡ without number (merged rows.old) }
{
    let home = holder(rows, number)?;
    rows[home].take(number)
}

/// Takes the element out that is replaced, if one is.
pub(crate) fn take_replaced(rows: &mut [Row], number: Option<u32>)
    requires { IsKept rows.old }
    ensures kept { IsKept rows.new }
    ensures left { merged rows.new ≡ without_replaced number (merged rows.old) }
{
    if let Some(number) = number {
        let _replaced = take(rows, number);
    }
}

/// Takes all elements with this home out.
pub(crate) fn clear(rows: &mut [Row], home: Thread)
    requires { IsKept rows.old }
    ensures kept { IsKept rows.new }
    ensures left { merged rows.new ≡ without_home home (merged rows.old) }
{
    let home = usize::from(home.0);
    if home < HOMES {
        rows[home].clear();
    }
}
