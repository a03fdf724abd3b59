//! Walks up from a window.

ghost use Rattle.std.specs.Prelude.{◌≡◌, ℕ, not, map, filter, IfSome};
ghost use Rattle.std.specs.List.{list_any};
ghost use Rattle.std.specs.List.Sorted.{IsNonDecreasingBy};
ghost use Rattle.win_rows.specs.Windows.{IsOrdered, number_of};
ghost use Rattle.win_tree.specs.Kin.{above, parent_of, is_kin, is_below, top_of, is_alone, is_under, is_more, kin_of};

use std::alloc::Global;
use win_num::Hwnd;
use win_rows::{Rows, Window, has_number};

/// What the window stands under or is owned by, or 0.
fn above(windows: &Rows, w: Hwnd) -> Hwnd
    ensures { result ≡ above windows.now w.0 }
{
    match windows.find(w) {
        Some(x) => x.up(),
        None => Hwnd(0),
    }
}

/// The window's parent, or 0.
fn parent_of(windows: &Rows, w: Hwnd) -> Hwnd
    ensures { result ≡ parent_of windows.now w.0 }
{
    match windows.find(w) {
        Some(x) => x.row.parent,
        None => Hwnd(0),
    }
}

/// Whether w is v, or stands below v or is owned by it, by however many steps.
#[tactic(auto, using(crate::proofs::Walks::kin_nobody, crate::proofs::Walks::kin_same, crate::proofs::Walks::kin_up))]
pub fn is_kin(windows: &Rows, v: Hwnd, w: Hwnd) -> bool
    ensures { result ≡ is_kin windows.now v.0 w.0 }
{
    let mut at = w;
    'steps: for _ in 0..w.0 {
        if at == Hwnd(0) {
            return false;
        }
        if at == v {
            return true;
        }
        at = above(windows, at);
    }
    false
}

/// Whether w is a child of v, or of such a child, and so on.
#[tactic(auto, using(crate::proofs::Walks::below_nobody, crate::proofs::Walks::below_same, crate::proofs::Walks::below_up))]
pub fn is_below(windows: &Rows, v: Hwnd, w: Hwnd) -> bool
    ensures { result ≡ is_below windows.now v.0 w.0 }
{
    let mut at = w;
    'steps: for _ in 0..w.0 {
        at = parent_of(windows, at);
        if at == Hwnd(0) {
            return false;
        }
        if at == v {
            return true;
        }
    }
    false
}

/// The top-level ancestor of w.
#[tactic(auto, using(crate::proofs::Walks::top_here, crate::proofs::Walks::top_up))]
pub fn top_of(windows: &Rows, w: Hwnd) -> Hwnd
    ensures { result ≡ top_of windows.now w }
{
    let mut at = w;
    'steps: for _ in 0..w.0 {
        let parent = parent_of(windows, at);
        if parent == Hwnd(0) {
            return at;
        }
        at = parent;
    }
    at
}

/// The numbers of the window and its kin, which rise. None comes where memory wants, or for no window.
pub fn kin_numbers(alloc: Global, windows: &Rows, w: Hwnd) -> Option<Vec<Hwnd>>
    requires { (last : ℕ) × IsOrdered 15 last windows.now }
    ensures { IfSome result (λ kin. kin.items ≡ kin_of windows.now windows.now w.0) }
{
    if w == Hwnd(0) {
        return None;
    }
    let mut kin = Vec::new(alloc);
    for i in 0..windows.len() {
        let x = windows.at(i);
        if is_more(&kin, w, x) && kin.push(x.number).is_err() {
            return None;
        }
    }
    Some(kin)
}

/// Takes the numbers of the window and its kin out of those of the live windows. Without memory for the
/// list of the kin it walks up from each window.
pub fn take_kin(alloc: Global, windows: &Rows, w: Hwnd, numbers: &mut Vec<Hwnd>)
    requires ordered { (last : ℕ) × IsOrdered 15 last windows.now }
    requires numbers { numbers.old.items ≡ map number_of windows.now }
    ensures { numbers.new.items ≡ filter (λ v. not (is_kin windows.now w.0 v.0)) numbers.old.items }
{
    match kin_numbers(alloc, windows, w) {
        Some(kin) => numbers.retain(|v| !has_number(&kin, *v)),
        None => numbers.retain(|v| !is_kin(windows, w, *v)),
    }
}

/// Whether x is w, or stands directly under w or one of these.
fn is_more(kin: &[Hwnd], w: Hwnd, x: &Window) -> bool
    requires { IsNonDecreasingBy (λ v. v.0) kin.now }
    ensures { result ≡ is_more kin.now w.0 x.now }
{
    let up = x.up();
    x.number == w || up == w || has_number(kin, up)
}

/// Whether nothing stands directly below the window or is owned by it.
pub fn is_alone(windows: &Rows, w: Hwnd) -> bool
    ensures { result ≡ is_alone windows.now w.0 }
{
    if w == Hwnd(0) {
        return false;
    }
    !has_under(windows, w)
}

/// Whether the window is the parent or owner of one of these.
fn has_under(windows: &Rows, w: Hwnd) -> bool
    ensures { result ≡ list_any (is_under w.0) windows.now }
{
    for i in 0..windows.len() {
        let row = &windows.at(i).row;
        if row.parent == w || row.owner == w {
            return true;
        }
    }
    false
}
