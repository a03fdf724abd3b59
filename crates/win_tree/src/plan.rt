//! The order of a destruction that was begun, and how far it has come.

ghost use Rattle.std.specs.Prelude.{◌≡◌, ◌==◌, ℕ, not, ◌||◌, ◌∷◌, [], map, filter, slice_index_or, Some, IfSome};
ghost use Rattle.win_rows.specs.Destruction.{answer_of, destruction_of};
ghost use Rattle.win_tree.specs.Plans.{is_given, AllGiven, IsReached, HasPlan, IsPlan};
ghost use Rattle.win_rows.specs.Windows.{IsOrdered, is_ended, is_live, is_told, window_of};

use crate::kin::is_alone;
use std::alloc::Global;
use win_num::Hwnd;
use win_rows::{Rows, Unmade, Window, put_step, steps_of};

/// The steps of a window's destruction in their order. Those before the next were given.
#[derive(Drop)]
pub struct Plan {
    pub root: Hwnd,
    pub steps: Vec<Unmade>,
    pub next: usize,
}

/// The plan of a window's destruction. None comes where the window isn't live or memory wants.
pub fn begun(alloc: Global, rows: &Rows, w: Hwnd) -> Option<Plan>
    requires { (last : ℕ) × IsOrdered 15 last rows.now }
    ensures { IfSome result (IsPlan rows.now) }
{
    let x = rows.find(w)?;
    let steps = listed(alloc, rows, w, x)?;
    Some(Plan {
        root: w,
        steps,
        next: 0,
    })
}

/// The steps of x's destruction, x being the window w, in their order. None comes where memory wants.
fn listed(alloc: Global, rows: &Rows, w: Hwnd, x: &Window) -> Option<Vec<Unmade>>
    requires { window_of rows.now w.0 ≡ Some x.now }
    ensures { IfSome result (λ steps. steps.items ≡ map answer_of (destruction_of rows.now x.now)) }
{
    if is_alone(rows, w) {
        alone_steps(alloc, w)
    } else {
        steps_of(alloc, rows, x)
    }
}

/// The steps of a window that nothing stands under.
fn alone_steps(alloc: Global, w: Hwnd) -> Option<Vec<Unmade>>
    ensures { IfSome result (λ steps. steps.items ≡ Unmade.Tell w ∷ Unmade.Last w ∷ []) }
{
    let mut steps = Vec::new(alloc);
    put_step(&mut steps, Unmade::Tell(w))?;
    put_step(&mut steps, Unmade::Last(w))?;
    Some(steps)
}

/// Lets go the plan of a window.
pub fn forget(plans: &mut Vec<Plan>, w: Hwnd)
    ensures { plans.new.items ≡ filter (λ p. not (p.root.0 == w.0)) plans.old.items }
{
    plans.retain(|p| p.root != w);
}

/// The place of a window's plan.
pub fn plan_of(plans: &[Plan], w: Hwnd) -> Option<usize>
    ensures { IfSome result (HasPlan plans.now w) }
{
    for i in 0..plans.len() {
        if plans[i].root == w {
            return Some(i);
        }
    }
    None
}

/// The first step of a plan that wasn't given; the root's last message once none is left.
pub fn planned(rows: &Rows, plan: &Plan) -> Unmade
    requires { AllGiven rows.now plan.now.steps.items plan.now.next }
    ensures { (k : ℕ) × IsReached rows.now plan.now.steps.items k × (result ≡ slice_index_or plan.now.steps.items k (Unmade.Last plan.now.root)) }
{
    let k = reached(rows, plan);
    if k < plan.steps.len() {
        plan.steps[k]
    } else {
        Unmade::Last(plan.root)
    }
}

/// The place of the first step of a plan that wasn't given.
pub fn reached(rows: &Rows, plan: &Plan) -> usize
    requires { AllGiven rows.now plan.now.steps.items plan.now.next }
    ensures { IsReached rows.now plan.now.steps.items result }
{
    for k in plan.next..plan.steps.len() {
        if !is_given(rows, plan.steps[k]) {
            return k;
        }
    }
    plan.steps.len()
}

/// Whether a step was given, or its window has gone.
fn is_given(rows: &Rows, step: Unmade) -> bool
    ensures { result ≡ is_given rows.now step }
{
    match step {
        Unmade::Tell(w) => was_told(rows, w),
        Unmade::Last(w) => has_ended(rows, w),
        Unmade::Gone | Unmade::NotDoomed => true,
    }
}

/// Whether the window was told, or has gone.
fn was_told(rows: &Rows, w: Hwnd) -> bool
    ensures { result ≡ (not (is_live rows.now w.0) || is_told rows.now w.0) }
{
    match rows.find(w) {
        Some(x) => x.told,
        None => true,
    }
}

/// Whether the window got its last message, or has gone.
fn has_ended(rows: &Rows, w: Hwnd) -> bool
    ensures { result ≡ (not (is_live rows.now w.0) || is_ended rows.now w.0) }
{
    match rows.find(w) {
        Some(x) => x.ended,
        None => true,
    }
}
