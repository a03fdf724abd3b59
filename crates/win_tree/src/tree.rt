//! The table of windows.

ghost use Rattle.std.specs.Prelude.{◌≡◌, ℕ, ◌+◌, ◌<◌, ◌++◌, ◌∷◌, [], List, length, map, not, IsTrue, IfOk, OnOk, OnErr, MatchResult, Option, Some, None, IfNone, IfSome, ◌^◌, ◌==◌, option_copied, option_map};
ghost use Rattle.std.specs.List.{filter, list_any};
ghost use Rattle.std.specs.List.Sorted.{IsNonDecreasingBy};
ghost use Rattle.win_rows.specs.Windows.{IsOrdered, Windows, no_windows, number_of, window_of, is_live, is_marked, is_ended, told_if, ended_if, set_if, next_child, next_top, up, marked_if, RisesFrom};
ghost use Rattle.win_rows.specs.declared.window.Window.{Window};
ghost use Rattle.win_tree.specs.Kin.{with_marked, IsFaultFor, is_bad, refusal, next_number, settled, with_window, doomed, doom_refusal, dropped, drop_refusal, is_below, is_alone, is_kin, is_of_other, without_thread, has_class};
ghost use Rattle.win_rows.specs.Destruction.{unmade, given, next_step};

use crate::kin::{is_alone, is_below, is_kin, kin_numbers, take_kin, top_of};
use crate::plan::{Plan, begun, forget, plan_of, planned, reached};
use std::alloc::{AllocError, Global};
use std::marker::Model;
use win_num::names::WS_CHILD;
use win_num::{Code, Fault, Hwnd, Rect, Thread};
use win_rows::{Rows, Unmade, Window, WindowRow, first_left, has_number};

/// How many windows may be live.
const LIVE: usize = 1024;

/// ERROR_INVALID_WINDOW_HANDLE's number (Microsoft, System Error Codes).
const NO_SUCH_WINDOW: u16 = 1400;

/// ERROR_TLW_WITH_WSCHILD's number (Microsoft, System Error Codes).
const CHILD_WITHOUT_PARENT: u16 = 1406;

/// ERROR_INVALID_PARAMETER's number (Microsoft, System Error Codes).
const NOT_ENDED: u16 = 87;

/// The live windows. Contracts see the number that was given last, and the windows with the oldest first.
#[derive(Drop)]
pub struct Tree {
    last: u32,
    rows: Rows,
    numbers: Vec<Hwnd>,
    plans: Vec<Plan>,
}

impl Model for Tree {
    ghost use Rattle.std.specs.Prelude.{◌≡◌, map};
    ghost use Rattle.win_rows.specs.Windows.{IsOrdered, Windows, number_of};
    ghost use Rattle.win_tree.specs.Plans.{EachPlan};

    ghost Value = { Windows };

    ghost view = { λ t. record { last = t.last; live = t.rows } };

    ghost invariant = { λ t. (t.numbers.items ≡ map number_of t.rows) × IsOrdered 15 t.last t.rows × EachPlan t.rows t.plans.items };
}

impl Tree {
    /// No window. The first that is added gets the number 16. Takes no memory.
    pub fn new(alloc: Global) -> Tree
        ensures { result ≡ no_windows }
    {
        Tree {
            last: 15,
            rows: Rows::new(alloc),
            numbers: Vec::new(alloc),
            plans: Vec::new(alloc),
        }
    }

    /// The same windows, and the same number that was given last.
    pub fn copy(&self) -> Result<Tree, AllocError>
        ensures { IfOk result (λ t. t ≡ self.now) }
    {
        let alloc = *self.numbers.allocator();
        Ok(Tree {
            last: self.last,
            rows: copied(alloc, &self.rows)?,
            numbers: Vec::from_slice(alloc, &self.numbers)?,
            plans: Vec::new(alloc),
        })
    }

    /// Adds a window and answers its number, one above the last that was given: 16, 17 and so on, and
    /// none is given twice (Microsoft, CreateWindowEx function). A child has no owner, and an owner that
    /// is a child is replaced by its top-level ancestor. `Win(1400)` comes exactly where the parent or
    /// the owner isn't 0 and is not live, or is marked; else `Win(1406)` where the style has WS_CHILD
    /// and the parent is 0; else `Full` where 1,024 windows are live or all numbers of 32 bits are given.
    pub fn add(&mut self, row: WindowRow) -> Result<Hwnd, Fault>
        ensures number { IfOk result (λ w. w ≡ next_number self.old) }
        ensures ok { OnOk result (self.new ≡ with_window self.old row) }
        ensures cause { MatchResult result (λ _. refusal self.old row ≡ None) (λ fault. IsFaultFor (refusal self.old row) fault) }
        ensures err { OnErr result (self.new ≡ self.old) }
    {
        if let Some(code) = self.refusal(&row) {
            return Err(Fault::Refused(code));
        }
        let number = Hwnd(self.last + 1);
        let kept = settled(&self.rows, &row);
        if self.push(Window::new(number, kept)).is_err() {
            return Err(Fault::Memory);
        }
        Ok(number)
    }

    /// Why a window can't be made, room aside.
    fn refusal(&self, row: &WindowRow) -> Option<Code>
        ensures cause { result ≡ refusal self.now row.now }
        ensures next { IfNone result (self.now.last + 1 < 2 ^ 32) }
    {
        if is_bad(&self.rows, row.parent) || is_bad(&self.rows, row.owner) {
            return Some(Code::Win(NO_SUCH_WINDOW));
        }
        if u64::from(row.style) & WS_CHILD != 0 && row.parent == Hwnd(0) {
            return Some(Code::Win(CHILD_WITHOUT_PARENT));
        }
        if self.rows.len() >= LIVE || self.last == u32::MAX {
            return Some(Code::Full);
        }
        None
    }

    /// Puts a window last, whose number becomes the last.
    fn push(&mut self, window: Window) -> Result<(), AllocError>
        requires rises { self.old.last < window.number.0 }
        requires older { (up window).0 < window.number.0 }
        requires owner { window.row.owner.0 < window.number.0 }
        ensures ok { OnOk result (self.new ≡ record { last = window.number.0; live = self.old.live ++ window ∷ [] }) }
        ensures err { OnErr result (self.new ≡ self.old) }
    {
        self.numbers.reserve(1)?;
        self.rows.push(window)?;
        self.numbers.push(window.number).unwrap();
        self.last = window.number.0;
        self.plans.clear();
        Ok(())
    }

    /// Takes back the window that was added last, if it is live, with its number. Takes no memory.
    pub fn forget_newest(&mut self)
        ensures { (t : Windows) (x : Window) → IsOrdered 15 t.last t.live → x.number.0 ≡ t.last + 1 → self.old ≡ record { last = t.last + 1; live = t.live ++ x ∷ [] } → self.new ≡ t }
    {
        let count = self.rows.len();
        if count == 0 || self.rows.at(count - 1).number.0 != self.last {
            return;
        }
        self.numbers.remove(count - 1);
        self.rows.take_out(count - 1);
        self.last -= 1;
        self.plans.clear();
    }

    /// The window as it was added, with the style and place that were set last. None comes exactly where
    /// it isn't live.
    pub fn row(&self, w: Hwnd) -> Option<&WindowRow>
        ensures { option_copied result ≡ option_map (λ x. x.row) (window_of self.now.live w.0) }
    {
        match self.rows.find(w) {
            Some(x) => Some(&x.row),
            None => None,
        }
    }

    /// Sets the style, extended style and place of a live window (Microsoft, SetWindowLong and
    /// SetWindowPos functions).
    pub fn set_row(&mut self, w: Hwnd, style: u32, ex: u32, place: Rect)
        requires { IsTrue (is_live self.old.live w.0) }
        ensures { self.new ≡ record self.old { live = map (set_if w.0 style ex place) self.old.live } }
    {
        set_row(&mut self.rows, w, style, ex, place);
    }

    /// Marks a window with all that stands below it or is owned by it, by however many steps (Microsoft,
    /// DestroyWindow function). `Win(1400)` comes exactly where it isn't live or is marked, and changes
    /// nothing. Takes memory for the steps to come where there is some, and goes on without where not.
    pub fn doom(&mut self, w: Hwnd) -> Result<(), Code>
        ensures ok { OnOk result (self.new ≡ record self.old { live = doomed self.old.live w.0 }) }
        ensures cause { MatchResult result (λ _. doom_refusal self.old.live w.0 ≡ None) (λ code. doom_refusal self.old.live w.0 ≡ Some code) }
        ensures err { OnErr result (self.new ≡ self.old) }
    {
        match self.rows.find(w) {
            Some(x) if !x.marked => {}
            _ => return Err(Code::Win(NO_SUCH_WINDOW)),
        }
        mark_kin(*self.numbers.allocator(), &mut self.rows, w);
        self.plan(w);
        Ok(())
    }

    /// The first step of the window's destruction that wasn't given yet, which is given with it: all
    /// steps of each window that it owns, by number; then `Tell` for it and all below it, each window
    /// before its children, and children by number; then `Last` for the same, each window after its
    /// children. Once all are given it answers its `Last` again. `Gone` comes exactly where the window
    /// isn't live, `NotDoomed` exactly where it is live and not marked (Microsoft, DestroyWindow function).
    pub fn unmake(&mut self, w: Hwnd) -> Unmade
        ensures answer { result ≡ unmade self.old.live w.0 }
        ensures given { self.new ≡ record self.old { live = given result self.old.live } }
    {
        self.plan(w);
        let step = self.next_step(w);
        give(&mut self.rows, step);
        self.advance(w);
        step
    }

    /// Keeps the steps of a marked window's destruction, where there is memory for them. Without it each
    /// step is searched for.
    fn plan(&mut self, w: Hwnd)
        ensures { self.new ≡ self.old }
    {
        if !self.marked(w) || plan_of(&self.plans, w).is_some() {
            return;
        }
        if let Some(plan) = begun(*self.numbers.allocator(), &self.rows, w) {
            let _kept = self.plans.push(plan);
        }
    }

    /// Passes over the steps that were given.
    fn advance(&mut self, w: Hwnd)
        ensures { self.new ≡ self.old }
    {
        if let Some(i) = plan_of(&self.plans, w) {
            let next = reached(&self.rows, &self.plans[i]);
            self.plans[i].next = next;
        }
    }

    /// What `unmake` would answer.
    pub fn next_step(&self, w: Hwnd) -> Unmade
        ensures { result ≡ unmade self.now.live w.0 }
    {
        let Some(x) = self.rows.find(w) else {
            return Unmade::Gone;
        };
        if !x.marked {
            return Unmade::NotDoomed;
        }
        match plan_of(&self.plans, w) {
            Some(i) => planned(&self.rows, &self.plans[i]),
            None => searched(&self.rows, x),
        }
    }

    /// Takes out a window that `Last` was answered for, with all that stands below it or is owned by it,
    /// by however many steps. `Win(1400)` comes exactly where it isn't live, else `Win(87)` where `Last`
    /// didn't give it; both change nothing. Takes memory for a list of the kin where there is some, and
    /// goes on without where not.
    pub fn drop_one(&mut self, w: Hwnd) -> Result<(), Code>
        ensures ok { OnOk result (self.new ≡ record self.old { live = dropped self.old.live w.0 }) }
        ensures cause { MatchResult result (λ _. drop_refusal self.old.live w.0 ≡ None) (λ code. drop_refusal self.old.live w.0 ≡ Some code) }
        ensures err { OnErr result (self.new ≡ self.old) }
    {
        match self.rows.find(w) {
            Some(x) if x.ended => {}
            Some(_) => return Err(Code::Win(NOT_ENDED)),
            None => return Err(Code::Win(NO_SUCH_WINDOW)),
        }
        self.drop_kin(w);
        Ok(())
    }

    /// Takes out a window with its kin.
    fn drop_kin(&mut self, w: Hwnd)
        ensures { self.new ≡ record self.old { live = dropped self.old.live w.0 } }
    {
        if is_alone(&self.rows, w) {
            self.drop_alone(w);
        } else {
            self.drop_each(w);
        }
    }

    /// Takes out a window that has no other kin.
    fn drop_alone(&mut self, w: Hwnd)
        requires { IsTrue (is_alone self.old.live w.0) }
        ensures { self.new ≡ record self.old { live = dropped self.old.live w.0 } }
    {
        if let Some(i) = self.rows.place_of(w) {
            self.numbers.remove(i);
            self.rows.take_out(i);
            forget(&mut self.plans, w);
        }
    }

    /// Takes out each window that is of the window's kin.
    fn drop_each(&mut self, w: Hwnd)
        ensures { self.new ≡ record self.old { live = dropped self.old.live w.0 } }
    {
        let alloc = *self.numbers.allocator();
        take_kin(alloc, &self.rows, w, &mut self.numbers);
        self.rows.keep(&self.numbers);
        self.plans.clear();
    }

    /// Takes out all windows of a thread. Takes no memory.
    pub fn drop_thread(&mut self, thread: Thread)
        ensures { self.new ≡ record self.old { live = without_thread self.old.live thread.0 } }
    {
        let rows = &self.rows;
        self.numbers.retain(|w| is_of_other(rows, thread, *w));
        self.rows.keep(&self.numbers);
        self.plans.clear();
    }

    /// Whether a live window has the class.
    pub fn has_class(&self, class: u32) -> bool
        ensures { result ≡ has_class self.now.live class }
    {
        for i in 0..self.rows.len() {
            if self.rows.at(i).row.class == class {
                return true;
            }
        }
        false
    }

    /// The live window of a number of 64 bits, which is compared as it was written. None comes exactly
    /// where no live window has it.
    pub fn find(&self, w: u64) -> Option<Hwnd>
        ensures window { result ≡ option_map number_of (window_of self.now.live w) }
        ensures same { IfSome result (λ window. window.0 ≡ w) }
    {
        if w > u64::from(self.last) {
            return None;
        }
        match self.rows.find(Hwnd(w as u32)) {
            Some(x) => Some(x.number),
            None => None,
        }
    }

    /// The number that was given last, 15 before the first.
    pub fn last(&self) -> u32
        ensures { result ≡ self.now.last }
    {
        self.last
    }

    /// Whether the window is live and marked.
    pub fn marked(&self, w: Hwnd) -> bool
        ensures { result ≡ is_marked self.now.live w.0 }
    {
        match self.rows.find(w) {
            Some(x) => x.marked,
            None => false,
        }
    }

    /// Whether the window is live and was given by `Last`.
    pub fn last_given(&self, w: Hwnd) -> bool
        ensures { result ≡ is_ended self.now.live w.0 }
    {
        match self.rows.find(w) {
            Some(x) => x.ended,
            None => false,
        }
    }

    /// The live windows, by rising number. The parent or owner of each is older than itself.
    pub fn windows(&self) -> &[Hwnd]
        ensures numbers { result.now ≡ map number_of self.now.live }
        ensures ordered { IsOrdered 15 self.now.last self.now.live }
    {
        &self.numbers
    }

    /// Whether w is a child of `above`, or of such a child, and so on (Microsoft, IsChild function).
    pub fn is_child(&self, above: Hwnd, w: Hwnd) -> bool
        ensures { result ≡ is_below self.now.live above.0 w.0 }
    {
        is_below(&self.rows, above, w)
    }

    /// Whether w is `above`, or stands below it or is owned by it, by however many steps.
    pub fn is_kin(&self, above: Hwnd, w: Hwnd) -> bool
        ensures { result ≡ is_kin self.now.live above.0 w.0 }
    {
        is_kin(&self.rows, above, w)
    }

    /// The top-level window of least number above w, or 0 where there is none. w is any number.
    pub fn next_top(&self, w: Hwnd) -> Hwnd
        ensures { result ≡ next_top self.now.live w.0 }
    {
        self.next_child(Hwnd(0), w)
    }

    /// The child of a window, or for 0 the top-level window, of least number above a number, or 0 where there is none.
    pub fn next_child(&self, parent: Hwnd, above: Hwnd) -> Hwnd
        ensures { result ≡ next_child self.now.live parent.0 above.0 }
    {
        for i in 0..self.rows.len() {
            let x = self.rows.at(i);
            if x.row.parent == parent && above < x.number {
                return x.number;
            }
        }
        Hwnd(0)
    }
}

/// The same windows.
fn copied(alloc: Global, windows: &Rows) -> Result<Rows, AllocError>
    requires { RisesFrom 0 windows.now }
    ensures { IfOk result (λ copy. copy ≡ windows.now) }
{
    let mut copy = Rows::new(alloc);
    for i in 0..windows.len() {
        copy.push(*windows.at(i))?;
    }
    Ok(copy)
}

/// The first step of x's destruction that wasn't given.
fn searched(windows: &Rows, x: &Window) -> Unmade
    requires live { window_of windows.now x.now.number.0 ≡ Some x.now }
    requires rising { RisesFrom 0 windows.now }
    ensures { result ≡ next_step windows.now x.now }
{
    match first_left(windows, x) {
        Some(step) => step,
        None => Unmade::Last(x.number),
    }
}

/// Whether the window can't be a parent or an owner: it isn't 0, and not live or marked.
fn is_bad(windows: &Rows, w: Hwnd) -> bool
    ensures { result ≡ is_bad windows.now w.0 }
{
    if w == Hwnd(0) {
        return false;
    }
    match windows.find(w) {
        Some(x) => x.marked,
        None => true,
    }
}

/// Whether the window is live and of another thread.
fn is_of_other(windows: &Rows, thread: Thread, w: Hwnd) -> bool
    ensures { result ≡ is_of_other windows.now thread.0 w.0 }
{
    match windows.find(w) {
        Some(x) => x.row.thread != thread,
        None => false,
    }
}

/// The row that is kept of a new window.
fn settled(windows: &Rows, row: &WindowRow) -> WindowRow
    ensures { result ≡ settled windows.now row.now }
{
    let owner = if row.parent == Hwnd(0) {
        top_of(windows, row.owner)
    } else {
        Hwnd(0)
    };
    WindowRow { owner, ..*row }
}

/// Sets the style, extended style and place of a window.
fn set_row(windows: &mut Rows, w: Hwnd, style: u32, ex: u32, place: Rect)
    ensures { windows.new ≡ map (set_if w.0 style ex place) windows.old }
{
    if let Some(i) = windows.place_of(w) {
        let x = windows.at(i).set_if(w, style, ex, place);
        windows.put(i, x);
    }
}

/// Marks a window with its kin.
fn mark_kin(alloc: Global, windows: &mut Rows, w: Hwnd)
    requires { (last : ℕ) × IsOrdered 15 last windows.old }
    ensures { windows.new ≡ doomed windows.old w.0 }
{
    if is_alone(windows, w) {
        mark_one(windows, w);
        return;
    }
    match kin_numbers(alloc, windows, w) {
        Some(kin) => mark_these(windows, &kin),
        None => mark_each(windows, w),
    }
}

/// Marks the windows of these numbers, which rise.
fn mark_these(windows: &mut Rows, kin: &[Hwnd])
    requires { IsNonDecreasingBy (λ v. v.0) kin.now }
    ensures { windows.new ≡ with_marked kin.now windows.old }
{
    for i in 0..windows.len() {
        let x = *windows.at(i);
        let also = has_number(kin, x.number);
        windows.put(i, x.marked_also(also));
    }
}

/// Marks a window alone.
fn mark_one(windows: &mut Rows, w: Hwnd)
    ensures { windows.new ≡ map (marked_if w.0) windows.old }
{
    if let Some(i) = windows.place_of(w) {
        let x = windows.at(i).marked_if(w);
        windows.put(i, x);
    }
}

/// Marks each window that is of the window's kin.
fn mark_each(windows: &mut Rows, w: Hwnd)
    ensures { windows.new ≡ doomed windows.old w.0 }
{
    for i in 0..windows.len() {
        let x = *windows.at(i);
        let also = is_kin(windows, w, x.number);
        windows.put(i, x.marked_also(also));
    }
}

/// Gives what was answered.
fn give(windows: &mut Rows, step: Unmade)
    ensures { windows.new ≡ given step windows.old }
{
    match step {
        Unmade::Tell(w) => tell(windows, w),
        Unmade::Last(w) => end(windows, w),
        Unmade::Gone | Unmade::NotDoomed => {}
    }
}

/// Notes that a window was told.
fn tell(windows: &mut Rows, w: Hwnd)
    ensures { windows.new ≡ map (told_if w.0) windows.old }
{
    if let Some(i) = windows.place_of(w) {
        let x = windows.at(i).told_if(w);
        windows.put(i, x);
    }
}

/// Notes that a window got its last message.
fn end(windows: &mut Rows, w: Hwnd)
    ensures { windows.new ≡ map (ended_if w.0) windows.old }
{
    if let Some(i) = windows.place_of(w) {
        let x = windows.at(i).ended_if(w);
        windows.put(i, x);
    }
}
