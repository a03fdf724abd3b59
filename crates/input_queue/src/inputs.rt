//! All elements that are untaken.

ghost use Rattle.std.specs.Prelude.{◌≡◌, ◌↔◌, ◌+◌, ◌≤◌, ◌<◌, ◌⊎◌, ◌==◌, ◌&&◌, [], length, find, nat_lt, All, Bool, true, None, IsTrue, IfErr, IfSome, OnOk, OnErr};
ghost use Rattle.std.specs.Fn.{FnReturnsAt};
ghost use Rattle.std.specs.List.{list_any};
ghost use Rattle.win_num.specs.declared.message.Thread.{Thread};
ghost use Rattle.input_queue.specs.declared.element.Element.{Element};
ghost use Rattle.input_queue.specs.Elements.{AreRising, is_in, of_group, without, without_home, lacks_place, reads_of, replaced, with_element, first_takeable, Answers};

use crate::element::Element;
use crate::row::Row;
use crate::rows::{
    MOST, clear, count_of, first_in, has_above, no_rows, push, replaced_by, take, take_replaced,
};
use crate::steps::Steps;
use std::alloc::Global;
use std::marker::{Brand, Model};
use std::sync::ledger::{Blank, Ledger};
use win_num::{Code, Fault, Thread};

/// The untaken elements of all threads, by rising number.
#[derive(Drop)]
pub struct Inputs {
    /// Those of each home, by its number. No element has the home 0.
    rows: [Row; 16],
}

impl Model for Inputs {
    ghost use Rattle.std.specs.Prelude.{List};
    ghost use Rattle.input_queue.specs.declared.element.Element.{Element};

    ghost Value = { List Element };

    ghost use Rattle.input_queue.specs.Rows.{IsKept, merged};

    ghost view = { λ a. merged a.rows };

    ghost invariant = { λ a. IsKept a.rows };
}

impl Inputs {
    /// No elements. It takes no room.
    pub fn new(alloc: Global) -> Inputs
        ensures { result ≡ [] }
    {
        Inputs {
            rows: no_rows(alloc),
        }
    }

    /// Puts a new element behind the others. Its number is above theirs; its home is 1 to 15 and one of the
    /// group, which has bit t for thread t. A mouse move replaces the group's last element where that is a
    /// move too (Microsoft, WM_MOUSEMOVE message). `Full` comes exactly where it replaces none and the group
    /// has at least 512 elements; the limit is this project's own.
    pub fn add(&mut self, e: Element, group: u16) -> Result<(), Fault>
        requires rising { All (λ x. x.number < e.number) self.old }
        requires thread { (1 ≤ e.home.0) × (e.home.0 ≤ 15) }
        requires member { IsTrue (is_in group e.home) }
        ensures ok { OnOk result (self.new ≡ with_element e group self.old) }
        ensures full { (result ≡ Err (Fault.Refused Code.Full)) ↔ (replaced e group self.old ≡ None) × (512 ≤ length (of_group group self.old)) }
        ensures other { IfErr result (λ code. (code ≡ Fault.Refused Code.Full) ⊎ (code ≡ Fault.Memory)) }
        ensures err { OnErr result (self.new ≡ self.old) }
    {
        let before = replaced_by(&self.rows, e.message, group);
        if before.is_none() && count_of(&self.rows, group) >= MOST {
            return Err(Fault::Refused(Code::Full));
        }
        if push(&mut self.rows, e).is_err() {
            return Err(Fault::Memory);
        }
        take_replaced(&mut self.rows, before);
        Ok(())
    }

    /// Whether a new element with this message has no place in the group: it replaces none, and the group has at least 512 elements.
    pub fn lacks_place(&self, message: u32, group: u16) -> bool
        ensures { result ≡ lacks_place message group self.now }
    {
        replaced_by(&self.rows, message, group).is_none() && count_of(&self.rows, group) >= MOST
    }

    /// The first element of the group that thread `t` may take: its target is `t`, it passes, and no element
    /// of the group before it has another target. It stays in the queue. `None` comes exactly where there is
    /// none.
    pub fn first_for<T: Fn(&Element) -> Thread, F: Fn(&Element) -> bool>(
        &self,
        t: Thread,
        group: u16,
        target: T,
        pass: F,
    ) -> Option<Element>
        requires targeted { T.IsAlwaysCallable target }
        requires tested { F.IsAlwaysCallable pass }
        ensures value { (target_of : Element → Thread) (test : Element → Bool) → Answers T.Fn target_of target → Answers F.Fn test pass → result ≡ first_takeable t target_of test (of_group group self.now) }
        ensures passed { IfSome result (λ x. FnReturnsAt F.Fn pass x true) }
        ensures rising { AreRising self.now }
    {
        first_uncounted::<T, F, Brand>(Blank::new(1), self, t, group, target, pass)
    }

    /// The same, in one step for each element that it reads: those of the group from the first on, up to the first one with another
    /// target than `t`, or the first one that passes, whichever comes first.
    pub fn first_counted<T: Fn(&Element) -> Thread, F: Fn(&Element) -> bool, L: Ledger>(
        &self,
        t: Thread,
        group: u16,
        target: T,
        pass: F,
        steps: &mut Steps<L>,
    ) -> Option<Element>
        requires targeted { T.IsAlwaysCallable target }
        requires tested { F.IsAlwaysCallable pass }
        ensures value { (target_of : Element → Thread) (test : Element → Bool) → Answers T.Fn target_of target → Answers F.Fn test pass → result ≡ first_takeable t target_of test (of_group group self.now) }
        ensures reads { (target_of : Element → Thread) (test : Element → Bool) → Answers T.Fn target_of target → Answers F.Fn test pass → steps.new ≡ steps.old + reads_of t target_of test (of_group group self.now) }
        ensures passed { IfSome result (λ x. FnReturnsAt F.Fn pass x true) }
        ensures rising { AreRising self.now }
    {
        first_in(&self.rows, t, group, target, pass, steps)
    }

    /// Whether an element has a number above this and passes, wherever it stands and whoever takes it.
    pub fn has_above<F: Fn(&Element) -> bool>(&self, number: u32, pass: F) -> bool
        requires { F.IsAlwaysCallable pass }
        ensures { (test : Element → Bool) → Answers F.Fn test pass → result ≡ list_any (λ x. nat_lt number x.number && test x) self.now }
    {
        above_uncounted::<F, Brand>(Blank::new(1), self, number, pass)
    }

    /// Takes the element of this number out. `None` comes exactly where there is none.
    pub fn take(&mut self, number: u32) -> Option<Element>
        ensures value { result ≡ find (λ x. x.number == number) self.old }
        ensures left { self.new ≡ without number self.old }
    {
        take(&mut self.rows, number)
    }

    /// Takes all elements with this home out.
    pub fn purge(&mut self, home: Thread)
        ensures { self.new ≡ without_home home self.old }
    {
        clear(&mut self.rows, home);
    }
}

/// The first element that thread `t` may take, in steps that nobody counts.
fn first_uncounted<T: Fn(&Element) -> Thread, F: Fn(&Element) -> bool, L: Ledger>(
    blank: Blank,
    inputs: &Inputs,
    t: Thread,
    group: u16,
    target: T,
    pass: F,
) -> Option<Element>
    requires name { blank.name ≡ L.name }
    requires parts { blank.parts ≡ L.parts }
    requires one { blank.parts ≡ 1 }
    requires targeted { T.IsAlwaysCallable target }
    requires tested { F.IsAlwaysCallable pass }
    ensures value { (target_of : Element → Thread) (test : Element → Bool) → Answers T.Fn target_of target → Answers F.Fn test pass → result ≡ first_takeable t target_of test (of_group group inputs.now) }
    ensures passed { IfSome result (λ x. FnReturnsAt F.Fn pass x true) }
    ensures rising { AreRising inputs.now }
{
    let mut steps = Steps::<L>::new(blank);
    inputs.first_counted(t, group, target, pass, &mut steps)
}

/// Whether an element has a number above this and passes, in steps that nobody counts.
fn above_uncounted<F: Fn(&Element) -> bool, L: Ledger>(
    blank: Blank,
    inputs: &Inputs,
    number: u32,
    pass: F,
) -> bool
    requires name { blank.name ≡ L.name }
    requires parts { blank.parts ≡ L.parts }
    requires one { blank.parts ≡ 1 }
    requires tested { F.IsAlwaysCallable pass }
    ensures { (test : Element → Bool) → Answers F.Fn test pass → result ≡ list_any (λ x. nat_lt number x.number && test x) inputs.now }
{
    let mut steps = Steps::<L>::new(blank);
    has_above(&inputs.rows, number, pass, &mut steps)
}
