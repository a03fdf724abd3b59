//! The untaken elements of one thread.

ghost use Rattle.std.specs.Prelude.{◌≡◌, ◌+◌, ◌∷◌, ◌++◌, ◌<◌, ◌^◌, ◌==◌, ◌≢◌, ◌&&◌, Bool, [], None, Some, IfNone, IfSome, OnErr, OnOk, find, is_some, length, nat_lt, option_map, slice_get, slice_index_or};
ghost use Rattle.std.specs.List.{list_any};
ghost use Rattle.input_queue.specs.declared.element.Element.{Element};
ghost use Rattle.input_queue.specs.Elements.{Answers, AreRising, last_of, without};
ghost use Rattle.input_queue.specs.Rows.{glance_of};

use crate::element::Element;
use crate::glance::Glance;
use crate::sealed::Sealed;
use crate::steps::Steps;
use std::alloc::{AllocError, Global};
use std::collections::VecDeque;
use std::marker::Model;
use std::sync::ledger::Ledger;

/// The untaken elements with one home, by rising number.
#[derive(Drop)]
pub(crate) struct Row {
    elements: VecDeque<Sealed>,
}

impl Model for Row {
    ghost use Rattle.std.specs.Prelude.{List};
    ghost use Rattle.input_queue.specs.declared.element.Element.{Element};

    ghost Value = { List Element };

    ghost view = { λ r. r.elements.items };
}

impl Row {
    /// No elements. It takes no room.
    pub(crate) fn new(alloc: Global) -> Row
        ensures { result ≡ [] }
    {
        Row {
            elements: VecDeque::new(alloc),
        }
    }

    /// How many there are.
    pub(crate) fn len(&self) -> usize
        ensures { result ≡ length self.now }
    {
        self.elements.len()
    }

    /// The number of the element at a place.
    pub(crate) fn number(&self, at: usize) -> Option<u32>
        ensures { result ≡ option_map (λ x. x.number) (slice_get self.now at) }
    {
        let sealed = self.elements.get(at)?;
        Some(sealed.number())
    }

    /// What a glance at the last element tells.
    pub(crate) fn glance(&self) -> Option<Glance>
        ensures { result ≡ option_map glance_of (last_of self.now) }
    {
        let sealed = self.elements.back()?;
        Some(Glance {
            number: sealed.number(),
            message: sealed.message(),
        })
    }

    /// A copy of the element at a place, in one step.
    pub(crate) fn read<L: Ledger>(&self, at: usize, steps: &mut Steps<L>) -> Element
        requires { at < length self.now }
        ensures element { slice_get self.now at ≡ Some result }
        ensures step { steps.new ≡ steps.old + 1 }
        ensures next { at + 1 < 2 ^ 64 }
    {
        self.elements[at].read(steps)
    }

    /// Whether an element has a number above this and passes, in one step for each of such a number, up to the first one that passes.
    pub(crate) fn has_above<F: Fn(&Element) -> bool, L: Ledger>(
        &self,
        number: u32,
        pass: &F,
        steps: &mut Steps<L>,
    ) -> bool
        requires { F.IsAlwaysCallable pass.now }
        ensures { (test : Element → Bool) → Answers F.Fn test pass.now → result ≡ list_any (λ x. nat_lt number x.number && test x) self.now }
    {
        for at in 0..self.elements.len() {
            if number < self.elements[at].number() && pass(&self.read(at, steps)) {
                return true;
            }
        }
        false
    }

    /// Puts an element last.
    pub(crate) fn push(&mut self, e: Element) -> Result<(), AllocError>
        ensures ok { OnOk result (self.new ≡ self.old ++ e ∷ []) }
        ensures err { OnErr result (self.new ≡ self.old) }
    {
        match self.elements.push_back(Sealed::new(e)) {
            Ok(()) => Ok(()),
            Err(_) => Err(AllocError),
        }
    }

    /// Whether there is an element of this number.
    pub(crate) fn has(&self, number: u32) -> bool
        requires { AreRising self.now }
        ensures { result ≡ is_some (find (λ x. x.number == number) self.now) }
    {
        place_of(&self.elements, number).is_some()
    }

    /// Takes the element of this number out. `None` comes exactly where there is none.
    pub(crate) fn take(&mut self, number: u32) -> Option<Element>
        requires { AreRising self.old }
        ensures value { result ≡ find (λ x. x.number == number) self.old }
        ensures left { self.new ≡ without number self.old }
    {
        let at = place_of(&self.elements, number)?;
        let sealed = self.elements.remove(at)?;
        Some(sealed.into_element())
    }

    /// Takes all out.
    pub(crate) fn clear(&mut self)
        ensures { self.new ≡ [] }
    {
        self.elements.clear();
    }
}

/// Where the element of a number is, found by halving. `None` comes exactly where there is none.
fn place_of(elements: &VecDeque<Sealed>, number: u32) -> Option<usize>
    requires { AreRising elements.now.items }
    ensures within { IfSome result (λ at. at < length elements.now.items) }
    ensures found { IfSome result (λ at. (d : Element) → (slice_index_or elements.now.items at d).number ≡ number) }
    ensures none { IfNone result (find (λ x. x.number == number) elements.now.items ≡ None) }
{
    let at = elements.partition_point(|x| x.number() < number);
    if at < elements.len() && elements[at].number() == number {
        Some(at)
    } else {
        None
    }
}
