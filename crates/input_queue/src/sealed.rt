//! An element that can't be read without a step.

ghost use Rattle.std.specs.Prelude.{◌≡◌, ◌+◌};

use crate::element::Element;
use crate::steps::Steps;
use std::marker::Model;
use std::sync::ledger::Ledger;

/// An untaken element. `read` is the one call that reads it whole, and counts a step.
#[derive(Drop)]
pub(crate) struct Sealed {
    element: Element,
}

impl Model for Sealed {
    ghost use Rattle.input_queue.specs.declared.element.Element.{Element};

    ghost Value = { Element };

    ghost view = { λ s. s.element };
}

impl Sealed {
    /// Puts an element away.
    pub(crate) fn new(element: Element) -> Sealed
        ensures { result ≡ element }
    {
        Sealed { element }
    }

    /// Its number, which is no reading.
    pub(crate) fn number(&self) -> u32
        ensures { result ≡ self.now.number }
    {
        self.element.number
    }

    /// The number of its message, which is no reading.
    pub(crate) fn message(&self) -> u32
        ensures { result ≡ self.now.message }
    {
        self.element.message
    }

    /// A copy of the element, in one step.
    pub(crate) fn read<L: Ledger>(&self, steps: &mut Steps<L>) -> Element
        ensures element { result ≡ self.now }
        ensures step { steps.new ≡ steps.old + 1 }
    {
        steps.tick();
        self.element
    }

    /// Takes the element out, unread: it can no longer be in a queue.
    pub(crate) fn into_element(self) -> Element
        ensures { result ≡ self }
    {
        self.element
    }
}
