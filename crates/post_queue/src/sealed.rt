//! A message that can't be read without a step.

ghost use Rattle.std.specs.Prelude.{◌≡◌, ◌+◌};

use crate::steps::Steps;
use std::marker::Model;
use std::sync::ledger::Ledger;
use win_num::Msg;

/// A queued message. `read` is the one call that reads it, and counts a step.
#[derive(Drop)]
pub(crate) struct Sealed {
    msg: Msg,
}

impl Model for Sealed {
    ghost use Rattle.win_num.specs.declared.message.Msg.{Msg};

    ghost Value = { Msg };

    ghost view = { λ s. s.msg };
}

impl Sealed {
    /// Puts a message away.
    pub(crate) fn new(msg: Msg) -> Sealed
        ensures { result ≡ msg }
    {
        Sealed { msg }
    }

    /// A copy of the message, in one step.
    pub(crate) fn read<L: Ledger>(&self, steps: &mut Steps<L>) -> Msg
        ensures message { result ≡ self.now }
        ensures step { steps.new ≡ steps.old + 1 }
    {
        steps.tick();
        self.msg
    }

    /// Takes the message out, unread: it can no longer be in a queue.
    pub(crate) fn into_msg(self) -> Msg
        ensures { result ≡ self }
    {
        self.msg
    }
}
