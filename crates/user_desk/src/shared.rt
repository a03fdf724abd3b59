//! A machine as a state that threads share.

ghost use Rattle.user_desk.specs.Journal.{said_in, actor, is_full_of, is_barred_after, reply_after, IsLegalLog};
ghost use Rattle.user_desk.specs.Beginnings.{legal_beginning};

use std::alloc::AllocError;
use turn_lock::Journaled;
use user_model::{Answer, Call, Machine, Setup};
use win_num::Thread;

/// How many entries a history has room for.
const HISTORY_LIMIT: usize = 2_097_152;

/// A machine whose history is the journal of all calls. A call stands there with its actor, whose number is
/// that of the seat that may make it.
#[derive(Drop)]
pub struct Shared<M: Machine> {
    pub machine: M,
}

impl<M: Machine> Journaled for Shared<M> {
    type Call = (Thread, Call);

    type Answer = Answer;

    type Setting = Setup;

    ghost history = { λ s. said_in (M.past s.machine) };

    ghost setting = { λ s. M.setup s.machine };

    ghost lawful = { IsLegalLog };

    ghost number = { actor };

    ghost is_full = { λ setup log. is_full_of log };

    ghost is_barred = { is_barred_after };

    ghost refusal = { reply_after };

    fn full(&self) -> bool {
        self.machine.history().len() >= HISTORY_LIMIT
    }

    fn step(&mut self, call: (Thread, Call)) -> Result<Answer, AllocError> {
        let (who, call) = call;
        self.machine.step(who, call)
    }

    fn barred(&self, call: &(Thread, Call)) -> bool {
        self.machine.barred(call.0)
    }

    ghost beginning = { legal_beginning };
}
