//! The teller, who makes a thread's calls for it, and tells what each came to.

ghost use Rattle.std.specs.Prelude.{◌≡◌, ◌↔◌, ℕ, OnErr, IfOk};
ghost use Rattle.user_model.specs.Tellers.{TellerView, GoesOn, HasLooked, CameTo, TellsAll, StandsStill, alone_view};

use crate::call::Call;
use crate::entry::Answer;
use crate::machine::Machine;
use std::alloc::AllocError;
use win_num::Thread;

/// What a turn came to.
#[derive(Clone, Copy, Debug, PartialEq, Eq)]
pub enum Told {
    /// The call was made and answered so.
    Answered(Answer),
    /// The actor has no call to make now, and made none.
    Barred,
}

/// Makes calls at a machine that others may make calls at too, one turn at a time.
pub trait Teller {
    /// The setup, the past at the opening, and what each actor knows that is served.
    ghost view: { Self → TellerView };

    /// Whose calls are made here.
    ghost serves: { Self → ℕ → Type 0 };

    /// Whether the second is the first later on: it borrows the same places.
    ghost is_still: { Self → Self → Type 0 };

    /// Makes the call, unless the actor is barred. The answer is the reply of the definitions at all that
    /// had happened before, and the call with its answer is the newest entry, unless the history is full.
    /// It is exactly one turn: where looks are told, the actor has looked once more. After want of memory no entry was
    /// made, and the turn may be tried again.
    fn turn(&mut self, who: Thread, call: Call) -> Result<Told, AllocError>
        requires { serves self.old who.0 }
        ensures goes_on { GoesOn (view self.old) (view self.new) (serves self.old) who.0 }
        ensures still { is_still self.old self.new }
        ensures serves { (t : ℕ) → serves self.old t ↔ serves self.new t }
        ensures looked { IfOk result (λ _. HasLooked (view self.old) (view self.new) who.0) }
        ensures told { IfOk result (CameTo (view self.old) (view self.new) who call) }
        ensures err { OnErr result ((view self.new).mine who.0 ≡ (view self.old).mine who.0) };

    /// A teller is itself.
    ghost still_itself: { (a : Self) → is_still a a };

    /// What is the first after one turn, and then after another, is the first after both.
    ghost still_along: { (a b c : Self) → is_still a b → is_still b c → is_still a c };
}

/// A machine at which nobody else makes calls. It serves every actor.
#[derive(Drop)]
pub struct Alone<M: Machine> {
    pub machine: M,
}

impl<M: Machine> Teller for Alone<M> {
    ghost view = { λ a. alone_view (M.setup a.machine) (M.past a.machine) };

    ghost serves = { λ a t. Unit {0} };

    ghost is_still = { λ a b. Unit {0} };

    ghost still_itself = { λ a. tt };

    ghost still_along = { λ a b c first second. tt };

    fn turn(&mut self, who: Thread, call: Call) -> Result<Told, AllocError> {
        if self.machine.barred(who) {
            return Ok(Told::Barred);
        }
        let answer = self.machine.step(who, call)?;
        Ok(Told::Answered(answer))
    }
}

/// What is told of a turn at a machine at which nobody else makes calls is just what the machine did: the
/// step of an actor that wasn't barred, or none of one that was, and none after want of memory.
pub fn alone_tells_all()
    ensures told { TellsAll }
    ensures still { StandsStill }
{}
