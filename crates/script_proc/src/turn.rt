//! The turn of a worker.

ghost use Rattle.std.specs.Prelude.{◌≡◌, ◌<◌, ◌≤◌, ◌+◌, ◌^◌, ◌↔◌, ℕ, Some, IfOk, OnErr};
ghost use Rattle.user_model.specs.Tellers.{GoesOn};
ghost use Rattle.script_tree.specs.Pieces.{Trace, Whole, Cut};
ghost use Rattle.script_tree.specs.Traces.{IsTrace};
ghost use Rattle.script_tree.specs.Tree.{Tree};
ghost use Rattle.script_proc.specs.Programs.{IsProgramOf};
ghost use Rattle.user_model.specs.declared.call.Call.{Call};
ghost use Rattle.script_proc.specs.Workers.{IsWorkerOf, IsAt, thread_of, uses, call_of};
ghost use Rattle.script_proc.specs.Turns.{Stays, Asked, Did, AsksNobody};

use crate::program::Program;
use crate::worker::Worker;
use std::alloc::AllocError;
use user_model::{Teller, Told};

/// What a turn of a worker came to.
#[derive(Clone, Copy, Debug, PartialEq, Eq)]
pub enum Turn {
    /// It made its next call.
    Went,
    /// Its thread has no call to make now.
    Idle,
    /// Its program has ended.
    Ended,
    /// Its thread has made as many entries as the script allows it.
    Spent,
}

impl Worker {
    /// Makes the next call, at most one, at a teller that serves its thread. It is `Ended` exactly where
    /// the program has ended, else `Spent` exactly where the budget of the script is used up, and asks
    /// nobody there; else it is `Idle` where the thread is barred, and `Went` where the call was
    /// answered. After want of memory it has made no call, and the turn may be tried again.
    pub fn turn<T: Teller>(&mut self, program: &Program, teller: &mut T) -> Result<Turn, AllocError>
        requires { T.serves teller.old (thread_of self.old) }
        ensures did { IfOk result (λ turn. (s : Tree) → IsProgramOf s program.now → Did s program.now self.old self.new (T.view teller.old) (T.view teller.new) turn) }
        ensures ended { IfOk result (λ turn. (s : Tree) (t : ℕ) (tr : Trace) → IsWorkerOf s program.now t tr self.old → IsTrace s t tr Whole → turn ≡ Turn.Ended) }
        ensures spent { IfOk result (λ turn. (s : Tree) (t : ℕ) (tr : Trace) (call : Call) → IsWorkerOf s program.now t tr self.old → IsTrace s t tr (Cut call) → s.budget ≤ uses self.old → turn ≡ Turn.Spent) }
        ensures untouched { IfOk result (λ turn. AsksNobody turn → teller.new ≡ teller.old) }
        ensures no_memory { OnErr result ((s : Tree) → Stays s program.now self.old self.new) }
        ensures no_entry { OnErr result ((T.view teller.new).mine (thread_of self.old) ≡ (T.view teller.old).mine (thread_of self.old)) }
        ensures goes_on { GoesOn (T.view teller.old) (T.view teller.new) (T.serves teller.old) (thread_of self.old) }
        ensures still { T.is_still teller.old teller.new }
        ensures serves { (t : ℕ) → T.serves teller.old t ↔ T.serves teller.new t }
        ensures thread { thread_of self.new ≡ thread_of self.old }
    {
        if !self.go_on(program)? {
            return Ok(Turn::Ended);
        }
        let spent = self.used() >= program.budget();
        if spent {
            return Ok(Turn::Spent);
        }
        ask(self, teller)
    }
}

/// Asks the teller for the call at which the worker stands, and takes the answer.
fn ask<T: Teller>(worker: &mut Worker, teller: &mut T) -> Result<Turn, AllocError>
    requires at { IsAt worker.old (Some (call_of worker.old)) }
    requires room { uses worker.old + 1 < 2 ^ 32 }
    requires serves { T.serves teller.old (thread_of worker.old) }
    ensures asked { IfOk result (Asked worker.old worker.new (T.view teller.old) (T.view teller.new) (call_of worker.old)) }
    ensures no_memory { OnErr result (worker.new ≡ worker.old) }
    ensures no_entry { OnErr result ((T.view teller.new).mine (thread_of worker.old) ≡ (T.view teller.old).mine (thread_of worker.old)) }
    ensures goes_on { GoesOn (T.view teller.old) (T.view teller.new) (T.serves teller.old) (thread_of worker.old) }
    ensures still { T.is_still teller.old teller.new }
    ensures serves { (t : ℕ) → T.serves teller.old t ↔ T.serves teller.new t }
    ensures thread { thread_of worker.new ≡ thread_of worker.old }
{
    match teller.turn(worker.thread(), *worker.call())? {
        Told::Answered(answer) => {
            worker.take_answer(&answer);
            Ok(Turn::Went)
        }
        Told::Barred => Ok(Turn::Idle),
    }
}
