//! What a thread of a run is kept with.

ghost use Rattle.std.specs.Prelude.{◌≡◌, ◌<◌, ◌≤◌, ◌+◌, ◌^◌, length, true, false, if◌then◌else◌, IfOk, OnOk, []};
ghost use Rattle.user_model.specs.Past.{is_full};
ghost use Rattle.user_model.specs.Places.{is_end};
ghost use Rattle.log_text.specs.Ends.{setup_of};
ghost use Rattle.user_pool.specs.Runs.{IsRun};
ghost use Rattle.user_pool.specs.Moves.{CanMove, HasGoneOn};
ghost use Rattle.script_tree.specs.Tree.{Tree};
ghost use Rattle.script_proc.specs.Programs.{IsProgramOf};
ghost use Rattle.user_pool.specs.Seats.{IsSeatOf, SeatsStand};

use script_proc::{Program, Worker};
use script_tree::Script;
use std::alloc::{AllocError, Global};
use user_model::{Answer, Machine};
use win_num::Thread;

/// A thread of a run: its program in the middle of its trace, and whether it has ended.
#[derive(Drop)]
pub struct Seat {
    pub worker: Worker,
    pub ended: bool,
}

impl Seat {
    /// A thread before its first entry. `AllocError` comes only for want of memory.
    pub fn new(alloc: Global, program: &Program, thread: u8) -> Result<Seat, AllocError>
        ensures { IfOk result (λ seat. (s : Tree) → IsProgramOf s program.now → IsSeatOf s program.now [] thread seat) }
    {
        let worker = Worker::new(alloc, program, thread)?;
        Ok(Seat {
            worker,
            ended: false,
        })
    }

    /// Makes the next call of a thread that can move.
    pub fn turn<M: Machine>(
        &mut self,
        script: &Script,
        program: &Program,
        machine: &mut M,
        actor: u8,
    ) -> Result<(), AllocError>
        requires small { script.now.budget ≤ 65536 }
        requires setup { M.setup machine.old ≡ setup_of script.now }
        requires seat { IsSeatOf script.now program.now (M.past machine.old) actor self.old }
        requires thread { 0 < actor }
        requires can { CanMove script.now (M.past machine.old) actor }
        requires room { is_full (M.past machine.old) ≡ false }
        requires run { IsRun script.now (M.past machine.old) }
        ensures moved { OnOk result (HasGoneOn script.now (M.past machine.old) (M.past machine.new) actor) }
        ensures seat { OnOk result (IsSeatOf script.now program.now (M.past machine.new) actor self.new) }
        ensures setup { M.setup machine.new ≡ setup_of script.now }
    {
        if !self.worker.go_on(program)? {
            unreachable!();
        }
        match &machine.step(Thread(actor), *self.worker.call()) {
            Ok(answer) => {
                self.worker.take_answer(answer);
                self.ended = ended_by(self.ended, answer);
                Ok(())
            }
            Err(_) => Err(AllocError),
        }
    }
}

/// Whether a thread has ended that had, or that is given this answer.
fn ended_by(ended: bool, answer: &Answer) -> bool
    ensures { result ≡ (if is_end answer.now then true else ended) }
{
    ended || matches!(answer, Answer::Ended)
}

/// The threads of a script before the first entry, in order. `AllocError` comes only for want of memory.
pub fn new_seats(alloc: Global, script: &Script, program: &Program) -> Result<Vec<Seat>, AllocError>
    requires program { IsProgramOf script.now program.now }
    requires few { length script.now.threads ≤ 15 }
    ensures { IfOk result (λ seats. SeatsStand script.now program.now [] seats.items) }
{
    let mut seats = Vec::new(alloc);
    for thread in 0..script.thread_count() {
        seats.push(Seat::new(alloc, program, thread + 1)?)?;
    }
    Ok(seats)
}
