//! A group of threads that take their turns one after another, beside those of other groups.

ghost use Rattle.std.specs.Prelude.{◌≡◌, true, false, map, OnOk};
ghost use Rattle.log_text.specs.Ends.{setup_of};
ghost use Rattle.script_proc.specs.Programs.{IsProgramOf};
ghost use Rattle.script_proc.specs.Workers.{thread_of};
ghost use Rattle.user_pool.specs.Teams.{AreSeated, KeepWorking, AreWorkers, IsOneBusy, AreIdle, CanOneMove, AreStopped};

use crate::desk_turn::take_turn;
use script_proc::{Program, Turn, Worker};
use script_tree::Script;
use std::alloc::AllocError;
use std::sync::Wait;
use user_desk::{Desk, DeskSeat};
use user_io::Gate;
use user_model::Machine;

/// The workers of a group's threads in rising order, their seats at the desk of a phase in the same order, how many
/// turns the group has had, and whether memory was wanting in one of them.
#[derive(Drop)]
pub struct Group<M: Machine> {
    pub number: u32,
    pub workers: Vec<Worker>,
    pub seats: Vec<DeskSeat<M>>,
    pub turns: u64,
    pub starved: bool,
}

impl<M: Machine> Group<M> {
    /// Gives its threads turns in rising order, again and again, until one whole pass has none that went, or until
    /// memory was refused.
    pub fn run<R: Wait, G: Gate>(&mut self, rt: &R, desk: &Desk<M>, program: &Program, gate: &G)
        requires { AreSeated desk.now self.old.workers.items self.old.seats.items }
        ensures seated { AreSeated desk.now self.new.workers.items self.new.seats.items }
        ensures threads { map thread_of self.new.workers.items ≡ map thread_of self.old.workers.items }
        ensures works { self.new.starved ≡ false → KeepWorking program.now (M.setup desk.now.opening.machine) (M.past desk.now.opening.machine) self.old.workers.items self.new.workers.items self.old.seats.items self.new.seats.items }
    {
        for _ in rt.forever() {
            match self.pass(rt, desk, program, gate) {
                Ok(true) => {}
                Ok(false) => return,
                Err(_) => {
                    self.starved = true;
                    return;
                }
            }
        }
    }

    /// Gives each of its threads one turn, and tells whether one of them made its call. `AllocError` comes only for
    /// want of memory, and the threads behind the one that met it have had no turn.
    fn pass<R: Wait, G: Gate>(
        &mut self,
        rt: &R,
        desk: &Desk<M>,
        program: &Program,
        gate: &G,
    ) -> Result<bool, AllocError>
        requires { AreSeated desk.now self.old.workers.items self.old.seats.items }
        ensures seated { AreSeated desk.now self.new.workers.items self.new.seats.items }
        ensures threads { map thread_of self.new.workers.items ≡ map thread_of self.old.workers.items }
        ensures works { OnOk result (KeepWorking program.now (M.setup desk.now.opening.machine) (M.past desk.now.opening.machine) self.old.workers.items self.new.workers.items self.old.seats.items self.new.seats.items) }
        ensures fed { self.new.starved ≡ self.old.starved }
    {
        let mut went = false;
        for place in 0..self.workers.len() {
            gate.pass(self.number, self.turns);
            self.turns = self.turns.wrapping_add(1);
            let worker = &mut self.workers[place];
            let seat = &mut self.seats[place];
            let turn = take_turn(rt, desk, program, worker, seat)?;
            went = went || turn == Turn::Went;
        }
        Ok(went)
    }

    /// Whether one of its threads isn't idle.
    pub fn is_busy(&self, machine: &M) -> bool
        ensures busy { result ≡ true → IsOneBusy (M.setup machine.now) (M.past machine.now) self.now.workers.items }
        ensures idle { result ≡ false → AreIdle (M.setup machine.now) (M.past machine.now) self.now.workers.items }
    {
        for worker in &self.workers {
            if !machine.barred(worker.thread()) {
                return true;
            }
        }
        false
    }

    /// Whether one of its threads isn't idle, and has some of its budget left.
    pub fn can_move(&self, script: &Script, program: &Program, machine: &M) -> bool
        requires program { IsProgramOf script.now program.now }
        requires workers { AreWorkers script.now program.now (M.past machine.now) self.now.workers.items }
        requires setup { M.setup machine.now ≡ setup_of script.now }
        ensures can { result ≡ true → CanOneMove script.now (M.past machine.now) self.now.workers.items }
        ensures stopped { result ≡ false → AreStopped script.now (M.past machine.now) self.now.workers.items }
    {
        for worker in &self.workers {
            if !machine.barred(worker.thread()) && worker.used() < program.budget() {
                return true;
            }
        }
        false
    }
}
