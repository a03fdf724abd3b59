//! The run of a script by groups of threads that move beside each other.

ghost use Rattle.std.specs.Prelude.{◌≡◌, ◌≢◌, ◌<◌, ◌≤◌, ℕ, [], true, false, length, slice_index_or, IfOk, IfSome, IsNone, OnOk};
ghost use Rattle.user_model.specs.Idle.{ends_stuck, is_barred};
ghost use Rattle.user_model.specs.Legal.{IsLawful};
ghost use Rattle.log_text.specs.Ends.{setup_of, end_of};
ghost use Rattle.script_proc.specs.Programs.{IsProgramOf};
ghost use Rattle.user_pool.specs.Runs.{IsRun};
ghost use Rattle.user_pool.specs.Teams.{AreTeams, HaveNoSeats, AreStopped};

use crate::group::Group;
use crate::phase::run_phase;
use crate::run::ends_stuck;
use log_text::End;
use script_proc::{Program, Worker};
use script_tree::Script;
use std::alloc::{AllocError, Global};
use std::sync::Wait;
use std::thread::{Threads, available_parallelism};
use user_io::Gate;
use user_model::{Call, Machine};
use win_num::Thread;

/// How many threads of the process may run groups at once: as many as there are processors, and at least two.
fn most_at_once<R: Threads>(rt: &R) -> usize
    ensures { 2 ≤ result }
{
    match available_parallelism(rt) {
        Ok(count) if count.get() > 2 => count.get(),
        _ => 2,
    }
}

/// How many groups have a thread of the script, where so many are wanted.
fn filled(groups: u8, threads: u8) -> u8
    requires { 0 < groups }
    ensures some { 0 < result }
    ensures within { result ≤ groups }
{
    if 0 < threads && threads < groups {
        threads
    } else {
        groups
    }
}

/// So many groups without threads. `AllocError` comes only for want of memory.
fn empty_groups<M: Machine + Drop>(alloc: Global, groups: u8) -> Result<Vec<Group<M>>, AllocError>
    ensures count { IfOk result (λ made. length made.items ≡ groups) }
    ensures none { IfOk result (λ made. HaveNoSeats made.items (λ g. g.seats.items)) }
    ensures empty { IfOk result (λ made. (g : ℕ) (d : _) → g < length made.items → (slice_index_or made.items g d).workers.items ≡ []) }
{
    let mut empty = Vec::new(alloc);
    for number in 0..groups {
        empty.push(Group {
            number: u32::from(number),
            workers: Vec::new(alloc),
            seats: Vec::new(alloc),
            turns: 0,
            starved: false,
        })?;
    }
    Ok(empty)
}

/// The groups of a script's threads before the first entry. `AllocError` comes only for want of memory.
fn new_groups<M: Machine + Drop>(
    alloc: Global,
    script: &Script,
    program: &Program,
    groups: u8,
) -> Result<Vec<Group<M>>, AllocError>
    requires some { 0 < groups }
    requires few { length script.now.threads ≤ 15 }
    requires program { IsProgramOf script.now program.now }
    ensures teams { IfOk result (λ made. AreTeams script.now program.now [] made.items (λ g. g.workers.items)) }
    ensures none { IfOk result (λ made. HaveNoSeats made.items (λ g. g.seats.items)) }
{
    let mut made = empty_groups(alloc, groups)?;
    for thread in 0..script.thread_count() {
        let worker = Worker::new(alloc, program, thread + 1)?;
        made[(thread % groups) as usize].workers.push(worker)?;
    }
    Ok(made)
}

/// Whether some thread can move: it isn't idle, and has some of its budget left.
fn can_move<M: Machine>(
    script: &Script,
    program: &Program,
    machine: &M,
    groups: &[Group<M>],
) -> bool
    requires program { IsProgramOf script.now program.now }
    requires setup { M.setup machine.now ≡ setup_of script.now }
    requires teams { AreTeams script.now program.now (M.past machine.now) groups.now (λ g. g.workers.items) }
    ensures { result ≡ false → (g : ℕ) (d : _) → g < length groups.now → AreStopped script.now (M.past machine.now) (slice_index_or groups.now g d).workers.items }
{
    for group in groups {
        if group.can_move(script, program, machine) {
            return true;
        }
    }
    false
}

/// How a run has ended in which no thread can move and the clock can't go on, though it isn't stuck.
fn end_of<M: Machine>(script: &Script, program: &Program, machine: &M, groups: &[Group<M>]) -> End
    requires run { IsRun script.now (M.past machine.now) }
    requires setup { M.setup machine.now ≡ setup_of script.now }
    requires teams { AreTeams script.now program.now (M.past machine.now) groups.now (λ g. g.workers.items) }
    requires stopped { (g : ℕ) (d : _) → g < length groups.now → AreStopped script.now (M.past machine.now) (slice_index_or groups.now g d).workers.items }
    requires barred { is_barred (setup_of script.now) (M.past machine.now) 0 ≡ true }
    requires goes { ends_stuck (M.past machine.now) ≡ false }
    ensures end { result ≡ end_of script.now (M.past machine.now) }
    ensures over { result ≢ End.Cut }
{
    for group in groups {
        if group.is_busy(machine) {
            return End::Spent;
        }
    }
    End::Done
}

/// What follows a phase: None for another one, or the end of the run. Where all threads wait, the clock goes on. `AllocError`
/// comes only for want of memory.
fn go_on<M: Machine>(
    script: &Script,
    program: &Program,
    machine: &mut M,
    groups: &[Group<M>],
) -> Result<Option<End>, AllocError>
    requires few { length script.now.threads ≤ 15 }
    requires small { script.now.budget ≤ 65536 }
    requires program { IsProgramOf script.now program.now }
    requires run { IsRun script.now (M.past machine.old) }
    requires setup { M.setup machine.old ≡ setup_of script.now }
    requires teams { AreTeams script.now program.now (M.past machine.old) groups.now (λ g. g.workers.items) }
    requires goes { ends_stuck (M.past machine.old) ≡ false }
    ensures run { OnOk result (IsRun script.now (M.past machine.new)) }
    ensures setup { M.setup machine.new ≡ setup_of script.now }
    ensures teams { OnOk result (AreTeams script.now program.now (M.past machine.new) groups.now (λ g. g.workers.items)) }
    ensures end { IfOk result (λ next. IfSome next (λ end. (end ≡ end_of script.now (M.past machine.new)) × (end ≢ End.Cut))) }
    ensures goes { IfOk result (λ next. IsNone next → ends_stuck (M.past machine.new) ≡ false) }
{
    if can_move(script, program, machine, groups) {
        return Ok(None);
    }
    if machine.barred(Thread(0)) {
        return Ok(Some(end_of(script, program, machine, groups)));
    }
    let _answer = machine.step(Thread(0), Call::Advance)?;
    if ends_stuck(machine.history()) {
        return Ok(Some(End::Stuck));
    }
    Ok(None)
}

/// Runs a script on a machine without entries by so many groups of threads, which move beside each other, and gives the
/// machine back with how the run ended.
///
/// Thread t is of group (t - 1) modulo the number of groups. The run goes in phases. In each the threads of a group take
/// turns in rising order, until one whole pass has none that went; before each turn the gate is passed, with the group's
/// number and that of the turn in the group. The groups run beside each other in as many threads of the process as there
/// are processors, and at least in two; where fewer than two groups have a thread that can move, a phase takes no thread
/// but the caller's. Between two phases nobody moves but the clock, where all threads wait. The run ends where all
/// threads have ended, where nothing can go on, or where each thread that isn't idle has used up its budget. It waits for
/// its threads, so nothing is promised of its return. `AllocError` comes only for want of memory, and the machine is let go.
pub fn run_groups<M: Machine + Send + Drop, R: Threads + Wait + Sync, G: Gate + Sync>(
    rt: &R,
    alloc: Global,
    script: &Script,
    machine: M,
    groups: u8,
    gate: &G,
) -> Result<(M, End), AllocError>
    requires few { length script.now.threads ≤ 15 }
    requires small { script.now.budget ≤ 65536 }
    requires empty { M.past machine ≡ [] }
    requires setup { M.setup machine ≡ setup_of script.now }
    requires groups { (0 < groups) × (groups ≤ 15) }
    ensures run { IfOk result (λ r. IsRun script.now (M.past r.0)) }
    ensures lawful { IfOk result (λ r. IsLawful (setup_of script.now) (M.past r.0)) }
    ensures end { IfOk result (λ r. r.1 ≡ end_of script.now (M.past r.0)) }
    ensures over { IfOk result (λ r. r.1 ≢ End.Cut) }
    ensures setup { IfOk result (λ r. M.setup r.0 ≡ setup_of script.now) }
{
    let program = Program::new(alloc, script)?;
    let mut machine = machine;
    let wanted = filled(groups, script.thread_count());
    let mut groups = new_groups(alloc, script, &program, wanted)?;
    let most = most_at_once(rt);
    for _ in rt.forever() {
        machine = run_phase(
            rt,
            alloc,
            script,
            &program,
            machine,
            &mut groups,
            most,
            gate,
        )?;
        if let Some(end) = go_on(script, &program, &mut machine, &groups)? {
            return Ok((machine, end));
        }
    }
    unreachable!()
}
