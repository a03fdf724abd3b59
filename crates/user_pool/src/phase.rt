//! A phase: all groups run beside each other at a desk that is opened for it.

ghost use Rattle.std.specs.Prelude.{◌≡◌, ◌<◌, ◌≤◌, ◌+◌, ℕ, ◌∷◌, false, length, map, slice_index_or, All, IfOk, OnOk};
ghost use Rattle.user_model.specs.Idle.{ends_stuck};
ghost use Rattle.log_text.specs.Ends.{setup_of};
ghost use Rattle.turn_lock.specs.Seats.{new_seat, new_seats};
ghost use Rattle.script_proc.specs.Programs.{IsProgramOf};
ghost use Rattle.script_proc.specs.Workers.{thread_of};
ghost use Rattle.user_pool.specs.Runs.{IsRun};
ghost use Rattle.user_pool.specs.Teams.{HaveThreads, AreTeams, AreSeated, KeepWorkers, KeepWorking, HaveNoSeats, HaveNewSeats, AreAtWork, AllSeated, AllAtWork, seats_of};

use crate::group::Group;
use script_proc::Program;
use script_tree::Script;
use std::alloc::{AllocError, Global};
use std::sync::Wait;
use std::thread::{Threads, for_each_mut};
use user_desk::{Desk, DeskSeat};
use user_io::Gate;
use user_model::Machine;

/// Gives each thread its seat, and the clock's seat back. `AllocError` comes only for want of memory.
fn hand_out<M: Machine>(
    desk: &Desk<M>,
    groups: &mut [Group<M>],
    mut seats: Vec<DeskSeat<M>>,
    threads: u8,
) -> Result<DeskSeat<M>, AllocError>
    requires some { 0 < length groups.old }
    requires seats { seats.items ≡ new_seats desk.now (threads + 1) }
    requires none { HaveNoSeats groups.old (λ g. g.seats.items) }
    ensures clock { IfOk result (λ clock. clock ≡ new_seat desk.now 0) }
    ensures seats { OnOk result (HaveNewSeats desk.now threads groups.new (λ g. g.seats.items)) }
    ensures workers { KeepWorkers groups.old groups.new (λ g. g.workers.items) }
{
    let clock = seats.remove(0);
    for thread in 0..threads as usize {
        let place = thread % groups.len();
        groups[place].seats.push(seats.remove(0))?;
    }
    Ok(clock)
}

/// Takes all seats back, behind the clock's. `AllocError` comes only for want of memory.
fn take_back<M: Machine>(
    alloc: Global,
    groups: &mut [Group<M>],
    clock: DeskSeat<M>,
) -> Result<Vec<DeskSeat<M>>, AllocError>
    ensures seats { IfOk result (λ seats. seats.items ≡ clock ∷ seats_of groups.old (λ g. g.seats.items)) }
    ensures none { OnOk result (HaveNoSeats groups.new (λ g. g.seats.items)) }
    ensures workers { KeepWorkers groups.old groups.new (λ g. g.workers.items) }
{
    let mut seats = Vec::new(alloc);
    seats.push(clock)?;
    for place in 0..groups.len() {
        seats.append(&mut groups[place].seats)?;
    }
    Ok(seats)
}

/// In how many threads of the process a phase runs: in one, where fewer than two groups have a thread that can move, since
/// nobody could move beside another; else in as many as may be.
fn hands_for<M: Machine>(
    script: &Script,
    program: &Program,
    machine: &M,
    groups: &[Group<M>],
    most: usize,
) -> usize
    requires program { IsProgramOf script.now program.now }
    requires setup { M.setup machine.now ≡ setup_of script.now }
    requires teams { AreTeams script.now program.now (M.past machine.now) groups.now (λ g. g.workers.items) }
    requires most { 0 < most }
    ensures some { 0 < result }
    ensures most { result ≤ most }
{
    let mut one_moves = false;
    for group in groups {
        let moves = group.can_move(script, program, machine);
        if moves && one_moves {
            return most;
        }
        one_moves = one_moves || moves;
    }
    1
}

/// Runs all groups beside each other, in at most so many threads of the process.
fn run_all<M: Machine + Send, R: Threads + Wait + Sync, G: Gate + Sync>(
    rt: &R,
    desk: &Desk<M>,
    script: &Script,
    program: &Program,
    groups: &mut [Group<M>],
    hands: usize,
    gate: &G,
)
    requires hands { 0 < hands }
    requires program { IsProgramOf script.now program.now }
    requires setup { M.setup desk.now.opening.machine ≡ setup_of script.now }
    requires threads { HaveThreads (length script.now.threads) groups.old (λ g. g.workers.items) }
    requires seated { AllSeated desk.now groups.old (λ g. g.workers.items) (λ g. g.seats.items) }
    requires works { AllAtWork script.now program.now (M.past desk.now.opening.machine) groups.old (λ g. g.workers.items) (λ g. g.seats.items) }
    ensures count { length groups.new ≡ length groups.old }
    ensures threads { HaveThreads (length script.now.threads) groups.new (λ g. g.workers.items) }
    ensures seated { AllSeated desk.now groups.new (λ g. g.workers.items) (λ g. g.seats.items) }
    ensures works { (g : ℕ) (d : _) → g < length groups.new → (slice_index_or groups.new g d).starved ≡ false → AreAtWork script.now program.now (M.past desk.now.opening.machine) (slice_index_or groups.new g d).workers.items (slice_index_or groups.new g d).seats.items }
{
    for_each_mut(
        rt,
        groups,
        hands,
        &|_, group: &mut Group<M>|
            requires { AreSeated desk.now group.now.workers.items group.now.seats.items }
            ensures seated { AreSeated desk.entry.now group.exit.now.workers.items group.exit.now.seats.items }
            ensures threads { map thread_of group.exit.now.workers.items ≡ map thread_of group.entry.now.workers.items }
            ensures works { group.exit.now.starved ≡ false → KeepWorking program.entry.now (M.setup desk.entry.now.opening.machine) (M.past desk.entry.now.opening.machine) group.entry.now.workers.items group.exit.now.workers.items group.entry.now.seats.items group.exit.now.seats.items }
        { group.run(rt, desk, program, gate) },
    );
}

/// Whether memory was wanting in some group.
fn is_starved<M: Machine>(groups: &[Group<M>]) -> bool
    ensures { result ≡ false → All (λ g. g.starved ≡ false) groups.now }
{
    for group in groups {
        if group.starved {
            return true;
        }
    }
    false
}

/// Opens a desk over the machine, runs all groups at it, and closes it. Where two of them or more have a thread that can
/// move, they run in at most so many threads of the process. `AllocError` comes only for want of memory, and the machine is
/// let go.
pub fn run_phase<M: Machine + Send + Drop, R: Threads + Wait + Sync, G: Gate + Sync>(
    rt: &R,
    alloc: Global,
    script: &Script,
    program: &Program,
    machine: M,
    groups: &mut [Group<M>],
    most: usize,
    gate: &G,
) -> Result<M, AllocError>
    requires most { 0 < most }
    requires few { length script.now.threads ≤ 15 }
    requires small { script.now.budget ≤ 65536 }
    requires program { IsProgramOf script.now program.now }
    requires setup { M.setup machine ≡ setup_of script.now }
    requires run { IsRun script.now (M.past machine) }
    requires teams { AreTeams script.now program.now (M.past machine) groups.old (λ g. g.workers.items) }
    requires none { HaveNoSeats groups.old (λ g. g.seats.items) }
    ensures setup { IfOk result (λ m. M.setup m ≡ setup_of script.now) }
    ensures run { IfOk result (λ m. IsRun script.now (M.past m)) }
    ensures stuck { IfOk result (λ m. ends_stuck (M.past machine) ≡ false → ends_stuck (M.past m) ≡ false) }
    ensures teams { IfOk result (λ m. AreTeams script.now program.now (M.past m) groups.new (λ g. g.workers.items)) }
    ensures none { OnOk result (HaveNoSeats groups.new (λ g. g.seats.items)) }
{
    let hands = hands_for(script, program, &machine, groups, most);
    let threads = script.thread_count();
    let Ok((desk, seats)) = Desk::new(alloc, machine, threads) else {
        return Err(AllocError);
    };
    let clock = hand_out(&desk, groups, seats, threads)?;
    run_all(rt, &desk, script, program, groups, hands, gate);
    if is_starved(groups) {
        return Err(AllocError);
    }
    let seats = take_back(alloc, groups, clock)?;
    match desk.close(seats) {
        Ok(machine) => Ok(machine),
        Err(_) => unreachable!(),
    }
}
