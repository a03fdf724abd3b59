//! The run of a script by its order list, and then by round robin.

ghost use Rattle.std.specs.Prelude.{◌≡◌, ◌≢◌, ◌<◌, ◌≤◌, [], length, drop, reverse, IfOk, OnOk, false, None};
ghost use Rattle.user_model.specs.Past.{is_full};
ghost use Rattle.user_model.specs.Idle.{have_all_ended, ends_stuck, is_barred};
ghost use Rattle.user_model.specs.Legal.{IsLawful};
ghost use Rattle.log_text.specs.Ends.{setup_of, end_of};
ghost use Rattle.user_pool.specs.Runs.{choice, IsRun, IsListed};
ghost use Rattle.user_pool.specs.Moves.{CanMove, HasGoneOn, HasMoved};
ghost use Rattle.user_pool.specs.Seats.{SeatsStand, SeatsCount};

use crate::choice::choose;
use crate::seat::{Seat, new_seats};
use log_text::End;
use script_proc::Program;
use script_tree::Script;
use std::alloc::{AllocError, Global};
use user_model::{Answer, Call, Entry, Machine};
use win_num::Thread;

/// Makes the next call of a thread that can move. `AllocError` comes only for want of memory.
pub fn move_thread<M: Machine>(
    script: &Script,
    program: &Program,
    machine: &mut M,
    seats: &mut Vec<Seat>,
    thread: u8,
) -> Result<(), AllocError>
    requires small { script.now.budget ≤ 65536 }
    requires setup { M.setup machine.old ≡ setup_of script.now }
    requires seats { SeatsStand script.now program.now (M.past machine.old) seats.old.items }
    requires thread { 0 < thread }
    requires can { CanMove script.now (M.past machine.old) thread }
    requires room { is_full (M.past machine.old) ≡ false }
    requires run { IsRun script.now (M.past machine.old) }
    ensures moved { OnOk result (HasGoneOn script.now (M.past machine.old) (M.past machine.new) thread) }
    ensures seats { OnOk result (SeatsStand script.now program.now (M.past machine.new) seats.new.items) }
    ensures setup { M.setup machine.new ≡ setup_of script.now }
{
    let seat = &mut seats[(thread - 1) as usize];
    seat.turn(script, program, machine, thread)?;
    Ok(())
}

/// Lets the clock go on, which isn't barred. `AllocError` comes only for want of memory.
pub fn move_clock<M: Machine>(
    script: &Script,
    program: &Program,
    machine: &mut M,
    seats: &[Seat],
) -> Result<(), AllocError>
    requires setup { M.setup machine.old ≡ setup_of script.now }
    requires seats { SeatsStand script.now program.now (M.past machine.old) seats.now }
    requires free { is_barred (setup_of script.now) (M.past machine.old) 0 ≡ false }
    requires room { is_full (M.past machine.old) ≡ false }
    ensures moved { OnOk result (HasGoneOn script.now (M.past machine.old) (M.past machine.new) 0) }
    ensures seats { OnOk result (SeatsStand script.now program.now (M.past machine.new) seats.now) }
    ensures setup { M.setup machine.new ≡ setup_of script.now }
{
    let _answer = machine.step(Thread(0), Call::Advance)?;
    Ok(())
}

/// Makes the next call of the actor that was chosen.
fn turn<M: Machine>(
    script: &Script,
    program: &Program,
    machine: &mut M,
    seats: &mut Vec<Seat>,
    actor: u8,
) -> Result<(), AllocError>
    requires small { script.now.budget ≤ 65536 }
    requires setup { M.setup machine.old ≡ setup_of script.now }
    requires seats { SeatsStand script.now program.now (M.past machine.old) seats.old.items }
    requires chosen { choice script.now (M.past machine.old) ≡ Some actor }
    requires room { is_full (M.past machine.old) ≡ false }
    requires run { IsRun script.now (M.past machine.old) }
    ensures moved { OnOk result (HasMoved script.now (M.past machine.old) (M.past machine.new) actor) }
    ensures seats { OnOk result (SeatsStand script.now program.now (M.past machine.new) seats.new.items) }
    ensures setup { M.setup machine.new ≡ setup_of script.now }
{
    if actor == 0 {
        return move_clock(script, program, machine, seats);
    }
    move_thread(script, program, machine, seats, actor)
}

/// Whether all threads have ended.
fn have_all_ended<M: Machine>(script: &Script, machine: &M, seats: &[Seat]) -> bool
    requires seats { SeatsCount script.now (M.past machine.now) seats.now }
    ensures { result ≡ have_all_ended (setup_of script.now) (M.past machine.now) }
{
    for seat in seats {
        if !seat.ended {
            return false;
        }
    }
    true
}

/// Whether the last entry of a history says that nothing can go on.
pub fn ends_stuck(history: &[Entry]) -> bool
    ensures { result ≡ ends_stuck (reverse history.now) }
{
    match history.last() {
        Some(entry) => entry.who.0 == 0 && matches!(entry.answer, Answer::Stuck),
        None => false,
    }
}

/// How a run that is over has ended: nobody can move, not even the clock.
pub fn end_of<M: Machine>(script: &Script, machine: &M, seats: &[Seat]) -> End
    requires seats { SeatsCount script.now (M.past machine.now) seats.now }
    requires run { IsRun script.now (M.past machine.now) }
    requires over { choice script.now (M.past machine.now) ≡ None }
    ensures { result ≡ end_of script.now (M.past machine.now) }
{
    if have_all_ended(script, machine, seats) {
        return End::Done;
    }
    if ends_stuck(machine.history()) {
        return End::Stuck;
    }
    End::Spent
}

/// Runs a script on a machine that is borrowed.
fn run_on<M: Machine>(alloc: Global, script: &Script, machine: &mut M) -> Result<End, AllocError>
    requires few { length script.now.threads ≤ 15 }
    requires small { script.now.budget ≤ 65536 }
    requires empty { M.past machine.old ≡ [] }
    requires setup { M.setup machine.old ≡ setup_of script.now }
    ensures run { OnOk result (IsListed script.now (M.past machine.new)) }
    ensures end { IfOk result (λ end. end ≡ end_of script.now (M.past machine.new)) }
    ensures setup { M.setup machine.new ≡ setup_of script.now }
{
    let program = Program::new(alloc, script)?;
    let mut seats = new_seats(alloc, script, &program)?;
    let mut last = 0;
    let mut place = 0;
    while let Some(chosen) = choose(script, machine, &seats, last, place) {
        turn(script, &program, machine, &mut seats, chosen.actor)?;
        place = chosen.place;
        if chosen.actor != 0 {
            last = chosen.actor;
        }
    }
    Ok(end_of(script, machine, &seats))
}

/// Runs a script on a machine without entries, and gives the machine back with how the run ended.
///
/// The next number of the order list that is a thread's that can move says who moves; a thread can where
/// it isn't idle and has some of its budget left. Once the list is used up, next moves the first thread
/// after the last that moved that can, and after the highest the lowest again; where none can, the clock
/// goes on. A call that waits is made again in a later turn. `AllocError` comes only for want of memory,
/// and the machine is let go.
pub fn run_listed<M: Machine + Drop>(
    alloc: Global,
    script: &Script,
    machine: M,
) -> Result<(M, End), AllocError>
    requires few { length script.now.threads ≤ 15 }
    requires small { script.now.budget ≤ 65536 }
    requires empty { M.past machine ≡ [] }
    requires setup { M.setup machine ≡ setup_of script.now }
    ensures run { IfOk result (λ r. IsListed script.now (M.past r.0)) }
    ensures lawful { IfOk result (λ r. IsLawful (setup_of script.now) (M.past r.0)) }
    ensures end { IfOk result (λ r. r.1 ≡ end_of script.now (M.past r.0)) }
    ensures over { IfOk result (λ r. r.1 ≢ End.Cut) }
    ensures setup { IfOk result (λ r. M.setup r.0 ≡ setup_of script.now) }
{
    let mut machine = machine;
    let end = run_on(alloc, script, &mut machine)?;
    Ok((machine, end))
}
