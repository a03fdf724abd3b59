//! One run, made from the beginning: along the steps that were kept, and then by the least that may move.

ghost use Rattle.std.specs.Prelude.{ℕ, ◌≡◌, ◌<◌, ◌≤◌, ◌+◌, List, [], ◌∷◌, ◌++◌, length, IfOk, OnOk, true, false, if◌then◌else◌, None, Some};
ghost use Rattle.user_model.specs.Past.{Past, is_full};
ghost use Rattle.user_model.specs.Idle.{is_barred};
ghost use Rattle.script_tree.specs.Tree.{Tree};
ghost use Rattle.log_text.specs.Ends.{setup_of};
ghost use Rattle.user_pool.specs.Runs.{IsRun, is_runnable};
ghost use Rattle.user_pool.specs.Moves.{HasGoneOn};
ghost use Rattle.user_pool.specs.Seats.{SeatsStand, SeatsCount};
ghost use Rattle.run_explorer.specs.Orders.{is_switch, switches};
ghost use Rattle.run_explorer.specs.Steps.{is_held, next_above, least, is_choice, turns, counts, IsAt, CanGoOn, MayTake, IsMadeBy};
ghost use Rattle.run_explorer.specs.Parts.{IsPart, IsPartOf, IsShare};
ghost use Rattle.run_explorer.specs.Searches.{IsOpen, IsPassed, actors};

use crate::part::{Part, Share, deciding};
use crate::step::{Position, Step};
use script_proc::Program;
use script_tree::Script;
use std::alloc::AllocError;
use user_model::Machine;
use user_pool::{Seat, first_above, move_clock, move_thread, runnable};
use win_num::Thread;

/// Whether the thread that moved last could still move, and no switch is left.
fn is_held<M: Machine>(
    script: &Script,
    machine: &M,
    seats: &[Seat],
    position: Position,
    bound: u16,
) -> bool
    requires setup { M.setup machine.now ≡ setup_of script.now }
    requires seats { SeatsCount script.now (M.past machine.now) seats.now }
    requires position { IsAt script.now (M.past machine.now) position }
    ensures { result ≡ is_held script.now bound (M.past machine.now) }
{
    bound <= position.switches && runnable(script, machine, seats, position.last)
}

/// The least thread above a number that may move.
fn next_above<M: Machine>(
    script: &Script,
    machine: &M,
    seats: &[Seat],
    position: Position,
    bound: u16,
    low: u8,
) -> Option<u8>
    requires few { length script.now.threads ≤ 15 }
    requires setup { M.setup machine.now ≡ setup_of script.now }
    requires seats { SeatsCount script.now (M.past machine.now) seats.now }
    requires position { IsAt script.now (M.past machine.now) position }
    ensures { result ≡ next_above script.now bound (M.past machine.now) low }
{
    if is_held(script, machine, seats, position, bound) {
        return if low < position.last {
            Some(position.last)
        } else {
            None
        };
    }
    first_above(script, machine, seats, low)
}

/// Who moves first at this place: the least thread that may, else the clock, unless it is barred.
fn least<M: Machine>(
    script: &Script,
    machine: &M,
    seats: &[Seat],
    position: Position,
    bound: u16,
) -> Option<u8>
    requires few { length script.now.threads ≤ 15 }
    requires setup { M.setup machine.now ≡ setup_of script.now }
    requires seats { SeatsCount script.now (M.past machine.now) seats.now }
    requires position { IsAt script.now (M.past machine.now) position }
    ensures { result ≡ least script.now bound (M.past machine.now) }
{
    if let Some(thread) = next_above(script, machine, seats, position, bound, 0) {
        return Some(thread);
    }
    if machine.barred(Thread(0)) {
        None
    } else {
        Some(0)
    }
}

/// Whether two threads or more may move.
fn is_choice<M: Machine>(
    script: &Script,
    machine: &M,
    seats: &[Seat],
    position: Position,
    bound: u16,
) -> bool
    requires few { length script.now.threads ≤ 15 }
    requires setup { M.setup machine.now ≡ setup_of script.now }
    requires seats { SeatsCount script.now (M.past machine.now) seats.now }
    requires position { IsAt script.now (M.past machine.now) position }
    ensures { result ≡ is_choice script.now bound (M.past machine.now) }
{
    match next_above(script, machine, seats, position, bound, 0) {
        Some(thread) => next_above(script, machine, seats, position, bound, thread).is_some(),
        None => false,
    }
}

/// Whether a move is one of those that decide which part the run is of.
fn counts<M: Machine>(
    script: &Script,
    machine: &M,
    seats: &[Seat],
    position: Position,
    so_far: usize,
    bound: u16,
    mover: u8,
) -> bool
    requires few { length script.now.threads ≤ 15 }
    requires setup { M.setup machine.now ≡ setup_of script.now }
    requires seats { SeatsCount script.now (M.past machine.now) seats.now }
    requires position { IsAt script.now (M.past machine.now) position }
    requires so_far { so_far ≡ turns script.now bound (M.past machine.now) }
    ensures { result ≡ counts script.now bound (M.past machine.now) mover }
{
    if so_far >= deciding(bound) || mover == 0 || mover == position.last {
        return false;
    }
    is_choice(script, machine, seats, position, bound)
}

/// Where a run stands once the mover has moved.
fn position_after<M: Machine>(
    script: &Script,
    machine: &M,
    seats: &[Seat],
    position: Position,
    mover: u8,
) -> Position
    requires setup { M.setup machine.now ≡ setup_of script.now }
    requires seats { SeatsCount script.now (M.past machine.now) seats.now }
    requires position { IsAt script.now (M.past machine.now) position }
    requires room { is_switch script.now (M.past machine.now) mover ≡ true → switches script.now (M.past machine.now) < 65535 }
    ensures thread { 0 < mover → result.last ≡ mover }
    ensures clock { mover ≡ 0 → result.last ≡ position.last }
    ensures switches { result.switches ≡ switches script.now (M.past machine.now) + (if is_switch script.now (M.past machine.now) mover then 1 else 0) }
{
    if mover == 0 {
        return position;
    }
    let takes = mover != position.last && runnable(script, machine, seats, position.last);
    let switches = if takes {
        position.switches + 1
    } else {
        position.switches
    };
    Position {
        last: mover,
        switches,
    }
}

/// Makes the next call of an actor that may move.
fn make_move<M: Machine>(
    script: &Script,
    program: &Program,
    machine: &mut M,
    seats: &mut Vec<Seat>,
    mover: u8,
) -> Result<(), AllocError>
    requires few { length script.now.threads ≤ 15 }
    requires small { script.now.budget ≤ 65536 }
    requires setup { M.setup machine.old ≡ setup_of script.now }
    requires seats { SeatsStand script.now program.now (M.past machine.old) seats.old.items }
    requires free { CanGoOn script.now (M.past machine.old) mover }
    requires run { IsRun script.now (M.past machine.old) }
    ensures moved { OnOk result (HasGoneOn script.now (M.past machine.old) (M.past machine.new) mover) }
    ensures seats { OnOk result (SeatsStand script.now program.now (M.past machine.new) seats.new.items) }
    ensures setup { M.setup machine.new ≡ setup_of script.now }
{
    if mover == 0 {
        return move_clock(script, program, machine, seats);
    }
    move_thread(script, program, machine, seats, mover)
}

/// Goes along the steps of a run.
pub fn replay<M: Machine>(
    script: &Script,
    program: &Program,
    machine: &mut M,
    seats: &mut Vec<Seat>,
    steps: &[Step],
) -> Result<(), AllocError>
    requires few { length script.now.threads ≤ 15 }
    requires small { script.now.budget ≤ 65536 }
    requires setup { M.setup machine.old ≡ setup_of script.now }
    requires seats { SeatsStand script.now program.now (M.past machine.old) seats.old.items }
    requires empty { M.past machine.old ≡ [] }
    requires made { (bound : ℕ) × (past : Past) × IsMadeBy script.now bound steps.now past }
    ensures made { OnOk result ((bound : ℕ) (past : Past) → IsMadeBy script.now bound steps.now past → M.past machine.new ≡ past) }
    ensures seats { OnOk result (SeatsStand script.now program.now (M.past machine.new) seats.new.items) }
    ensures setup { M.setup machine.new ≡ setup_of script.now }
{
    for step in steps {
        make_move(script, program, machine, seats, step.mover)?;
    }
    Ok(())
}

/// Where a run stands, and what it has decided.
#[derive(Clone, Copy)]
pub struct Place {
    pub position: Position,
    pub share: Share,
}

/// Makes one step of a run, and keeps it.
pub fn take_step<M: Machine>(
    script: &Script,
    program: &Program,
    bound: u16,
    part: Part,
    machine: &mut M,
    seats: &mut Vec<Seat>,
    steps: &mut Vec<Step>,
    place: Place,
    mover: u8,
) -> Result<Place, AllocError>
    requires few { length script.now.threads ≤ 15 }
    requires small { script.now.budget ≤ 65536 }
    requires part { IsPart part }
    requires setup { M.setup machine.old ≡ setup_of script.now }
    requires seats { SeatsStand script.now program.now (M.past machine.old) seats.old.items }
    requires made { IsMadeBy script.now bound steps.old.items (M.past machine.old) }
    requires position { IsAt script.now (M.past machine.old) place.position }
    requires share { IsShare script.now bound part.count (M.past machine.old) place.share }
    requires may { MayTake script.now bound (M.past machine.old) mover }
    ensures moved { OnOk result (HasGoneOn script.now (M.past machine.old) (M.past machine.new) mover) }
    ensures made { OnOk result (IsMadeBy script.now bound steps.new.items (M.past machine.new)) }
    ensures along { OnOk result (actors steps.new.items ≡ actors steps.old.items ++ mover ∷ []) }
    ensures position { IfOk result (λ after. IsAt script.now (M.past machine.new) after.position) }
    ensures share { IfOk result (λ after. IsShare script.now bound part.count (M.past machine.new) after.share) }
    ensures seats { OnOk result (SeatsStand script.now program.now (M.past machine.new) seats.new.items) }
    ensures setup { M.setup machine.new ≡ setup_of script.now }
{
    let position = place.position;
    let so_far = place.share.turns;
    let counted = counts(script, machine, seats, position, so_far, bound, mover);
    let share = place.share.after(counted, steps.len(), mover, part.count);
    let next = next_above(script, machine, seats, position, bound, mover);
    steps.push(Step {
        mover,
        counted,
        position,
        next,
    })?;
    let position = position_after(script, machine, seats, position, mover);
    make_move(script, program, machine, seats, mover)?;
    Ok(Place { position, share })
}

/// Whether it is decided that a run is of no such part as this.
fn is_passed(place: Place, bound: u16, part: Part) -> bool
    requires part { IsPart part }
    ensures { result ≡ true → (s : Tree) (past : Past) → IsShare s bound part.count past place.share → IsPassed s bound part past }
{
    place.share.turns >= deciding(bound) && !place.share.is_of(part)
}

/// Goes on to the end of a run by the least that may move, or up to where it is decided that it is of another part.
/// Says whether it is of the part.
pub fn go_on<M: Machine>(
    script: &Script,
    program: &Program,
    bound: u16,
    part: Part,
    machine: &mut M,
    seats: &mut Vec<Seat>,
    steps: &mut Vec<Step>,
    place: Place,
) -> Result<bool, AllocError>
    requires few { length script.now.threads ≤ 15 }
    requires small { script.now.budget ≤ 65536 }
    requires part { IsPart part }
    requires setup { M.setup machine.old ≡ setup_of script.now }
    requires seats { SeatsStand script.now program.now (M.past machine.old) seats.old.items }
    requires made { IsMadeBy script.now bound steps.old.items (M.past machine.old) }
    requires position { IsAt script.now (M.past machine.old) place.position }
    requires share { IsShare script.now bound part.count (M.past machine.old) place.share }
    ensures made { OnOk result (IsMadeBy script.now bound steps.new.items (M.past machine.new)) }
    ensures along { OnOk result ((rest : List ℕ) × (actors steps.new.items ≡ actors steps.old.items ++ rest)) }
    ensures within { IfOk result (λ is. is ≡ true → IsPartOf script.now bound part (M.past machine.new)) }
    ensures passed { IfOk result (λ is. is ≡ false → IsPassed script.now bound part (M.past machine.new)) }
    ensures kept { OnOk result ((runs : List Past) → IsOpen script.now bound part runs (M.past machine.old) → IsOpen script.now bound part runs (M.past machine.new)) }
    ensures seats { OnOk result (SeatsStand script.now program.now (M.past machine.new) seats.new.items) }
    ensures setup { M.setup machine.new ≡ setup_of script.now }
{
    let mut place = place;
    while let Some(mover) = least(script, machine, seats, place.position, bound) {
        if is_passed(place, bound, part) {
            return Ok(false);
        }
        place = take_step(
            script, program, bound, part, machine, seats, steps, place, mover,
        )?;
    }
    Ok(place.share.is_of(part))
}
