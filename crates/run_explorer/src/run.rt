//! One run of a script, along a path.

ghost use Rattle.std.specs.Prelude.{◌≡◌, ◌≤◌, [], List, length, IfOk, OnOk};
ghost use Rattle.user_model.specs.Past.{Past};
ghost use Rattle.script_proc.specs.Programs.{IsProgramOf};
ghost use Rattle.log_text.specs.Ends.{setup_of};
ghost use Rattle.run_explorer.specs.Parts.{IsPart, IsShare};
ghost use Rattle.run_explorer.specs.Steps.{IsAt, IsMadeBy};
ghost use Rattle.user_pool.specs.Seats.{SeatsStand};
ghost use Rattle.run_explorer.specs.Searches.{IsWay, IsOpen, HasComeOut, IsAlong, actors, actors_along};

use crate::part::{Part, share_of};
use crate::path::Path;
use crate::play::{Place, go_on, replay, take_step};
use log_text::End;
use script_proc::Program;
use script_tree::Script;
use std::alloc::{AllocError, Global};
use user_model::Machine;
use user_pool::{Seat, end_of, new_seats};

/// Goes along the steps of a path, and makes the move by which it turns off, where it does.
fn begin_run<M: Machine>(
    script: &Script,
    program: &Program,
    bound: u16,
    part: Part,
    machine: &mut M,
    seats: &mut Vec<Seat>,
    path: &mut Path,
) -> Result<Place, AllocError>
    requires few { length script.now.threads ≤ 15 }
    requires small { script.now.budget ≤ 65536 }
    requires part { IsPart part }
    requires setup { M.setup machine.old ≡ setup_of script.now }
    requires seats { SeatsStand script.now program.now (M.past machine.old) seats.old.items }
    requires empty { M.past machine.old ≡ [] }
    requires way { (runs : List Past) × IsWay script.now bound part runs path.old }
    ensures made { OnOk result (IsMadeBy script.now bound path.new.steps.items (M.past machine.new)) }
    ensures along { OnOk result (actors path.new.steps.items ≡ actors_along path.old) }
    ensures position { IfOk result (λ place. IsAt script.now (M.past machine.new) place.position) }
    ensures share { IfOk result (λ place. IsShare script.now bound part.count (M.past machine.new) place.share) }
    ensures kept { OnOk result ((runs : List Past) → IsWay script.now bound part runs path.old → IsOpen script.now bound part runs (M.past machine.new)) }
    ensures seats { OnOk result (SeatsStand script.now program.now (M.past machine.new) seats.new.items) }
    ensures setup { M.setup machine.new ≡ setup_of script.now }
{
    let place = Place {
        position: path.position,
        share: share_of(&path.steps, part.count),
    };
    replay(script, program, machine, seats, &path.steps)?;
    let steps = &mut path.steps;
    match path.turn {
        Some(thread) => take_step(
            script, program, bound, part, machine, seats, steps, place, thread,
        ),
        None => Ok(place),
    }
}

/// Makes the run of a path on a machine without entries, and keeps its steps. None comes where the run is of
/// another part; then it is made up to where this is decided.
pub fn make_run<M: Machine>(
    alloc: Global,
    script: &Script,
    program: &Program,
    bound: u16,
    part: Part,
    machine: &mut M,
    path: &mut Path,
) -> Result<Option<End>, AllocError>
    requires program { IsProgramOf script.now program.now }
    requires few { length script.now.threads ≤ 15 }
    requires small { script.now.budget ≤ 65536 }
    requires part { IsPart part }
    requires empty { M.past machine.old ≡ [] }
    requires setup { M.setup machine.old ≡ setup_of script.now }
    requires way { (runs : List Past) × IsWay script.now bound part runs path.old }
    ensures made { OnOk result (IsMadeBy script.now bound path.new.steps.items (M.past machine.new)) }
    ensures along { OnOk result (IsAlong path.new path.old) }
    ensures come { IfOk result (λ end. HasComeOut script.now bound part (M.past machine.new) end) }
    ensures kept { OnOk result ((runs : List Past) → IsWay script.now bound part runs path.old → IsOpen script.now bound part runs (M.past machine.new)) }
{
    let mut seats = new_seats(alloc, script, program)?;
    let place = begin_run(script, program, bound, part, machine, &mut seats, path)?;
    let steps = &mut path.steps;
    if go_on(
        script, program, bound, part, machine, &mut seats, steps, place,
    )? {
        Ok(Some(end_of(script, machine, &seats)))
    } else {
        Ok(None)
    }
}
