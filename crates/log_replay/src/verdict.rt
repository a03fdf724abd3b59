//! A log, made again.

ghost use Rattle.std.specs.Prelude.{◌≡◌, ◌≤◌, [], length, IfOk, IfErr, IfSome, IsNone};
ghost use Rattle.std.specs.List.{AllByRecursion};
ghost use Rattle.user_model.specs.Legal.{IsLawful};
ghost use Rattle.log_text.specs.Ends.{setup_of, end_of};
ghost use Rattle.log_read.specs.Limits.{IsLogEntry, IsLog};
ghost use Rattle.log_read.specs.Logs.{log_of, log_entries_of};
ghost use Rattle.user_pool.specs.Runs.{IsRun};
ghost use Rattle.script_proc.specs.Programs.{IsProgramOf};
ghost use Rattle.log_replay.specs.Replays.{IsRunLog, IsNoRunLog, IsFirstBad, IsStoppedAt};

use crate::differences::first_line;
use crate::laws::illegal_logs_are_no_runs;
use crate::moves::replay_entry;
use crate::workers::new_workers;
use illegal_text::{Illegal, Log, LogEntry, Why, end_of, found_lines, right_lines};
use log_text::End;
use script_proc::Program;
use script_tree::Script;
use std::alloc::{AllocError, Global};
use user_model::Machine;

/// Makes the entries of a log up to the first that is wrong, if one is.
fn replay_entries<M: Machine>(
    alloc: Global,
    script: &Script,
    machine: &mut M,
    entries: &[LogEntry],
) -> Result<Option<Illegal>, AllocError>
    requires few { length script.now.threads ≤ 15 }
    requires small { script.now.budget ≤ 65536 }
    requires entries { AllByRecursion (IsLogEntry script.now) entries.now }
    requires empty { M.past machine.old ≡ [] }
    requires setup { M.setup machine.old ≡ setup_of script.now }
    ensures run { IfOk result (λ found. IsNone found → IsRun script.now (M.past machine.new)) }
    ensures made { IfOk result (λ found. IsNone found → entries.now ≡ log_entries_of script.now (M.past machine.new)) }
    ensures stopped { IfOk result (λ found. IfSome found (IsStoppedAt script.now entries.now (M.past machine.new))) }
    ensures setup { M.setup machine.new ≡ setup_of script.now }
{
    let program = Program::new(alloc, script)?;
    let mut workers = new_workers(alloc, script, &program)?;
    let mut place = 0;
    for entry in entries {
        if let Some(why) = replay_entry(script, &program, machine, &mut workers, entry)? {
            return Ok(Some(Illegal { place, why }));
        }
        place += 1;
    }
    Ok(None)
}

/// What is wrong with the ending of a log whose entries are the machine's, if anything is.
fn ending_fault<M: Machine>(
    alloc: Global,
    script: &Script,
    machine: &M,
    log: &Log,
) -> Result<Option<Illegal>, AllocError>
    requires few { length script.now.threads ≤ 15 }
    requires small { script.now.budget ≤ 65536 }
    requires setup { M.setup machine.now ≡ setup_of script.now }
    requires run { IsRun script.now (M.past machine.now) }
    requires entries { log.now.entries ≡ log_entries_of script.now (M.past machine.now) }
    ensures same { IfOk result (λ found. IsNone found → log.now ≡ log_of script.now (M.past machine.now)) }
    ensures bad { IfOk result (λ found. IfSome found (IsFirstBad script.now log.now (M.past machine.now))) }
{
    let found = found_lines(alloc, log)?;
    let right = right_lines(alloc, script, machine)?;
    let place = machine.history().len() as u32;
    match first_line(&found, &right) {
        Some(line) => Ok(Some(Illegal {
            place,
            why: Why::EndLine(line),
        })),
        None => Ok(None),
    }
}

/// Makes the entries of a log, and says what is the first bad place, if there is one.
fn replay_on<M: Machine>(
    alloc: Global,
    script: &Script,
    machine: &mut M,
    log: &Log,
) -> Result<Option<Illegal>, AllocError>
    requires few { length script.now.threads ≤ 15 }
    requires small { script.now.budget ≤ 65536 }
    requires log { IsLog script.now log.now }
    requires empty { M.past machine.old ≡ [] }
    requires setup { M.setup machine.old ≡ setup_of script.now }
    ensures legal { IfOk result (λ found. IsNone found → IsRunLog script.now log.now (M.past machine.new)) }
    ensures illegal { IfOk result (λ found. IfSome found (IsFirstBad script.now log.now (M.past machine.new))) }
    ensures setup { M.setup machine.new ≡ setup_of script.now }
{
    if let Some(found) = replay_entries(alloc, script, machine, log.entries())? {
        return Ok(Some(found));
    }
    ending_fault(alloc, script, machine, log)
}

/// Makes the entries of a log again on a machine without entries. Where the log is that of a run of the script,
/// the machine has the run's history, and the end of the run is told. Where it is no run's, the first bad place is
/// told with its reason; the machine has made the entries before it, for `Frame` the one there too, and for `EndLine`
/// just those of the log. `AllocError` comes only for want of memory, and the machine is let go.
pub fn replay<M: Machine + Drop>(
    alloc: Global,
    script: &Script,
    machine: M,
    log: &Log,
) -> Result<Result<(M, End), (Illegal, M)>, AllocError>
    requires few { length script.now.threads ≤ 15 }
    requires small { script.now.budget ≤ 65536 }
    requires log { IsLog script.now log.now }
    requires empty { M.past machine ≡ [] }
    requires setup { M.setup machine ≡ setup_of script.now }

    // The log is a run's: its entries, frames, end, extra lines and counts.
    ensures legal { IfOk result (λ told. IfOk told (λ r. IsRunLog script.now log.now (M.past r.0))) }
    ensures end { IfOk result (λ told. IfOk told (λ r. r.1 ≡ end_of script.now (M.past r.0))) }
    ensures setup { IfOk result (λ told. IfOk told (λ r. M.setup r.0 ≡ setup_of script.now)) }

    // It is no run's, and this is the first bad place and its reason.
    ensures no_run { IfOk result (λ told. IfErr told (λ r. IsNoRunLog script.now log.now)) }
    ensures first { IfOk result (λ told. IfErr told (λ r. IsFirstBad script.now log.now (M.past r.1) r.0)) }
    ensures lawful { IfOk result (λ told. IfErr told (λ r. IsLawful (setup_of script.now) (M.past r.1))) }
    ensures setup_too { IfOk result (λ told. IfErr told (λ r. M.setup r.1 ≡ setup_of script.now)) }
{
    let mut machine = machine;
    illegal_logs_are_no_runs();
    match replay_on(alloc, script, &mut machine, log)? {
        Some(found) => Ok(Err((found, machine))),
        None => {
            let end = end_of(script, &machine);
            Ok(Ok((machine, end)))
        }
    }
}
