//! All runs within a bound, one after another.

ghost use Rattle.std.specs.Prelude.{◌≡◌, ◌<◌, ◌≤◌, ◌+◌, [], length, IfOk, OnOk, option_copied};
ghost use Rattle.script_proc.specs.Programs.{IsProgramOf};
ghost use Rattle.log_text.specs.Ends.{setup_of};
ghost use Rattle.run_explorer.specs.Parts.{IsPart};
ghost use Rattle.run_explorer.specs.Searches.{HaveBeenMade, IsFurther, IsAlong};
ghost use Rattle.run_explorer.specs.Reports.{IsSized, Explored};

use crate::mark::is_marked;
use crate::part::Part;
use crate::path::Path;
use crate::report::Report;
use crate::run::make_run;
use script_proc::Program;
use script_tree::Script;
use std::alloc::{AllocError, Global};
use user_model::Machine;

/// Makes the next run of a path on a machine without entries, and tells of it where it is of the part.
fn tell_run<M: Machine + Drop>(
    alloc: Global,
    script: &Script,
    program: &Program,
    bound: u16,
    part: Part,
    name: Option<&[u8]>,
    machine: M,
    path: &mut Path,
    report: &mut Report,
) -> Result<(), AllocError>
    requires program { IsProgramOf script.now program.now }
    requires few { length script.now.threads ≤ 15 }
    requires small { script.now.budget ≤ 65536 }
    requires part { IsPart part }
    requires empty { M.past machine ≡ [] }
    requires setup { M.setup machine ≡ setup_of script.now }
    requires made { HaveBeenMade script.now bound part (option_copied name) path.old report.old }
    requires room { report.old.runs < 4294967295 }
    requires sized { IsSized report.old }
    ensures further { OnOk result (IsFurther script.now bound part (option_copied name.entry) path.new report.new) }
    ensures along { OnOk result (IsAlong path.new path.old) }
    ensures count { OnOk result (report.new.runs ≤ report.old.runs + 1) }
    ensures sized { OnOk result (IsSized report.new) }
    ensures same { OnOk result (report.new.is_all ≡ report.old.is_all) }
{
    let mut machine = machine;
    match make_run(alloc, script, program, bound, part, &mut machine, path)? {
        Some(end) => {
            let marks = is_marked(script, name, machine.history());
            report.add(alloc, end, marks, &path.steps)
        }
        None => Ok(()),
    }
}

/// Makes the runs of a script with at most so many switches that are of a part, one after another, each once and on a
/// machine of its own, in the order of who moves in them, and no more of them than the limit. Where there is a name, the
/// runs in which some thread makes `message` of it are told too. The script's own order list is passed over. `AllocError`
/// comes only for want of memory, or from a new machine.
pub fn explore<M: Machine + Drop, F: Fn() -> Result<M, AllocError>>(
    alloc: Global,
    script: &Script,
    bound: u16,
    limit: u32,
    part: Part,
    name: Option<&[u8]>,
    new_machine: F,
) -> Result<Report, AllocError>
    requires few { length script.now.threads ≤ 15 }
    requires small { script.now.budget ≤ 65536 }
    requires part { IsPart part }
    requires callable { F.IsAlwaysCallable new_machine }
    requires new { (made : _) → F.post new_machine made → IfOk made (λ m. (M.past m ≡ []) × (M.setup m ≡ setup_of script.now)) }
    ensures { IfOk result (λ report. Explored script.now bound limit part (option_copied name.entry) report) }
{
    let program = Program::new(alloc, script)?;
    let mut path = Path::new(alloc);
    let mut report = Report::new(name.is_some());
    while report.runs < limit {
        let machine = new_machine()?;
        tell_run(
            alloc,
            script,
            &program,
            bound,
            part,
            name,
            machine,
            &mut path,
            &mut report,
        )?;
        if !path.turn_back() {
            report.is_all = true;
            return Ok(report);
        }
    }
    Ok(report)
}
