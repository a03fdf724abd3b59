//! The workers of a script's threads.

ghost use Rattle.std.specs.Prelude.{◌≤◌, length, IfOk, []};
ghost use Rattle.script_proc.specs.Programs.{IsProgramOf};
ghost use Rattle.log_replay.specs.Workers.{WorkersStand};

use script_proc::{Program, Worker};
use script_tree::Script;
use std::alloc::{AllocError, Global};

/// The workers of a script's threads before the first entry, in order. `AllocError` comes only for want of memory.
pub fn new_workers(
    alloc: Global,
    script: &Script,
    program: &Program,
) -> Result<Vec<Worker>, AllocError>
    requires program { IsProgramOf script.now program.now }
    requires few { length script.now.threads ≤ 15 }
    ensures { IfOk result (λ workers. WorkersStand script.now program.now [] workers.items) }
{
    let mut workers = Vec::new(alloc);
    for thread in 0..script.thread_count() {
        workers.push(Worker::new(alloc, program, thread + 1)?)?;
    }
    Ok(workers)
}
