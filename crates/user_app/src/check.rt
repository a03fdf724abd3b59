//! Checking a log.

ghost use Rattle.std.specs.Prelude.{◌≡◌, IfOk, []};
ghost use Rattle.user_io.specs.Text.{Adds};
ghost use Rattle.user_io.specs.Outside.{Rose};
ghost use Rattle.user_model.specs.Legal.{IsLawful};
ghost use Rattle.script_text.specs.Limits.{IsScript};
ghost use Rattle.log_text.specs.Ends.{setup_of};
ghost use Rattle.log_read.specs.Limits.{IsLog};
ghost use Rattle.user_app.specs.Checks.{CheckEnds, LogChecks, LegalEnds, IllegalEnds, legal_text};
ghost use Rattle.user_app.specs.Outcomes.{IsWhole};

use crate::app::machine;
use crate::input::{InputFault, read_input};
use crate::refusal::refuse;
use crate::status::Status;
use illegal_text::{Illegal, write_illegal};
use log_read::Log;
use log_replay::replay;
use log_text::WriteFault;
use script_tree::Script;
use std::alloc::{AllocError, Global};
use user_io::text::{put_operand, put_text};
use user_io::{Sink, Source, write_all};
use user_model::Machine;

/// Says whether the input is a script with the log of a run.
pub fn check_input<S: Source, K: Sink>(alloc: Global, source: &mut S, sink: &mut K) -> Status
    ensures checked { CheckEnds (S.left source.old) (S.left source.new) (S.faults source.old) (S.faults source.new) (K.holds sink.old) (K.holds sink.new) (K.faults sink.old) (K.faults sink.new) result }
    ensures read_fault { result ≡ Status.ReadFault → Rose (S.faults source.old) (S.faults source.new) × (sink.new ≡ sink.old) }
    ensures write_fault { result ≡ Status.WriteFault → Rose (K.faults sink.old) (K.faults sink.new) }
    ensures whole { IsWhole result → (S.faults source.new ≡ S.faults source.old) × (K.faults sink.new ≡ K.faults sink.old) }
{
    match read_input(alloc, source) {
        Ok((script, log)) => check(alloc, &script, &log, sink),
        Err(InputFault::Failed) => Status::ReadFault,
        Err(InputFault::Refused(refusal)) => refuse(alloc, refusal, sink),
        Err(InputFault::Memory) => Status::Memory,
    }
}

/// Says whether a log is that of a run of the script.
fn check<K: Sink>(alloc: Global, script: &Script, log: &Log, sink: &mut K) -> Status
    requires script { IsScript script.now }
    requires log { IsLog script.now log.now }
    ensures checked { LogChecks script.now log.now (K.holds sink.old) (K.holds sink.new) (K.faults sink.old) (K.faults sink.new) result }
    ensures whole { IsWhole result → K.faults sink.new ≡ K.faults sink.old }
{
    match machine(alloc, script) {
        Ok(user) => check_on(alloc, script, user, log, sink),
        Err(_) => Status::Memory,
    }
}

/// Says whether a log is that of a run of the script, by a machine for the script that has no entries.
fn check_on<M: Machine + Drop, K: Sink>(
    alloc: Global,
    script: &Script,
    machine: M,
    log: &Log,
    sink: &mut K,
) -> Status
    requires script { IsScript script.now }
    requires log { IsLog script.now log.now }
    requires empty { M.past machine ≡ [] }
    requires setup { M.setup machine ≡ setup_of script.now }
    ensures checked { LogChecks script.now log.now (K.holds sink.old) (K.holds sink.new) (K.faults sink.old) (K.faults sink.new) result }
    ensures whole { IsWhole result → K.faults sink.new ≡ K.faults sink.old }
{
    match replay(alloc, script, machine, log) {
        Ok(Ok((machine, _))) => write_legal(alloc, machine.history().len(), sink),
        Ok(Err((found, machine))) => tell_illegal(alloc, script, &machine, log, &found, sink),
        Err(_) => Status::Memory,
    }
}

/// The line that says how many entries a log of a run has.
#[tactic(auto, using(user_io::proofs::Texts::two))]
fn legal_line(alloc: Global, entries: usize) -> Result<Vec<u8>, AllocError>
    ensures { IfOk result (λ text. text.items ≡ legal_text entries) }
{
    let mut text = Vec::new(alloc);
    put_text(&mut text, b"legal")?;
    put_operand(&mut text, entries as u64)?;
    put_text(&mut text, b"\n")?;
    Ok(text)
}

/// Says that a log is that of a run with so many entries.
fn write_legal<K: Sink>(alloc: Global, entries: usize, sink: &mut K) -> Status
    ensures written { LegalEnds entries (K.holds sink.old) (K.holds sink.new) (K.faults sink.old) (K.faults sink.new) result }
    ensures whole { IsWhole result → K.faults sink.new ≡ K.faults sink.old }
{
    let Ok(text) = legal_line(alloc, entries) else {
        return Status::Memory;
    };
    match write_all(sink, &text) {
        Ok(()) => Status::Done,
        Err(_) => Status::WriteFault,
    }
}

/// Says what is wrong with a log at its first bad place.
fn tell_illegal<M: Machine, K: Sink>(
    alloc: Global,
    script: &Script,
    machine: &M,
    log: &Log,
    found: &Illegal,
    sink: &mut K,
) -> Status
    requires script { IsScript script.now }
    requires setup { M.setup machine.now ≡ setup_of script.now }
    requires lawful { IsLawful (M.setup machine.now) (M.past machine.now) }
    ensures written { IllegalEnds script.now (M.past machine.now) log.now found.now (K.holds sink.old) (K.holds sink.new) (K.faults sink.old) (K.faults sink.new) result }
    ensures whole { IsWhole result → K.faults sink.new ≡ K.faults sink.old }
{
    match write_illegal(alloc, script, machine, log, found, sink) {
        Ok(()) => Status::Illegal,
        Err(WriteFault::Write) => Status::WriteFault,
        Err(WriteFault::Memory) => Status::Memory,
    }
}
