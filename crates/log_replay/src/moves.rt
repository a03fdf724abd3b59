//! One entry of a log, made again.

ghost use Rattle.std.specs.Prelude.{◌≡◌, ◌<◌, ◌≤◌, ◌∷◌, length, false, List, IfOk, IfSome, IsNone, None};
ghost use Rattle.user_model.specs.Past.{Past, is_full};
ghost use Rattle.user_model.specs.Legal.{IsLawful};
ghost use Rattle.script_tree.specs.Traces.{trace_of};
ghost use Rattle.script_proc.specs.Workers.{IsWorkerOf};
ghost use Rattle.log_text.specs.Ends.{setup_of};
ghost use Rattle.log_text.specs.Frames.{shown};
ghost use Rattle.log_read.specs.Limits.{IsLogEntry};
ghost use Rattle.user_pool.specs.Runs.{IsRun};
ghost use Rattle.log_replay.specs.Replays.{AnswerTold, ClockHeld, MoveTold, FrameTold, EntryTold};
ghost use Rattle.log_replay.specs.Workers.{WorkersStand};

use crate::differences::first_row;
use crate::same::{same_answer, same_call};
use illegal_text::{LogEntry, Over, Why, first_busy};
use log_text::frame_at;
use script_proc::{Program, Worker};
use script_tree::Script;
use std::alloc::AllocError;
use user_model::{Answer, Call, Entry, Machine};
use win_num::Thread;

/// What is wrong with an answer, if anything is.
fn answer_fault(found: Answer, right: Answer) -> Option<Why>
    ensures { AnswerTold found right result }
{
    if same_answer(found, right) {
        None
    } else {
        Some(Why::Answer(right))
    }
}

/// What keeps the clock from going on, if anything does.
fn clock_fault<M: Machine>(script: &Script, machine: &M) -> Option<Why>
    requires few { length script.now.threads ≤ 15 }
    requires setup { M.setup machine.now ≡ setup_of script.now }
    ensures { ClockHeld script.now (M.past machine.now) result }
{
    if !machine.barred(Thread(0)) {
        return None;
    }
    match first_busy(script, machine) {
        Some(thread) => Some(Why::Barred(Thread(thread))),
        None => Some(Why::Over(Over::Stop)),
    }
}

/// Makes an entry of the clock, and says what is wrong with it, if anything is.
fn clock_move<M: Machine>(
    script: &Script,
    machine: &mut M,
    entry: Entry,
) -> Result<Option<Why>, AllocError>
    requires few { length script.now.threads ≤ 15 }
    requires setup { M.setup machine.old ≡ setup_of script.now }
    requires clock { entry.who.0 ≡ 0 }
    requires room { is_full (M.past machine.old) ≡ false }
    ensures told { IfOk result (MoveTold script.now (M.past machine.old) (M.past machine.new) entry) }
    ensures setup { M.setup machine.new ≡ setup_of script.now }
{
    if let Some(why) = clock_fault(script, machine) {
        return Ok(Some(why));
    }
    if !same_call(entry.call, Call::Advance) {
        return Ok(Some(Why::Call(Call::Advance)));
    }
    let answer = machine.step(entry.who, Call::Advance)?;
    Ok(answer_fault(entry.answer, answer))
}

/// Makes an entry of a thread, and says what is wrong with it, if anything is.
fn thread_move<M: Machine>(
    script: &Script,
    program: &Program,
    machine: &mut M,
    worker: &mut Worker,
    entry: Entry,
) -> Result<Option<Why>, AllocError>
    requires setup { M.setup machine.old ≡ setup_of script.now }
    requires some { 0 < entry.who.0 }
    requires known { entry.who.0 ≤ length script.now.threads }
    requires worker { IsWorkerOf script.now program.now entry.who.0 (trace_of (M.past machine.old) entry.who.0) worker.old }
    requires room { is_full (M.past machine.old) ≡ false }
    ensures told { IfOk result (MoveTold script.now (M.past machine.old) (M.past machine.new) entry) }
    ensures worker { IfOk result (λ fault. IsNone fault → IsWorkerOf script.now program.now entry.who.0 (trace_of (M.past machine.new) entry.who.0) worker.new) }
    ensures setup { M.setup machine.new ≡ setup_of script.now }
{
    let Some(call) = worker.next_call(program)? else {
        return Ok(Some(Why::Over(Over::Ended)));
    };
    let spent = worker.used() >= program.budget();
    if spent {
        return Ok(Some(Why::Over(Over::Spent)));
    }
    if machine.barred(entry.who) {
        return Ok(Some(Why::Barred(entry.who)));
    }
    if !same_call(entry.call, call) {
        return Ok(Some(Why::Call(call)));
    }
    let answer = machine.step(entry.who, call)?;
    worker.take(&call, &answer);
    Ok(answer_fault(entry.answer, answer))
}

/// Makes an entry, and says what is wrong with it, if anything is.
fn replay_move<M: Machine>(
    script: &Script,
    program: &Program,
    machine: &mut M,
    workers: &mut Vec<Worker>,
    entry: Entry,
) -> Result<Option<Why>, AllocError>
    requires few { length script.now.threads ≤ 15 }
    requires setup { M.setup machine.old ≡ setup_of script.now }
    requires workers { WorkersStand script.now program.now (M.past machine.old) workers.old.items }
    requires room { is_full (M.past machine.old) ≡ false }
    ensures told { IfOk result (MoveTold script.now (M.past machine.old) (M.past machine.new) entry) }
    ensures workers { IfOk result (λ fault. IsNone fault → WorkersStand script.now program.now (M.past machine.new) workers.new.items) }
    ensures setup { M.setup machine.new ≡ setup_of script.now }
{
    let actor = entry.who.0;
    if actor == 0 {
        return clock_move(script, machine, entry);
    }
    if actor as usize > workers.len() {
        return Ok(Some(Why::Over(Over::Absent)));
    }
    let worker = &mut workers[(actor - 1) as usize];
    thread_move(script, program, machine, worker, entry)
}

/// What is wrong with the frame of the machine's newest entry, if anything is.
fn frame_fault<M: Machine>(script: &Script, machine: &M, entry: &LogEntry) -> Option<Why>
    requires setup { M.setup machine.now ≡ setup_of script.now }
    requires lawful { IsLawful (setup_of script.now) (M.past machine.now) }
    requires entry { IsLogEntry script.now entry.now }
    ensures { (before : Past) → M.past machine.now ≡ entry.now.entry ∷ before → FrameTold script.now entry.now (shown (setup_of script.now) before entry.now.entry.answer) result }
{
    let found = entry.frame()?;
    let right = frame_at(machine, entry.entry())?;
    let row = first_row(script.width(), script.height(), found, right)?;
    Some(Why::Frame(row))
}

/// Makes an entry of a log, and says what is wrong with it or with its frame, if anything is.
pub fn replay_entry<M: Machine>(
    script: &Script,
    program: &Program,
    machine: &mut M,
    workers: &mut Vec<Worker>,
    entry: &LogEntry,
) -> Result<Option<Why>, AllocError>
    requires few { length script.now.threads ≤ 15 }
    requires setup { M.setup machine.old ≡ setup_of script.now }
    requires workers { WorkersStand script.now program.now (M.past machine.old) workers.old.items }
    requires room { is_full (M.past machine.old) ≡ false }
    requires run { IsRun script.now (M.past machine.old) }
    requires entry { IsLogEntry script.now entry.now }
    ensures told { IfOk result (EntryTold script.now (M.past machine.old) (M.past machine.new) entry.now) }
    ensures workers { IfOk result (λ fault. IsNone fault → WorkersStand script.now program.now (M.past machine.new) workers.new.items) }
    ensures setup { M.setup machine.new ≡ setup_of script.now }
{
    if let Some(why) = replay_move(script, program, machine, workers, entry.entry())? {
        return Ok(Some(why));
    }
    Ok(frame_fault(script, machine, entry))
}
