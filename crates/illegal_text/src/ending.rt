//! The right ending of a machine's history.

ghost use Rattle.std.specs.Prelude.{◌≡◌, ◌<◌, ◌≤◌, ◌++◌, length, reverse, IfOk, OnOk};
ghost use Rattle.user_model.specs.Idle.{first_busy, have_all_ended, ends_stuck};
ghost use Rattle.user_model.specs.Threads.{from_each};
ghost use Rattle.script_tree.specs.Tree.{Tree};
ghost use Rattle.log_text.specs.declared.end.End.{End};
ghost use Rattle.log_text.specs.Ends.{setup_of, used, could_go_on, is_spent, end_of};
ghost use Rattle.log_read.specs.Logs.{extra_of, extras_of, log_of};
ghost use Rattle.illegal_text.specs.EndingLines.{ending_lines};

use crate::lines::{EndingLine, lines_of};
use log_read::Extra;
use log_text::{End, has_ended, last_call};
use script_tree::Script;
use std::alloc::{AllocError, Global};
use user_model::{Answer, Entry, Machine};
use win_num::Thread;

/// How many entries of a history are an actor's.
fn used(history: &[Entry], actor: u8) -> usize
    ensures count { result ≡ used (reverse history.now) actor }
    ensures within { result ≤ length history.now }
{
    let mut count = 0;
    for entry in history {
        if entry.who.0 == actor {
            count += 1;
        }
    }
    count
}

/// The lowest thread that isn't idle, if there is one.
pub fn first_busy<M: Machine>(script: &Script, machine: &M) -> Option<u8>
    requires few { length script.now.threads ≤ 15 }
    requires setup { M.setup machine.now ≡ setup_of script.now }
    ensures { result ≡ first_busy (setup_of script.now) (M.past machine.now) }
{
    for thread in 0..script.thread_count() {
        if !machine.barred(Thread(thread + 1)) {
            return Some(thread + 1);
        }
    }
    None
}

/// Whether all threads have ended.
fn have_all_ended<M: Machine>(script: &Script, machine: &M) -> bool
    requires few { length script.now.threads ≤ 15 }
    ensures { result ≡ have_all_ended (setup_of script.now) (M.past machine.now) }
{
    let history = machine.history();
    for thread in 0..script.thread_count() {
        if !has_ended(history, thread + 1) {
            return false;
        }
    }
    true
}

/// Whether the last entry of a history says that nothing can go on.
fn ends_stuck(history: &[Entry]) -> bool
    ensures { result ≡ ends_stuck (reverse history.now) }
{
    match history.last() {
        Some(entry) => entry.who.0 == 0 && matches!(entry.answer, Answer::Stuck),
        None => false,
    }
}

/// Whether a thread isn't idle, and doesn't have as many entries as the budget.
fn could_go_on<M: Machine>(script: &Script, machine: &M, thread: u8) -> bool
    requires some { 0 < thread }
    requires setup { M.setup machine.now ≡ setup_of script.now }
    ensures { result ≡ could_go_on script.now (M.past machine.now) thread }
{
    !machine.barred(Thread(thread)) && used(machine.history(), thread) != script.budget() as usize
}

/// Whether some thread isn't idle, and each such thread has as many entries as the budget.
fn is_spent<M: Machine>(script: &Script, machine: &M) -> bool
    requires few { length script.now.threads ≤ 15 }
    requires setup { M.setup machine.now ≡ setup_of script.now }
    ensures { result ≡ is_spent script.now (M.past machine.now) }
{
    for thread in 0..script.thread_count() {
        if could_go_on(script, machine, thread + 1) {
            return false;
        }
    }
    first_busy(script, machine).is_some()
}

/// How a run with the machine's history ends.
pub fn end_of<M: Machine>(script: &Script, machine: &M) -> End
    requires few { length script.now.threads ≤ 15 }
    requires setup { M.setup machine.now ≡ setup_of script.now }
    ensures { result ≡ end_of script.now (M.past machine.now) }
{
    if have_all_ended(script, machine) {
        return End::Done;
    }
    if ends_stuck(machine.history()) {
        return End::Stuck;
    }
    if is_spent(script, machine) {
        return End::Spent;
    }
    End::Cut
}

/// Adds what is told of a thread that hasn't ended, where all is stuck.
fn put_waiting(extras: &mut Vec<Extra>, history: &[Entry], thread: u8) -> Result<(), AllocError>
    ensures { OnOk result ((s : Tree) → extras.new.items ≡ extras.old.items ++ extra_of s (reverse history.now) End.Stuck thread) }
{
    if has_ended(history, thread) {
        return Ok(());
    }
    if let Some(call) = last_call(history, thread) {
        extras.push(Extra::Waits(Thread(thread), call))?;
    }
    Ok(())
}

/// Adds what is told of a thread beside the entries.
fn put_extra<M: Machine>(
    extras: &mut Vec<Extra>,
    machine: &M,
    end: End,
    thread: u8,
) -> Result<(), AllocError>
    requires some { 0 < thread }
    ensures { OnOk result ((s : Tree) → M.setup machine.now ≡ setup_of s → extras.new.items ≡ extras.old.items ++ extra_of s (M.past machine.now) end thread) }
{
    match end {
        End::Done | End::Cut => {}
        End::Stuck => put_waiting(extras, machine.history(), thread)?,
        End::Spent => {
            if !machine.barred(Thread(thread)) {
                extras.push(Extra::Spent(Thread(thread)))?;
            }
        }
    }
    Ok(())
}

/// What is told of all threads beside the entries, in order.
fn extras_of<M: Machine>(
    alloc: Global,
    script: &Script,
    machine: &M,
    end: End,
) -> Result<Vec<Extra>, AllocError>
    requires few { length script.now.threads ≤ 15 }
    requires setup { M.setup machine.now ≡ setup_of script.now }
    ensures { IfOk result (λ extras. extras.items ≡ extras_of script.now (M.past machine.now) end) }
{
    let mut extras = Vec::new(alloc);
    for thread in 0..script.thread_count() {
        put_extra(&mut extras, machine, end, thread + 1)?;
    }
    Ok(extras)
}

/// The lines after the entries of the log of a run with the machine's history. `AllocError` comes only for want of
/// memory.
pub fn right_lines<M: Machine>(
    alloc: Global,
    script: &Script,
    machine: &M,
) -> Result<Vec<EndingLine>, AllocError>
    requires few { length script.now.threads ≤ 15 }
    requires setup { M.setup machine.now ≡ setup_of script.now }
    ensures { IfOk result (λ lines. lines.items ≡ ending_lines (log_of script.now (M.past machine.now))) }
{
    let end = end_of(script, machine);
    let extras = extras_of(alloc, script, machine, end)?;
    lines_of(alloc, end, &extras, machine.send_count())
}
