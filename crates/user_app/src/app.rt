//! The top call.

ghost use Rattle.std.specs.Prelude.{◌≡◌, ◌<◌, ◌≤◌, ℕ, [], IfOk, map};
ghost use Rattle.std.specs.String.{string_bytes};
ghost use Rattle.user_io.specs.Outside.{Rose};
ghost use Rattle.script_text.specs.Limits.{IsScript};
ghost use Rattle.log_text.specs.Ends.{setup_of};
ghost use Rattle.user_app.specs.declared.request.LogForm.{LogForm};
ghost use Rattle.user_pool.specs.Runs.{IsListed};
ghost use Rattle.user_app.specs.Checks.{CheckEnds};
ghost use Rattle.user_app.specs.Requests.{AskNothing, AskToRead, AskForThreads, IsMake, run_words, check_words};
ghost use Rattle.user_app.specs.Made.{IsMade};
ghost use Rattle.user_app.specs.Outcomes.{RunEnds, MakeEnds, InputEnds, IsWhole};

use crate::check::check_input;
use crate::history::write_history;
use crate::input::{InputFault, read_script};
use crate::made::made_script;
use crate::refusal::refuse;
use crate::request::{LogForm, Request, read_words};
use crate::status::{Status, written_status};
use log_text::write_summary;
use script_tree::Script;
use std::alloc::{AllocError, Global};
use user_core::User;
use user_io::{Sink, Source};
use user_model::{Machine, Setup};
use user_pool::{run_listed, runs_answer_their_sends};

/// Does what the words ask for. At the one word `run` it reads a script from the source to its end, runs
/// it, and writes the log of its run into the sink; at `run --json` it writes that log as lines of JSON. At
/// `make` and a number from 1 to 60000, in decimal without leading zeros, it reads nothing, runs the script
/// that is made from the number, and writes the summary of that run.
///
/// `Words` comes exactly where the words are none that the program knows, `WrongCall` where they ask for a run by
/// threads, and `Script` where the input is no script: what is written then is one line, `refused LINE REASON`, with the number
/// of the first line with which no script begins.
/// `Done`, `Stuck` and `Spent` tell how the run ended. `ReadFault` and `WriteFault` come only where the
/// source's or the sink's count of faults has risen. After a failed write, and after want of memory,
/// which may come at any time but for other words, a front of the text was written.
pub fn user_plain<S: Source, K: Sink>(
    alloc: Global,
    words: &[String],
    source: &mut S,
    sink: &mut K,
) -> Status
    // Other words: nothing is read or written.
    ensures words { AskNothing (map string_bytes words.now) → result ≡ Status.Words }
    ensures words_only { result ≡ Status.Words → AskNothing (map string_bytes words.now) × (source.new ≡ source.old) × (sink.new ≡ sink.old) }

    // A run by threads is another call's: nothing is read or written.
    ensures wrong { AskForThreads (map string_bytes words.now) → result ≡ Status.WrongCall }
    ensures wrong_only { result ≡ Status.WrongCall → AskForThreads (map string_bytes words.now) × (source.new ≡ source.old) × (sink.new ≡ sink.old) }

    // A run: the input was read to its end, and what was written is the log of the script's run, in the form asked for; or it is no script, and where and why was written. After a failed write, and after want of memory, a front of that text was written.
    ensures run { (form : LogForm) → map string_bytes words.now ≡ run_words form → InputEnds IsListed form (S.left source.old) (S.left source.new) (K.holds sink.old) (K.holds sink.new) (S.faults source.old) (S.faults source.new) (K.faults sink.old) (K.faults sink.new) result }

    // No script.
    ensures read { result ≡ Status.Script → AskToRead (map string_bytes words.now) }

    // Faults come only from the source and the sink.
    ensures read_fault { result ≡ Status.ReadFault → AskToRead (map string_bytes words.now) × Rose (S.faults source.old) (S.faults source.new) × (sink.new ≡ sink.old) }
    ensures write_fault { result ≡ Status.WriteFault → Rose (K.faults sink.old) (K.faults sink.new) }

    // All is written only where neither the source nor the sink has failed in this call.
    ensures whole { IsWhole result → (S.faults source.new ≡ S.faults source.old) × (K.faults sink.new ≡ K.faults sink.old) }

    // A script that is made: nothing is read, and what was written is the summary of its run.
    ensures made { (n : ℕ) → IsMake (map string_bytes words.now) n → (source.new ≡ source.old) × MakeEnds n (K.holds sink.old) (K.holds sink.new) (K.faults sink.old) (K.faults sink.new) result }

    // A check: the input is a script with the log of a run, whose length was written; or with another log, whose first bad place and its reason were written; or it is neither.
    ensures checked { map string_bytes words.now ≡ check_words → CheckEnds (S.left source.old) (S.left source.new) (S.faults source.old) (S.faults source.new) (K.holds sink.old) (K.holds sink.new) (K.faults sink.old) (K.faults sink.new) result }
    ensures illegal { result ≡ Status.Illegal → map string_bytes words.now ≡ check_words }
{
    match read_words(words) {
        Request::Run(form) => run_input(alloc, form, source, sink),
        Request::Make(number) => run_made(alloc, number, sink),
        Request::Check => check_input(alloc, source, sink),
        Request::Threads(_) => Status::WrongCall,
        Request::Nothing => Status::Words,
    }
}

/// Runs the script in the input, and writes its log in this form.
fn run_input<S: Source, K: Sink>(
    alloc: Global,
    form: LogForm,
    source: &mut S,
    sink: &mut K,
) -> Status
    ensures ends { InputEnds IsListed form (S.left source.old) (S.left source.new) (K.holds sink.old) (K.holds sink.new) (S.faults source.old) (S.faults source.new) (K.faults sink.old) (K.faults sink.new) result }
    ensures read_fault { result ≡ Status.ReadFault → Rose (S.faults source.old) (S.faults source.new) × (sink.new ≡ sink.old) }
    ensures whole { IsWhole result → (S.faults source.new ≡ S.faults source.old) × (K.faults sink.new ≡ K.faults sink.old) }
{
    match read_script(alloc, source) {
        Ok(script) => run(alloc, form, &script, sink),
        Err(InputFault::Failed) => Status::ReadFault,
        Err(InputFault::Refused(refusal)) => refuse(alloc, refusal, sink),
        Err(InputFault::Memory) => Status::Memory,
    }
}

/// The machine for a script.
pub fn machine(alloc: Global, script: &Script) -> Result<User, AllocError>
    requires { IsScript script.now }
    ensures setup { IfOk result (λ user. user.setup ≡ setup_of script.now) }
    ensures past { IfOk result (λ user. user.past ≡ []) }
{
    let setup = Setup::new(script.thread_count(), script.width(), script.height());
    User::new(alloc, setup)
}

/// Runs a script, and writes its log in this form.
fn run<K: Sink>(alloc: Global, form: LogForm, script: &Script, sink: &mut K) -> Status
    requires { IsScript script.now }
    ensures written { RunEnds IsListed form script.now (K.holds sink.old) (K.holds sink.new) (K.faults sink.old) (K.faults sink.new) result }
    ensures whole { IsWhole result → K.faults sink.new ≡ K.faults sink.old }
{
    match machine(alloc, script) {
        Ok(user) => run_on(alloc, form, script, user, sink),
        Err(_) => Status::Memory,
    }
}

/// Runs a script on a machine for it that has no entries, and writes its log in this form.
fn run_on<M: Machine + Drop, K: Sink>(
    alloc: Global,
    form: LogForm,
    script: &Script,
    machine: M,
    sink: &mut K,
) -> Status
    requires script { IsScript script.now }
    requires empty { M.past machine ≡ [] }
    requires setup { M.setup machine ≡ setup_of script.now }
    ensures written { RunEnds IsListed form script.now (K.holds sink.old) (K.holds sink.new) (K.faults sink.old) (K.faults sink.new) result }
    ensures whole { IsWhole result → K.faults sink.new ≡ K.faults sink.old }
{
    let Ok((machine, end)) = run_listed(alloc, script, machine) else {
        return Status::Memory;
    };
    runs_answer_their_sends();
    let outcome = write_history(alloc, form, script, &machine, end, sink);
    written_status(outcome, end)
}

/// Runs the script that is made from a number, and writes the summary of its run.
fn run_made<K: Sink>(alloc: Global, number: u32, sink: &mut K) -> Status
    requires some { 0 < number }
    requires few { number ≤ 60000 }
    ensures written { MakeEnds number (K.holds sink.old) (K.holds sink.new) (K.faults sink.old) (K.faults sink.new) result }
    ensures whole { IsWhole result → K.faults sink.new ≡ K.faults sink.old }
{
    match made_script(alloc, number) {
        Ok(script) => sum_up(alloc, number, &script, sink),
        Err(_) => Status::Memory,
    }
}

/// Runs the script that was made from a number, and writes the summary of its run.
fn sum_up<K: Sink>(alloc: Global, number: u32, script: &Script, sink: &mut K) -> Status
    requires made { IsMade number script.now }
    ensures written { MakeEnds number (K.holds sink.old) (K.holds sink.new) (K.faults sink.old) (K.faults sink.new) result }
    ensures whole { IsWhole result → K.faults sink.new ≡ K.faults sink.old }
{
    match machine(alloc, script) {
        Ok(user) => sum_up_on(alloc, number, script, user, sink),
        Err(_) => Status::Memory,
    }
}

/// The same on a machine for the script that has no entries.
fn sum_up_on<M: Machine + Drop, K: Sink>(
    alloc: Global,
    number: u32,
    script: &Script,
    machine: M,
    sink: &mut K,
) -> Status
    requires made { IsMade number script.now }
    requires empty { M.past machine ≡ [] }
    requires setup { M.setup machine ≡ setup_of script.now }
    ensures written { MakeEnds number (K.holds sink.old) (K.holds sink.new) (K.faults sink.old) (K.faults sink.new) result }
    ensures whole { IsWhole result → K.faults sink.new ≡ K.faults sink.old }
{
    let Ok((machine, end)) = run_listed(alloc, script, machine) else {
        return Status::Memory;
    };
    let outcome = write_summary(alloc, number, &machine, end, sink);
    written_status(outcome, end)
}
