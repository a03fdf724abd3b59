//! The top call for runs by threads, and the one for all words.

ghost use Rattle.std.specs.Prelude.{◌≡◌, ◌≢◌, ◌⊎◌, ◌<◌, ◌≤◌, ℕ, [], map};
ghost use Rattle.std.specs.String.{string_bytes};
ghost use Rattle.user_io.specs.Outside.{Rose};
ghost use Rattle.script_text.specs.Limits.{IsScript};
ghost use Rattle.log_text.specs.Ends.{setup_of};
ghost use Rattle.user_pool.specs.Runs.{IsRun, IsListed};
ghost use Rattle.user_app.specs.declared.request.LogForm.{LogForm};
ghost use Rattle.user_app.specs.Requests.{AskNothing, AskToRead, AskPlain, AskForThreads, IsThreads, IsMake, run_words, check_words};
ghost use Rattle.user_app.specs.Checks.{CheckEnds};
ghost use Rattle.user_app.specs.Outcomes.{RunEnds, InputEnds, MakeEnds, IsWhole};

use crate::app::{machine, user_plain};
use crate::history::write_history;
use crate::input::{InputFault, read_script};
use crate::refusal::refuse;
use crate::request::{LogForm, Request, read_words};
use crate::status::{Status, written_status};
use script_tree::Script;
use std::alloc::Global;
use std::sync::Wait;
use std::thread::Threads;
use user_io::{Gate, Sink, Source};
use user_model::Machine;
use user_pool::{run_groups, runs_answer_their_sends};

/// Does what the words ask for: at `threads` and a number from 1 to 15, in decimal without leading zeros, it reads a
/// script from the source to its end, runs it by so many groups of threads, and writes the log of that run into the
/// sink after the run's end. Before each turn of a group the gate is passed.
///
/// `Words` comes exactly where the words are none that the program knows, `WrongCall` where they ask for what
/// `user_plain` does, and `Script` where the input is no script. `Done`, `Stuck` and `Spent` tell how the run ended.
/// `ReadFault` and `WriteFault` come only where the source's or the sink's count of faults has risen. After a failed
/// write, and after want of memory, which may come at any time but for other words, a front of the text was written. The
/// call waits for its threads, so nothing is promised of its return.
pub fn user_threads<R: Threads + Wait + Sync, S: Source, K: Sink, G: Gate + Sync>(
    rt: &R,
    alloc: Global,
    words: &[String],
    source: &mut S,
    sink: &mut K,
    gate: &G,
) -> Status
    // Other words: nothing is read or written.
    ensures words { AskNothing (map string_bytes words.now) → result ≡ Status.Words }
    ensures words_only { result ≡ Status.Words → AskNothing (map string_bytes words.now) × (source.new ≡ source.old) × (sink.new ≡ sink.old) }
    ensures wrong { AskPlain (map string_bytes words.now) → result ≡ Status.WrongCall }
    ensures wrong_only { result ≡ Status.WrongCall → AskPlain (map string_bytes words.now) × (source.new ≡ source.old) × (sink.new ≡ sink.old) }

    // The input was read to its end, and what was written is the log of a run of the script, whoever moved when; or it is no script, and where and why was written.
    ensures threads { (n : ℕ) → IsThreads (map string_bytes words.now) n → InputEnds IsRun LogForm.Plain (S.left source.old) (S.left source.new) (K.holds sink.old) (K.holds sink.new) (S.faults source.old) (S.faults source.new) (K.faults sink.old) (K.faults sink.new) result }

    // No script, and faults, come only where a script is read; nothing was written where it can't be read.
    ensures read { result ≡ Status.Script → AskForThreads (map string_bytes words.now) }
    ensures read_fault { result ≡ Status.ReadFault → AskForThreads (map string_bytes words.now) × Rose (S.faults source.old) (S.faults source.new) × (sink.new ≡ sink.old) }
    ensures write_fault { result ≡ Status.WriteFault → Rose (K.faults sink.old) (K.faults sink.new) }

    // All is written only where neither the source nor the sink has failed in this call.
    ensures whole { IsWhole result → (S.faults source.new ≡ S.faults source.old) × (K.faults sink.new ≡ K.faults sink.old) }
{
    match read_words(words) {
        Request::Threads(groups) => run_input(rt, alloc, groups, source, sink, gate),
        Request::Nothing => Status::Words,
        Request::Run(_) => Status::WrongCall,
        Request::Make(_) => Status::WrongCall,
        Request::Check => Status::WrongCall,
    }
}

/// Does what the words ask for: all that `user_plain` knows as it does it, and `threads` and a number, which are the words
/// of another call there, as `user_threads`. `WrongCall` never comes.
pub fn user_main<R: Threads + Wait + Sync, S: Source, K: Sink, G: Gate + Sync>(
    rt: &R,
    alloc: Global,
    words: &[String],
    source: &mut S,
    sink: &mut K,
    gate: &G,
) -> Status
    // Other words: nothing is read or written.
    ensures words { AskNothing (map string_bytes words.now) → result ≡ Status.Words }
    ensures words_only { result ≡ Status.Words → AskNothing (map string_bytes words.now) × (source.new ≡ source.old) × (sink.new ≡ sink.old) }
    ensures never_wrong { result ≢ Status.WrongCall }

    // A run: the input was read to its end, and what was written is the log of the script's run, in the form asked for; or it is no script, and where and why was written. After a failed write, and after want of memory, a front of that text was written.
    ensures run { (form : LogForm) → map string_bytes words.now ≡ run_words form → InputEnds IsListed form (S.left source.old) (S.left source.new) (K.holds sink.old) (K.holds sink.new) (S.faults source.old) (S.faults source.new) (K.faults sink.old) (K.faults sink.new) result }

    // No script.
    ensures read { result ≡ Status.Script → AskToRead (map string_bytes words.now) ⊎ AskForThreads (map string_bytes words.now) }

    // Faults come only from the source and the sink; nothing was written where the input can't be read.
    ensures read_fault { result ≡ Status.ReadFault → (AskToRead (map string_bytes words.now) ⊎ AskForThreads (map string_bytes words.now)) × Rose (S.faults source.old) (S.faults source.new) × (sink.new ≡ sink.old) }
    ensures write_fault { result ≡ Status.WriteFault → Rose (K.faults sink.old) (K.faults sink.new) }

    // All is written only where neither the source nor the sink has failed in this call.
    ensures whole { IsWhole result → (S.faults source.new ≡ S.faults source.old) × (K.faults sink.new ≡ K.faults sink.old) }

    // A script that is made: nothing is read, and what was written is the summary of its run.
    ensures made { (n : ℕ) → IsMake (map string_bytes words.now) n → (source.new ≡ source.old) × MakeEnds n (K.holds sink.old) (K.holds sink.new) (K.faults sink.old) (K.faults sink.new) result }

    // A check: the input is a script with the log of a run, whose length was written; or with another log, whose first bad place and its reason were written; or it is neither.
    ensures checked { map string_bytes words.now ≡ check_words → CheckEnds (S.left source.old) (S.left source.new) (S.faults source.old) (S.faults source.new) (K.holds sink.old) (K.holds sink.new) (K.faults sink.old) (K.faults sink.new) result }
    ensures illegal { result ≡ Status.Illegal → map string_bytes words.now ≡ check_words }

    // A run by threads: what was written is the log of a run of the script in the input, whoever moved when.
    ensures threads { (n : ℕ) → IsThreads (map string_bytes words.now) n → InputEnds IsRun LogForm.Plain (S.left source.old) (S.left source.new) (K.holds sink.old) (K.holds sink.new) (S.faults source.old) (S.faults source.new) (K.faults sink.old) (K.faults sink.new) result }
{
    match user_plain(alloc, words, source, sink) {
        Status::WrongCall => user_threads(rt, alloc, words, source, sink, gate),
        status => status,
    }
}

/// Runs the script in the input by groups, and writes the log of that run.
fn run_input<R: Threads + Wait + Sync, S: Source, K: Sink, G: Gate + Sync>(
    rt: &R,
    alloc: Global,
    groups: u32,
    source: &mut S,
    sink: &mut K,
    gate: &G,
) -> Status
    requires groups { (0 < groups) × (groups ≤ 15) }
    ensures ends { InputEnds IsRun LogForm.Plain (S.left source.old) (S.left source.new) (K.holds sink.old) (K.holds sink.new) (S.faults source.old) (S.faults source.new) (K.faults sink.old) (K.faults sink.new) result }
    ensures read_fault { result ≡ Status.ReadFault → Rose (S.faults source.old) (S.faults source.new) × (sink.new ≡ sink.old) }
    ensures whole { IsWhole result → (S.faults source.new ≡ S.faults source.old) × (K.faults sink.new ≡ K.faults sink.old) }
{
    match read_script(alloc, source) {
        Ok(script) => run(rt, alloc, groups, &script, sink, gate),
        Err(InputFault::Failed) => Status::ReadFault,
        Err(InputFault::Refused(refusal)) => refuse(alloc, refusal, sink),
        Err(InputFault::Memory) => Status::Memory,
    }
}

/// Runs a script by groups, and writes the log of that run after its end.
fn run<R: Threads + Wait + Sync, K: Sink, G: Gate + Sync>(
    rt: &R,
    alloc: Global,
    groups: u32,
    script: &Script,
    sink: &mut K,
    gate: &G,
) -> Status
    requires script { IsScript script.now }
    requires groups { (0 < groups) × (groups ≤ 15) }
    ensures written { RunEnds IsRun LogForm.Plain script.now (K.holds sink.old) (K.holds sink.new) (K.faults sink.old) (K.faults sink.new) result }
    ensures whole { IsWhole result → K.faults sink.new ≡ K.faults sink.old }
{
    match machine(alloc, script) {
        Ok(user) => run_on(rt, alloc, groups, script, user, sink, gate),
        Err(_) => Status::Memory,
    }
}

/// Runs a script by groups on a machine for it that has no entries, and writes the log of that run after its end.
fn run_on<R: Threads + Wait + Sync, M: Machine + Send + Drop, K: Sink, G: Gate + Sync>(
    rt: &R,
    alloc: Global,
    groups: u32,
    script: &Script,
    machine: M,
    sink: &mut K,
    gate: &G,
) -> Status
    requires script { IsScript script.now }
    requires groups { (0 < groups) × (groups ≤ 15) }
    requires empty { M.past machine ≡ [] }
    requires setup { M.setup machine ≡ setup_of script.now }
    ensures written { RunEnds IsRun LogForm.Plain script.now (K.holds sink.old) (K.holds sink.new) (K.faults sink.old) (K.faults sink.new) result }
    ensures whole { IsWhole result → K.faults sink.new ≡ K.faults sink.old }
{
    let Ok((machine, end)) = run_groups(rt, alloc, script, machine, groups as u8, gate) else {
        return Status::Memory;
    };
    runs_answer_their_sends();
    let outcome = write_history(alloc, LogForm::Plain, script, &machine, end, sink);
    written_status(outcome, end)
}
