//! All runs of small scripts within a bound of switches. Standard input has lines `SWITCHES RUNS: TEXT`, with a message as a mark or a part
//! `K/M` of the runs, or both, behind the numbers: the script of the text, in which `/` ends a line, is explored with so many switches and
//! no more than so many runs. Each line is written again, and below it the report, with `/` in the place of an end of a line.
#![tactic(auto)]

ghost use Rattle.std.specs.Prelude.{◌≤◌, IfSome, length};
ghost use Rattle.run_explorer.specs.Parts.{IsPart};
ghost use Rattle.script_text.specs.Limits.{IsScript};

use run_explorer::{Part, Report, explore, put_report};
use script_text::{Script, read};
use std::alloc::{AllocError, Global};
use std::io::{BufRead, BufReader, Input, Print};
use user_core::User;
use user_model::Setup;

/// A text in which `/` ends a line.
fn lines_of(alloc: Global, text: &str) -> Result<String, AllocError> {
    let mut lines = String::new(alloc);
    for letter in text.chars() {
        lines.push(if letter == '/' { '\n' } else { letter })?;
    }
    Ok(lines)
}

/// Lines as one, with `/` in the place of the end of each.
fn shown(alloc: Global, lines: &str) -> Result<String, AllocError> {
    let mut text = String::new(alloc);
    for letter in lines.chars() {
        text.push(if letter == '\n' { '/' } else { letter })?;
    }
    Ok(text)
}

/// How many switches and runs there may be, and which part of the runs is made.
#[derive(Clone, Copy)]
struct Bounds {
    switches: u16,
    runs: u32,
    part: Part,
}

/// The part that `K/M` says. None comes where it is none.
fn part_of(word: &str) -> Option<Part>
    ensures { IfSome result (λ part. IsPart part) }
{
    let (number, count) = word.split_once('/')?;
    let number = number.parse::<u32>().ok()?;
    let count = count.parse::<u32>().ok()?;
    if number < 1 || number > count {
        return None;
    }
    Some(Part { number, count })
}

/// The first word, and the words behind it.
fn first_of(words: &str) -> (&str, &str) {
    words.split_once(' ').unwrap_or((words, ""))
}

/// The part and the message of two words, each of which may be empty. None comes where there is a part that is none.
fn share_of<'a>(first: &'a str, second: &'a str) -> Option<(Part, &'a str)>
    ensures { IfSome result (λ r. IsPart r.0) }
{
    if first.contains('/') {
        return Some((part_of(first)?, second));
    }
    if second.is_empty() {
        return Some((Part::whole(), first));
    }
    Some((part_of(second)?, first))
}

/// What `SWITCHES RUNS`, and maybe a part, says, and the word for a message that is left, or nothing. None comes where it is none.
fn bounds_of(words: &str) -> Option<(Bounds, &str)>
    ensures { IfSome result (λ r. IsPart r.0.part) }
{
    let (switches, words) = words.split_once(' ')?;
    let (runs, words) = first_of(words);
    let switches = switches.parse::<u16>().ok()?;
    let runs = runs.parse::<u32>().ok()?;
    let (first, rest) = first_of(words);
    let (part, name) = share_of(first, rest)?;
    Some((
        Bounds {
            switches,
            runs,
            part,
        },
        name,
    ))
}

/// The report on the runs of a script, each on a machine of its own.
fn explored(
    alloc: Global,
    bounds: Bounds,
    name: &str,
    script: &Script,
) -> Result<Report, AllocError>
    requires script { IsScript script.now }
    requires part { IsPart bounds.part }
{
    let setup = Setup::new(script.thread_count(), script.width(), script.height());
    let mark = if name.is_empty() {
        None
    } else {
        Some(name.as_bytes())
    };
    explore(
        alloc,
        script,
        bounds.switches,
        bounds.runs,
        bounds.part,
        mark,
        || { User::new(alloc, setup) },
    )
}

/// The report on the script of a text.
fn report_of(alloc: Global, bounds: Bounds, name: &str, text: &str) -> anyhow::Result<String>
    requires { IsPart bounds.part }
{
    let text = lines_of(alloc, text)?;
    let script = match read(alloc, text.as_bytes()) {
        Ok(script) => script,
        Err(fault) => anyhow::bail!("{fault:?}"),
    };
    let report = explored(alloc, bounds, name, &script)?;
    let mut out = Vec::new(alloc);
    put_report(&mut out, &report)?;
    match String::from_utf8(out) {
        Ok(lines) => Ok(shown(alloc, &lines)?),
        Err(_) => anyhow::bail!("no text"),
    }
}

/// Explores what a line says, and tells what came of it. An empty line says nothing.
fn tell(rt: &impl Print, alloc: Global, line: &str) -> anyhow::Result<()> {
    let Some((words, text)) = line.split_once(": ") else {
        return Ok(());
    };
    match bounds_of(words) {
        Some((bounds, name)) => println!(rt; "  {}", report_of(alloc, bounds, name, text)?)?,
        None => anyhow::bail!("no numbers: {line}"),
    }
    Ok(())
}

fn main(rt: HostRuntime) -> anyhow::Result<()> {
    let alloc = rt.alloc();
    for line in BufReader::new(alloc, rt.reader())?.lines(alloc) {
        let line = line?;
        println!(rt; "{line}")?;
        tell(&rt, alloc, &line)?;
    }
    Ok(())
}
