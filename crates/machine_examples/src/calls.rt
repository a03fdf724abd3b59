//! Calls of a text at a machine. The text has calls, one a line, each with the actor that makes it; each is written
//! again with the machine's answer, in the words of a log. A line `machine N` begins a new machine with N threads,
//! `machine N smto F posts P ..` one with these flags of sends with a time and these limits of posted messages, and
//! `barred T` asks whether an actor has no call to make now, `frame K` for the colours of a frame, `reserve N` takes
//! the places of N entries more. A line `from A to B: T CALL .. = ANSWER; ..` makes its calls for each number of a
//! range, and each must have that answer. A call that finds no memory is made once more. Names and procedures are their
//! numbers. Empty lines and comments are written as they are.

ghost use Rattle.std.specs.Prelude.{◌≡◌, ◌==◌, ◌&&◌, nat_le, IfSome};
ghost use Rattle.std.specs.List.{list_all};
ghost use Rattle.user_model.specs.Setups.{IsSetup};

mod lines;
mod told;

use lines::{Limits, Line, range_of};
use std::alloc::{AllocError, Global};
use std::io::{BufRead, BufReader, Input, Print};
use std::mem;
use told::Told;
use user_core::User;
use user_model::{Answer, Call, Machine, Setup};
use win_num::Thread;

/// Whether there are machines with so many threads, and with these flags of sends with a time.
fn is_known(threads: u8, smto: u8) -> bool
    ensures { result ≡ (nat_le 1 threads && nat_le threads 15) && (smto == 1) }
{
    1 <= threads && threads <= 15 && smto == 1
}

/// Whether each is a limit of posted messages.
fn are_limits(posts: &[u32]) -> bool
    ensures { result ≡ list_all (λ n. nat_le 1 n && nat_le n 10000) posts.now }
{
    posts.iter().all(|post| 1 <= *post && *post <= 10000)
}

/// The setup of these limits, with a screen of 8 by 4 pixels. None comes where there is no such machine.
fn setup_of(limits: Limits) -> Option<Setup>
    ensures { IfSome result (λ setup. IsSetup setup) }
{
    let Limits {
        threads,
        smto,
        posts,
    } = limits;
    if !is_known(threads, smto) {
        return None;
    }
    if !are_limits(&posts) {
        return None;
    }
    Some(Setup::with_limits(threads, 8, 4, smto, posts))
}

/// Puts a new machine of this setup in the place of the old one.
fn renew(alloc: Global, machine: &mut User, setup: Setup) -> Result<(), AllocError>
    requires { IsSetup setup }
{
    let new = User::new(alloc, setup)?;
    drop(mem::replace(machine, new));
    Ok(())
}

/// Makes a call, and once more where it finds no memory, which a line tells. An error comes where a call that finds none adds an entry, or
/// finds none again.
fn step_again(
    rt: &impl Print,
    machine: &mut User,
    actor: Thread,
    call: Call,
) -> anyhow::Result<Answer> {
    let entries = machine.history().len();
    if let Ok(answer) = machine.step(actor, call) {
        return Ok(answer);
    }
    if machine.history().len() != entries {
        anyhow::bail!("an entry without memory for it");
    }
    println!(rt; "# no memory at first")?;
    Ok(machine.step(actor, call)?)
}

/// Does what a line asks for, and writes it again with the answer.
fn run_line(rt: &impl Print, alloc: Global, machine: &mut User, line: &str) -> anyhow::Result<()> {
    match Line::parse(line) {
        Some(Line::Comment) => println!(rt; "{line}")?,
        Some(Line::Machine(limits)) => {
            let Some(setup) = setup_of(limits) else {
                anyhow::bail!("no machine: {line}");
            };
            renew(alloc, machine, setup)?;
            println!(rt; "{line}")?;
        }
        Some(Line::Barred(actor)) => println!(rt; "{line} = {}", machine.barred(actor))?,
        Some(Line::History) => println!(rt;
            "{line} = {} {:?}",
            machine.history().len(),
            machine.history().last()
        )?,
        Some(Line::Sends) => println!(rt; "{line} = {:?}", machine.send_count())?,
        Some(Line::Frame(number)) => println!(rt; "{line} = {:?}", machine.frame(number))?,
        Some(Line::Reserve(places)) => {
            machine.reserve(places)?;
            println!(rt; "{line} = ok")?;
        }
        Some(Line::Call(actor, call)) => {
            let answer = step_again(rt, machine, actor, call)?;
            println!(rt; "{line} = {}", Told(answer))?;
        }
        None => anyhow::bail!("no call: {line}"),
    }
    Ok(())
}

/// Makes the call of a text `T CALL .. = ANSWER`. An error comes where it is none, or the call has another answer.
fn expect(alloc: Global, machine: &mut User, text: &str) -> anyhow::Result<()> {
    let Some((line, wanted)) = text.split_once(" = ") else {
        anyhow::bail!("no answer: {text}");
    };
    let Some(Line::Call(actor, call)) = Line::parse(line) else {
        anyhow::bail!("no call: {text}");
    };
    let told = format!(in alloc; "{}", Told(machine.step(actor, call)?))?;
    if told.as_str() != wanted {
        anyhow::bail!("{line} = {told}, and not {wanted}");
    }
    Ok(())
}

/// Makes the calls of a range, with a number in the place of each `N`.
fn expect_all(alloc: Global, machine: &mut User, calls: &str, number: u64) -> anyhow::Result<()> {
    let digits = format!(in alloc; "{number}")?;
    let calls = calls.replace(alloc, 'N', &digits)?;
    for text in calls.split("; ") {
        expect(alloc, machine, text)?;
    }
    Ok(())
}

/// Does what a line asks for, be it for a range or once, and writes it again.
fn run_any(rt: &impl Print, alloc: Global, machine: &mut User, line: &str) -> anyhow::Result<()> {
    let Some((first, last, calls)) = range_of(line) else {
        return run_line(rt, alloc, machine, line);
    };
    for number in first..=last {
        expect_all(alloc, machine, calls, number)?;
    }
    println!(rt; "{line}")?;
    Ok(())
}

/// Does what the lines of standard input ask for.
fn run_lines<R: Input + Print>(rt: &R, alloc: Global, machine: &mut User) -> anyhow::Result<()> {
    for line in BufReader::new(alloc, rt.reader())?.lines(alloc) {
        run_any(rt, alloc, machine, &line?)?;
    }
    Ok(())
}

/// Does so at machines of its own, the first of one thread.
pub fn run<R: Input + Print>(rt: &R, alloc: Global) -> anyhow::Result<()> {
    let mut machine = User::new(alloc, Setup::new(1, 8, 4))?;
    let told = run_lines(rt, alloc, &mut machine);
    drop(machine);
    told
}
