//! Runs of all threads of a script, at a machine that may want memory once.

ghost use Rattle.std.specs.Prelude.{◌≡◌, [], length};
ghost use Rattle.script_text.specs.Limits.{IsScript};
ghost use Rattle.user_model.specs.Setups.{setup_from};

use crate::texts::lines_of;
use crate::wanting::Wanting;
use script_text::{Script, read};
use std::alloc::Global;
use std::io::Print;
use user_core::User;
use user_model::{Machine, Setup};
use user_pool::run_listed;

/// Tells how a run at a machine without entries ended, and how many entries it has.
fn tell_run<M: Machine + Drop>(
    rt: &impl Print,
    alloc: Global,
    script: &Script,
    machine: M,
) -> anyhow::Result<()>
    requires script { IsScript script.now }
    requires empty { M.past machine ≡ [] }
    requires setup { M.setup machine ≡ setup_from (length script.now.threads) script.now.width script.now.height }
{
    match run_listed(alloc, script, machine) {
        Ok((machine, end)) => println!(rt; "  {end:?}, {} entries", machine.history().len())?,
        Err(_) => println!(rt; "  no memory")?,
    }
    Ok(())
}

/// Runs the script at a machine that wants memory after so many calls.
fn tell_wanting(
    rt: &impl Print,
    alloc: Global,
    script: &Script,
    left: Option<u64>,
) -> anyhow::Result<()>
    requires { IsScript script.now }
{
    let setup = Setup::new(script.thread_count(), script.width(), script.height());
    let machine = User::new(alloc, setup)?;
    tell_run(rt, alloc, script, Wanting { machine, left })
}

/// Runs the script that a line `LEFT: TEXT` has.
pub fn tell(rt: &impl Print, alloc: Global, line: &str) -> anyhow::Result<()> {
    let Some((left, text)) = line.split_once(": ") else {
        anyhow::bail!("no text: {line}");
    };
    let text = lines_of(alloc, text)?;
    match read(alloc, text.as_bytes()) {
        Ok(script) => tell_wanting(rt, alloc, &script, left.parse().ok()),
        Err(fault) => anyhow::bail!("{fault:?}"),
    }
}
