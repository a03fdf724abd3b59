//! A conversation over posts by two threads at a desk. The procedures of their windows open it; then the client asks ten times, by
//! posts of the machine, and the server answers each. What was told is checked by two runs of the machine's history.
#![tactic(auto)]

ghost use Rattle.std.specs.Prelude.{◌≤◌, length};
ghost use Rattle.user_model.specs.Legal.{IsLawful};

mod check;
mod client;
mod conversation;
mod opening;
mod server;
mod sides;
mod work;

use std::alloc::Global;
use std::io::Print;
use std::sync::Wait;
use std::thread::Threads;
use user_core::User;
use user_model::{Machine, Setup};

/// The conversation at a machine with a legal past, whose history another new machine checks.
fn run<M: Machine + Send + Sync + Drop, R: Threads + Wait + Sync + Print>(
    rt: &R,
    alloc: Global,
    machine: M,
) -> anyhow::Result<()>
    requires legal { (length (M.past machine) ≤ 2097152) × IsLawful (M.setup machine) (M.past machine) }
{
    let again = User::new(alloc, Setup::new(2, 8, 4))?;
    work::run(rt, alloc, machine, again)
}

fn main(rt: HostRuntime) -> anyhow::Result<()> {
    let alloc = rt.alloc();
    let machine = User::new(alloc, Setup::new(2, 8, 4))?;
    run(&rt, alloc, machine)
}
