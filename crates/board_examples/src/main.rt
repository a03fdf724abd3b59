//! Programs with a status board, one after another: worked answers, a monitor beside a worker, and a read while a turn is held. With
//! the word `measure` it measures instead how fast reads and publishes are.
#![tactic(auto)]

mod held;
mod measure;
mod monitor;
mod opening;
mod owner;
mod rows;

use std::alloc::Global;
use std::env;
use std::io::Print;
use std::sync::Wait;
use std::thread::Threads;
use user_core::User;
use user_model::Setup;

/// Runs the programs, each at a machine of its own for two threads, with a screen of 8 by 4 pixels.
fn show<R: Threads + Wait + Sync + Print>(rt: &R, alloc: Global) -> anyhow::Result<()> {
    let setup = Setup::new(2, 8, 4);
    rows::run(rt, alloc, User::new(alloc, setup)?)?;
    monitor::run(rt, alloc, User::new(alloc, setup)?)?;
    held::run(rt, alloc, User::new(alloc, setup)?)
}

fn main(rt: HostRuntime) -> anyhow::Result<()> {
    let alloc = rt.alloc();
    if env::args(&rt)?
        .skip(1)
        .any(|word| word.as_str() == "measure")
    {
        return measure::run(&rt, alloc);
    }
    show(&rt, alloc)
}
