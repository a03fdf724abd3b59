//! Programs at a desk, one after another: the lock below it, two threads, and as many seats as there can be actors. What is printed
//! doesn't depend on who moves when.

mod crowd;
mod locked;
mod opening;
mod sequences;
mod two_threads;
mod yields;

use std::alloc::Global;
use std::io::Print;
use std::sync::Wait;
use std::thread::Threads;
use user_core::User;
use user_model::Setup;

/// A lock over a new machine for two threads.
fn tell_lock<R: Wait + Print>(rt: &R, alloc: Global) -> anyhow::Result<()> {
    let machine = User::new(alloc, Setup::new(2, 8, 4))?;
    locked::lock_alone(rt, alloc, machine)
}

/// A desk at a new machine for two threads.
fn tell_desk<R: Threads + Wait + Sync + Print>(rt: &R, alloc: Global) -> anyhow::Result<()> {
    let machine = User::new(alloc, Setup::new(2, 8, 4))?;
    two_threads::run_desk(rt, alloc, machine)
}

/// A desk at a new machine for fifteen threads.
fn tell_crowd<R: Threads + Wait + Sync + Print>(rt: &R, alloc: Global) -> anyhow::Result<()> {
    let machine = User::new(alloc, Setup::new(15, 8, 4))?;
    crowd::run_desk(rt, alloc, machine)
}

/// Runs all three, each at a machine of its own.
pub fn show<R: Threads + Wait + Sync + Print>(rt: &R, alloc: Global) -> anyhow::Result<()> {
    tell_lock(rt, alloc)?;
    tell_desk(rt, alloc)?;
    tell_crowd(rt, alloc)
}
