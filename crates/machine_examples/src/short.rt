//! The shortest programs with the machine, one after another: a machine and a desk. Neither file uses the other.

mod shared;
mod user;

use std::alloc::Global;
use std::io::Print;
use std::sync::Wait;
use std::thread::Threads;

/// Runs both, each at a machine of its own.
pub fn show<R: Threads + Wait + Sync + Print>(rt: &R, alloc: Global) -> anyhow::Result<()> {
    user::show(rt, alloc)?;
    shared::show(rt, alloc)
}
