//! The shortest programs with compound calls, with loops of messages and with a worker, one after another. No file uses another.

mod compound;
mod loops;
mod worker;

use std::alloc::Global;
use std::io::Print;

/// Runs all three, each at a machine of its own.
pub fn show(rt: &impl Print, alloc: Global) -> anyhow::Result<()> {
    compound::show(rt, alloc)?;
    loops::show(rt, alloc)?;
    worker::show(rt, alloc)
}
