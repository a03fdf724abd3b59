//! Programs with the machine, one after another: the shortest with a machine and with a desk, longer ones at a desk, and the calls of
//! standard input, each of which is written again with the machine's answer.
#![tactic(auto)]

mod calls;
mod desk;
mod short;

fn main(rt: HostRuntime) -> anyhow::Result<()> {
    let alloc = rt.alloc();
    short::show(&rt, alloc)?;
    desk::show(&rt, alloc)?;
    calls::run(&rt, alloc)
}
