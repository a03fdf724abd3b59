//! Conversations of a text, act by act: each line of standard input is written again with what it came to.
#![tactic(auto)]

mod lines;
mod talks;
mod told;

fn main(rt: HostRuntime) -> anyhow::Result<()> {
    let alloc = rt.alloc();
    talks::run(&rt, alloc)
}
