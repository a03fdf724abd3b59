//! Programs with a clipboard: calls that are often made wrongly, each with its answer; and two threads that share a machine and a
//! clipboard, of which one offers a text delayed and the other asks for it. With words, gets are timed.
#![tactic(auto)]

mod sharing;
mod timing;
mod wrong;

use std::env;

fn main(rt: HostRuntime) -> anyhow::Result<()> {
    let alloc = rt.alloc();
    let mut words = env::args(&rt)?;
    let _program = words.next();
    if let Some(entries) = words.next() {
        return timing::show(&rt, alloc, &entries);
    }
    wrong::show(&rt, alloc)?;
    sharing::show(&rt, alloc)
}
