//! Worked examples of the parts below the machine: a state without entries, asked by each call that asks nothing of an entry, and a
//! post and a send by the calls of delivery, a window that is made and found, and the
//! pixels that windows own. What each answered is written.
#![tactic(auto)]

mod counted;
mod deliveries;
mod regions;
mod states;
mod told;
mod windows;

ghost use Rattle.std.specs.Prelude.{◌≡◌, false};
ghost use Rattle.user_model.specs.Past.{is_full};

use core_state::CoreState;
use std::alloc::Global;
use std::io::Print;
use std::marker::Brand;
use std::sync::ledger::Blank;
use user_model::Setup;

/// What a new state is asked, each time another one.
#[derive(Clone, Copy)]
enum Part {
    /// What a state without entries answers.
    State,
    /// What the calls of delivery answer.
    Deliveries,
    /// How many posted messages are read from a full queue.
    Full,
    /// How many are read for a filter, where three are there.
    Three,
    /// What the calls on classes and windows answer.
    Windows,
    /// The pixels that windows own.
    Regions,
}

/// What a state of two threads answers.
fn tell_part(rt: &impl Print, state: &mut CoreState, part: Part) -> anyhow::Result<()>
    requires threads { state.old.setup.threads ≡ 2 }
    requires room { is_full state.old.past ≡ false }
{
    match part {
        Part::State => states::tell_all(rt, state),
        Part::Deliveries => deliveries::tell_deliveries::<Brand>(Blank::new(1), rt, state),
        Part::Full => counted::tell_full::<Brand>(Blank::new(1), rt, state),
        Part::Three => counted::tell_three::<Brand>(Blank::new(1), rt, state),
        Part::Windows => windows::tell_window(rt, state),
        Part::Regions => regions::tell_regions(rt, state),
    }
}

/// The same of a new state. It is dropped by a call: where its block's end drops it, each of its parts is dropped there, and the
/// proof takes longer than all others here.
fn tell_new(rt: &impl Print, alloc: Global, part: Part) -> anyhow::Result<()> {
    let mut state = CoreState::new(alloc, Setup::new(2, 8, 4))?;
    let told = tell_part(rt, &mut state, part);
    drop(state);
    told
}

fn main(rt: HostRuntime) -> anyhow::Result<()> {
    tell_new(&rt, rt.alloc(), Part::State)?;
    tell_new(&rt, rt.alloc(), Part::Deliveries)?;
    tell_new(&rt, rt.alloc(), Part::Full)?;
    tell_new(&rt, rt.alloc(), Part::Three)?;
    tell_new(&rt, rt.alloc(), Part::Windows)?;
    tell_new(&rt, rt.alloc(), Part::Regions)
}
