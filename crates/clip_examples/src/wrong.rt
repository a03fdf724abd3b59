//! Calls of a clipboard that are often made wrongly, by threads that share it.

use clip_board::{Clip, ClipCall};
use std::alloc::Global;
use std::io::Print;
use win_num::{Hwnd, Thread};

/// The calls, one after another, each with the thread that makes it.
const CALLS: [(u8, ClipCall); 15] = [
    // nobody has opened it
    (1, ClipCall::Empty),
    (1, ClipCall::Get { format: 1 }),
    // formats that aren't any
    (
        1,
        ClipCall::Set {
            format: 0,
            value: 5,
        },
    ),
    (1, ClipCall::Get { format: 65536 }),
    // another has it open
    (1, ClipCall::Open { hwnd: Hwnd(16) }),
    (2, ClipCall::Open { hwnd: Hwnd(17) }),
    (2, ClipCall::Get { format: 1 }),
    (2, ClipCall::Close),
    // who has it open can't open it again
    (1, ClipCall::Open { hwnd: Hwnd(16) }),
    // a format is delayed, and set by one who isn't asked for it
    (1, ClipCall::Empty),
    (1, ClipCall::Delay { format: 1 }),
    (1, ClipCall::Close),
    (2, ClipCall::Open { hwnd: Hwnd(17) }),
    (2, ClipCall::Get { format: 1 }),
    (
        2,
        ClipCall::Set {
            format: 1,
            value: 5,
        },
    ),
];

/// Makes the calls, and prints what each was answered.
fn run(rt: &impl Print, clip: &mut Clip) -> anyhow::Result<()> {
    for (thread, call) in CALLS {
        let answer = clip.step(Thread(thread), call)?;
        println!(rt; "{thread}: {call:?} = {answer:?}")?;
    }
    Ok(())
}

/// Makes the calls at a new clipboard.
pub fn show(rt: &impl Print, alloc: Global) -> anyhow::Result<()> {
    let mut clip = Clip::new(alloc);
    let told = run(rt, &mut clip);
    drop(clip);
    told
}
