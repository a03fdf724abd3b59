//! The pixels that windows own on a screen of 8 by 4 pixels.

use core_state::CoreState;
use core_window::window;
use std::io::Print;
use user_model::Call;
use win_num::{Hwnd, Thread};

/// HWND_TOP for the one that lies below, with its place and size as they are (Microsoft, SetWindowPos).
const RAISE: Call = Call::Place(16, 0, 0, 0, 1, 1, 3);

/// What is done: two windows are made and shown, the one over a corner of the other; the lower one comes to
/// the top, and is hidden; the one that is left is destroyed.
const STEPS: [Call; 11] = [
    Call::Register(1, 0, 0),
    Call::NewWindow(1, 2, 0, 0, 0, 0, 0, 5, 3),
    Call::Show(16, 1),
    Call::NewWindow(1, 2, 0, 0, 0, 3, 1, 8, 4),
    Call::Show(17, 1),
    RAISE,
    Call::Show(16, 0),
    Call::Doom(17),
    Call::Unmake(17),
    Call::Unmake(17),
    Call::Drop(17),
];

/// The rectangles of the pixels that both windows own, and of those that no window owns, after each step.
pub fn tell_regions(rt: &impl Print, state: &mut CoreState) -> anyhow::Result<()> {
    for call in STEPS {
        println!(rt; "{:?}", window(state, Thread(1), &call)?)?;
        tell_owned(rt, state, Hwnd(16))?;
        tell_owned(rt, state, Hwnd(17))?;
        tell_owned(rt, state, Hwnd(0))?;
    }
    Ok(())
}

/// The rectangles of the pixels that a window owns.
fn tell_owned(rt: &impl Print, state: &CoreState, w: Hwnd) -> anyhow::Result<()> {
    let Some(region) = state.owned_region(w) else {
        return Ok(());
    };
    println!(rt; "  {}:", w.0)?;
    for r in region.rects() {
        println!(rt; "    {} {} {} {}", r.l(), r.t(), r.r(), r.b())?;
    }
    Ok(())
}
