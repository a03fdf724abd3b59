//! What an entry does to the timers.

ghost use Rattle.std.specs.Prelude.{◌≡◌, ◌<◌, ◌==◌, filter, not, OnOk, OnErr};
ghost use Rattle.win_num.specs.Clocks.{clock_limit};
ghost use Rattle.timer_source.specs.Settings.{without};
ghost use Rattle.timer_state.specs.Changes.{FitsCarrying, FitsFollowing, FitsSetting, followed, goes_with, kept_of, restarted_by, set_by};
ghost use Rattle.win_num.specs.declared.message.Hwnd.{Hwnd};

use std::alloc::AllocError;
use timer_source::Timers;
use user_model::{Answer, Call, Entry, Origin};
use win_num::{Fault, Hwnd, Msg, Thread};
use win_tree::Tree;
use window_state::window_or_none;

/// Sets the timer of a call at the clock, in milliseconds. Any other call changes nothing. Want of memory is the only error.
pub fn set_timer(
    timers: &mut Timers,
    tree: &Tree,
    who: Thread,
    call: Call,
    time: u64,
) -> Result<(), AllocError>
    requires early { time < clock_limit }
    requires fits { FitsSetting tree.now.live who timers.old call }
    ensures ok { OnOk result (timers.new ≡ set_by who time call timers.old) }
    ensures err { OnErr result (timers.new ≡ timers.old) }
{
    let Call::SetTimer(w, id, ms) = call else {
        return Ok(());
    };
    let window = window_or_none(tree, w);
    match timers.set(who, window, id, ms, time) {
        Ok(()) => Ok(()),
        Err(Fault::Memory) => Err(AllocError),
        Err(Fault::Refused(_)) => unreachable!(),
    }
}

/// Takes a timer back, begins the period of one whose message was removed anew at the clock, in milliseconds, or takes out those
/// of windows that go or of a thread that has ended. `tree` is the table before the entry.
pub fn follow_timers(timers: &mut Timers, tree: &Tree, entry: Entry, time: u64)
    requires early { time < clock_limit }
    requires fits { FitsFollowing tree.now.live entry.answer entry.call }
    ensures { timers.new ≡ followed tree.now.live entry.who time entry.answer entry.call timers.old }
{
    match entry.answer {
        Answer::Okay => carry_out(timers, tree, entry.call),
        Answer::Got { origin, msg, .. } => restart(timers, entry.call, origin, msg, time),
        Answer::Ended => timers.end(entry.who),
        _ => {}
    }
}

/// Does what a call says that was answered by ok: takes a timer back, or those of windows that go.
fn carry_out(timers: &mut Timers, tree: &Tree, call: Call)
    requires { FitsCarrying tree.now.live call }
    ensures { timers.new ≡ kept_of tree.now.live call timers.old }
{
    match call {
        Call::KillTimer(w, id) => {
            let _killed = timers.kill(window_or_none(tree, w), id);
        }
        Call::Drop(w) => purge_kin(timers, tree, window_or_none(tree, w)),
        _ => {}
    }
}

/// Takes out the timers of a window and its kin.
fn purge_kin(timers: &mut Timers, tree: &Tree, window: Hwnd)
    ensures { timers.new ≡ filter (λ s. not (goes_with tree.now.live window.0 s.hwnd.0)) timers.old }
{
    let goes = |w: Hwnd| -> bool
        ensures { result ≡ goes_with tree.entry.now.live window.0 w.0 }
    { tree.row(w).is_some() && tree.is_kin(window, w) };
    timers.purge_those(goes);
}

/// Begins the period of a timer anew, whose message a retrieval handed out and removes.
fn restart(timers: &mut Timers, call: Call, origin: Origin, msg: Msg, time: u64)
    requires { time < clock_limit }
    ensures { timers.new ≡ restarted_by time origin msg call timers.old }
{
    match origin {
        Origin::Timer if call.removes() => timers.restart(msg.hwnd, msg.wparam, time),
        _ => {}
    }
}
