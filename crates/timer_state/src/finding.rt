//! What is looked up in the timers, where they are those of a past.

ghost use Rattle.std.specs.Prelude.{◌≡◌, length, map, nat_le, option_map, is_some};
ghost use Rattle.user_model.specs.Idle.{least_of};
ghost use Rattle.user_model.specs.Past.{Past};
ghost use Rattle.user_model.specs.Places.{clock};
ghost use Rattle.user_model.specs.Since.{has_due_after};
ghost use Rattle.user_model.specs.Timers.{due, due_time, passing_timers, timer, timers_of};
ghost use Rattle.thread_state.specs.Passing.{passes_window_in};
ghost use Rattle.window_state.specs.Trees.{IsTreeAt};
ghost use Rattle.timer_state.specs.TimerLists.{as_due, timers_at};
ghost use Rattle.user_model.specs.declared.entry.Setup.{Setup};
ghost use Rattle.user_model.specs.Legal.{IsLawful};

use thread_state::passes_window;
use timer_source::{Timer, Timers};
use win_num::{Filter, Thread, names};
use win_tree::Tree;

/// The timer of a thread that is due first, among those that are due at the clock, in milliseconds, and whose WM_TIMER a
/// filter lets pass; of two that are due at one time the one that was set first.
pub fn due_timer(
    timers: &Timers,
    tree: &Tree,
    thread: Thread,
    filter: Filter,
    time: u64,
) -> Option<Timer>
    ensures { (past : Past) → IsTreeAt past tree.now → timers.now ≡ timers_at past → time ≡ clock past → result ≡ option_map (as_due past) (due past thread.0 filter) }
{
    if !filter.passes_number(names::WM_TIMER) {
        return None;
    }
    let passes = |timer: &Timer| -> bool
        ensures { result ≡ passes_window_in tree.entry.now.live filter.hwnd timer.now.hwnd.0 }
    { passes_window(tree, filter.hwnd, timer.hwnd) };
    timers.first_due(thread, passes, time)
}

/// When the first timer of a thread is due whose WM_TIMER a filter lets pass, in milliseconds of the clock, whether that time has
/// come or not.
pub fn next_due(timers: &Timers, tree: &Tree, thread: Thread, filter: Filter) -> Option<u64>
    ensures { (past : Past) → IsTreeAt past tree.now → timers.now ≡ timers_at past → result ≡ least_of (map (due_time past) (passing_timers past thread.0 filter)) }
{
    if !filter.passes_number(names::WM_TIMER) {
        return None;
    }
    let passes = |timer: &Timer| -> bool
        ensures { result ≡ passes_window_in tree.entry.now.live filter.hwnd timer.now.hwnd.0 }
    { passes_window(tree, filter.hwnd, timer.hwnd) };
    timers.next_due(thread, passes)
}

/// Whether a timer of a thread is due at the clock, and later than `after`, both in milliseconds.
pub fn has_due_after(timers: &Timers, thread: Thread, after: u64, time: u64) -> bool
    ensures { (past : Past) → timers.now ≡ timers_at past → time ≡ clock past → result ≡ has_due_after past thread.0 after }
{
    timers.has_due(thread, after, time)
}

/// Whether a live window has a timer with the id.
pub fn has_timer(timers: &Timers, tree: &Tree, w: u64, id: u64) -> bool
    ensures { (setup : Setup) (past : Past) → IsLawful setup past → IsTreeAt past tree.now → timers.now ≡ timers_at past → result ≡ is_some (timer past w id) }
{
    match tree.find(w) {
        Some(window) => timers.has(window, id),
        None => false,
    }
}

/// Whether a thread has as many timers as it may have, 256.
pub fn timers_are_full(timers: &Timers, thread: Thread) -> bool
    ensures { (past : Past) → timers.now ≡ timers_at past → result ≡ nat_le 256 (length (timers_of past thread.0)) }
{
    timers.is_full(thread)
}
