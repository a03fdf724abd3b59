//! What an entry does to what is kept of the threads.

ghost use Rattle.std.specs.Prelude.{◌≡◌, ◌<◌, All, None, Some, OnOk, OnErr, length, slice_index_or};
ghost use Rattle.win_num.specs.declared.message.Msg.{Msg};
ghost use Rattle.thread_queues.specs.Changes.{changed, count_kept, ends, marked, noted, posts, purges, quits, taken_if, takes, time_kept};
ghost use Rattle.thread_queues.specs.Deliveries.{goes_with, kin_in, removal};
ghost use Rattle.thread_queues.specs.Queues.{HasRoom, IsOne};
ghost use Rattle.thread_state.specs.Threads.{waiting_with};
ghost use Rattle.thread_queues.specs.Queues.{EachBy};

use crate::delivery::posting;
use std::alloc::AllocError;
use thread_state::{ThreadState, is_look, is_refusal};
use user_model::{Answer, Call, Entry, Origin};
use win_num::{Hwnd, Msg, Thread};
use win_tree::Tree;

/// Adds a message under its number to the queue of a thread. After want of memory nothing has changed.
#[inline(always)]
pub fn post(
    threads: &mut Vec<ThreadState>,
    to: u64,
    number: u32,
    msg: Msg,
) -> Result<(), AllocError>
    requires { HasRoom threads.old.items to number }
    ensures ok { OnOk result (EachBy (λ t. changed t (posts to number msg)) threads.old.items threads.new.items) }
    ensures err { OnErr result (threads.new.items ≡ threads.old.items) }
{
    threads[(to - 1) as usize].post(number, msg)
}

/// Takes out the messages for a window and its kin.
pub fn purge_kin(threads: &mut Vec<ThreadState>, tree: &Tree, who: Thread, window: Hwnd)
    requires { IsOne threads.old.items who.0 }
    ensures { EachBy (λ t. changed t (purges who.0 (kin_in tree.now.live window.0))) threads.old.items threads.new.items }
{
    let goes = |w: Hwnd| -> bool
        ensures { result ≡ goes_with tree.entry.now.live window.0 w.0 }
    { tree.row(w).is_some() && tree.is_kin(window, w) };
    threads[usize::from(who.0 - 1)].purge(goes);
}

/// Ends a thread, and its messages go.
pub fn end(threads: &mut Vec<ThreadState>, who: Thread)
    requires { IsOne threads.old.items who.0 }
    ensures { EachBy (λ t. changed t (ends who.0)) threads.old.items threads.new.items }
{
    threads[usize::from(who.0 - 1)].end();
}

/// Takes out what a retrieval handed out and removes: a posted message, or quit. WM_PAINT and WM_TIMER aren't kept here.
pub fn take(threads: &mut Vec<ThreadState>, entry: &Entry, origin: Origin, number: u32)
    requires { IsOne threads.old.items entry.now.who.0 }
    ensures { EachBy (λ t. changed t (taken_if entry.now.call (removal entry.now.who.0 origin number))) threads.old.items threads.new.items }
{
    if !entry.call.removes() {
        return;
    }
    match origin {
        Origin::Posted => take_post(threads, entry.who, number),
        Origin::Quit => set_quit(threads, entry.who, None),
        Origin::Input | Origin::Paint | Origin::Timer => {}
    }
}

/// Takes a message out of the queue of a thread.
fn take_post(threads: &mut Vec<ThreadState>, who: Thread, number: u32)
    requires { IsOne threads.old.items who.0 }
    ensures { EachBy (λ t. changed t (takes who.0 number)) threads.old.items threads.new.items }
{
    threads[usize::from(who.0 - 1)].take(number);
}

/// Keeps the code of a thread's quit, or that there is none.
pub fn set_quit(threads: &mut Vec<ThreadState>, who: Thread, quit: Option<u64>)
    requires { IsOne threads.old.items who.0 }
    ensures { EachBy (λ t. changed t (quits who.0 quit)) threads.old.items threads.new.items }
{
    threads[usize::from(who.0 - 1)].set_quit(quit);
}

/// Keeps of the entry's own thread whether it waits now.
pub fn note_entry(threads: &mut Vec<ThreadState>, entry: &Entry)
    ensures { EachBy (λ t. noted t entry.now) threads.old.items threads.new.items }
{
    let thread = usize::from(entry.who.0);
    if thread == 0 || thread > threads.len() {
        return;
    }
    let waiting = waiting_with(entry);
    threads[thread - 1].note(waiting);
}

/// Where the entry is a look of its own thread at its queue, what is there came before. `count` says how many posts there were with it.
pub fn mark_look(threads: &mut Vec<ThreadState>, entry: &Entry, count: u32)
    ensures { EachBy (λ t. marked t entry.now count) threads.old.items threads.new.items }
{
    if is_refusal(entry.answer) || !is_look(entry.call) {
        return;
    }
    let thread = usize::from(entry.who.0);
    if thread == 0 || thread > threads.len() {
        return;
    }
    threads[thread - 1].look(count);
}

/// The call that an entry waits with.
fn waiting_with(entry: &Entry) -> Option<Call>
    ensures { result ≡ waiting_with entry.now }
{
    match entry.answer {
        Answer::Wait => Some(entry.call),
        _ => None,
    }
}

/// How many posts there were, with this entry.
pub fn count_after(count: u32, answer: Answer) -> u32
    ensures { result ≡ count_kept answer count }
{
    match answer {
        Answer::Posted(number) => number,
        _ => count,
    }
}

/// The clock after an entry, in milliseconds.
pub fn time_after(time: u64, entry: Entry) -> u64
    ensures { result ≡ time_kept entry time }
{
    match entry.answer {
        Answer::Advanced(told) | Answer::Value(told) if entry.who.0 == 0 => told,
        _ => time,
    }
}
