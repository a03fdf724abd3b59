//! Entries that are refused, and entries of calls that take no memory but the place of their entry. They change waits, a quit and the clock,
//! and nothing else.

ghost use Rattle.std.specs.Prelude.{◌≡◌, ◌≤◌, ◌+◌, ◌∷◌, true, false, IsOk, OnOk, OnErr};
ghost use Rattle.core_state.specs.OnePlace.{FitsQuitting, is_quiet, quitting, takes_one_place};
ghost use Rattle.thread_queues.specs.Changes.{changed};
ghost use Rattle.thread_queues.specs.Queues.{EachBy};
ghost use Rattle.user_model.specs.Past.{is_full};
ghost use Rattle.user_model.specs.Idle.{reply};

use super::{CoreState, make_place};
use std::alloc::AllocError;
use thread_queues::{note_entry, set_quit, time_after};
use thread_state::{ThreadState, is_refusal};
use user_model::{Answer, Call, Entry};

/// Whether an entry is refused, or one of a call that takes no memory but its place.
pub(super) fn is_quiet(entry: &Entry) -> bool
    ensures { result ≡ is_quiet entry.now.answer entry.now.call }
{
    is_refusal(entry.answer) || takes_one_place(entry.call)
}

/// Whether a call takes no memory but the place of its entry.
fn takes_one_place(call: Call) -> bool
    ensures { result ≡ takes_one_place call }
{
    match call {
        Call::Yield => true,
        Call::Clock => true,
        Call::InSend => true,
        Call::KeyState(..) => true,
        Call::GetFocus => true,
        Call::GetActive => true,
        Call::GetCapture => true,
        Call::IsWindow(..) => true,
        Call::Parent(..) => true,
        Call::NextTop(..) => true,
        Call::Find(..) => true,
        Call::WindowAt(..) => true,
        Call::Tick(..) => true,
        Call::SleepUntil(..) => true,
        Call::AwaitTitle(..) => true,
        Call::PostQuit(..) => true,
        _ => false,
    }
}

impl CoreState {
    /// Adds an entry that is refused, or one of a call that takes no memory but its place. After want of memory nothing has changed. There
    /// is none where there is a place for it.
    #[inline(never)]
    pub(super) fn append_quiet(&mut self, entry: &Entry) -> Result<(), AllocError>
        requires room { is_full self.old.past ≡ false }
        requires answer { entry.now.answer ≡ reply self.old.setup self.old.past entry.now.who.0 entry.now.call }
        requires quiet { is_quiet entry.now.answer entry.now.call ≡ true }
        ensures past { OnOk result (self.new.past ≡ entry.now ∷ self.old.past) }
        ensures err { OnErr result (self.new.past ≡ self.old.past) }
        ensures setup { self.new.setup ≡ self.old.setup }
        ensures spare { self.old.spare ≤ self.new.spare + 1 }
        ensures with_room { 1 ≤ self.old.spare → IsOk result }
    {
        make_place(&mut self.history)?;
        note_quit(&mut self.threads, entry);
        note_entry(&mut self.threads, entry);
        self.progress.time = time_after(self.progress.time, *entry);
        self.history.push_reserved(*entry);
        Ok(())
    }
}

/// Keeps the code of the quit that an entry posts, if it does.
fn note_quit(threads: &mut Vec<ThreadState>, entry: &Entry)
    requires { FitsQuitting threads.old.items entry.now.who.0 entry.now.answer entry.now.call }
    ensures { EachBy (λ t. changed t (quitting entry.now.who.0 entry.now.answer entry.now.call)) threads.old.items threads.new.items }
{
    match entry.answer {
        Answer::Okay => post_quit(threads, entry),
        _ => {}
    }
}

/// Keeps the code of the quit that an entry posts, if its call does and was answered by ok.
fn post_quit(threads: &mut Vec<ThreadState>, entry: &Entry)
    requires { FitsQuitting threads.old.items entry.now.who.0 Answer.Okay entry.now.call }
    ensures { EachBy (λ t. changed t (quitting entry.now.who.0 Answer.Okay entry.now.call)) threads.old.items threads.new.items }
{
    match entry.call {
        Call::PostQuit(code) => set_quit(threads, entry.who, Some(code)),
        _ => {}
    }
}
