//! Entries that add a post, and entries that look for a message and find a post or none. They change posts, waits, looks, marks of
//! ready lists and the count of posts, and nothing else.

ghost use Rattle.std.specs.Prelude.{◌≡◌, ◌≤◌, ◌+◌, ◌∷◌, true, false, OnOk, OnErr, List, None};
ghost use Rattle.core_state.specs.Needs.{FitsPosting, FitsReading};
ghost use Rattle.core_state.specs.Sendings.{FitsLook, is_looking, looked_by};
ghost use Rattle.look_state.specs.Looks.{EachLook, look_after};
ghost use Rattle.core_state.specs.PostEntries.{adds_post, finds_post_or_none, is_posted, names_post, reads_posts};
ghost use Rattle.thread_queues.specs.Changes.{changed, marked, noted};
ghost use Rattle.thread_queues.specs.Deliveries.{FitsPost, change_of_post, effect_in, posting};
ghost use Rattle.thread_queues.specs.Queues.{EachBy};
ghost use Rattle.thread_state.specs.Threads.{waiting_with};
ghost use Rattle.user_model.specs.Past.{is_full};
ghost use Rattle.user_model.specs.Idle.{reply};
ghost use Rattle.win_rows.specs.declared.window.Window.{Window as KeptWindow};

use super::{CoreState, make_place};
use look_state::{Looks, Moment, SeenWindow, seen_by};
use send_state::SendState;
use std::alloc::AllocError;
use thread_queues::{Stamp, count_after, note_entry, post, posting, take};
use thread_state::ThreadState;
use user_model::{Answer, Call, Entry, Origin};
use win_num::{Hwnd, Msg};
use win_tree::Tree;

/// Whether an entry adds a post that its call names.
pub(super) fn adds_post(entry: &Entry) -> bool
    ensures { result ≡ adds_post entry.now.answer entry.now.call }
{
    match entry.answer {
        Answer::Posted(_) => names_post(entry.call),
        _ => false,
    }
}

/// Whether a call posts a message that it names.
fn names_post(call: Call) -> bool
    ensures { result ≡ names_post call }
{
    match call {
        Call::Post(..) => true,
        Call::PostThread(..) => true,
        _ => false,
    }
}

/// Whether an entry looks for a message, and finds a post or none.
pub(super) fn reads_posts(entry: &Entry) -> bool
    ensures { result ≡ reads_posts entry.now.answer entry.now.call }
{
    match entry.call {
        Call::Get(..) => finds_post_or_none(entry.answer),
        Call::Peek(..) => finds_post_or_none(entry.answer),
        _ => false,
    }
}

/// Whether an answer hands out a post, or is that there is no message.
fn finds_post_or_none(answer: Answer) -> bool
    ensures { result ≡ finds_post_or_none answer }
{
    match answer {
        Answer::Got { origin, .. } => is_posted(origin),
        Answer::Wait => true,
        Answer::Nothing => true,
        _ => false,
    }
}

/// Whether a message that is handed out was posted.
fn is_posted(origin: Origin) -> bool
    ensures { result ≡ is_posted origin }
{
    match origin {
        Origin::Posted => true,
        _ => false,
    }
}

impl CoreState {
    /// Adds an entry that adds a post. After want of memory nothing has changed.
    #[inline(never)]
    pub(super) fn append_post(&mut self, entry: &Entry) -> Result<(), AllocError>
        requires room { is_full self.old.past ≡ false }
        requires answer { entry.now.answer ≡ reply self.old.setup self.old.past entry.now.who.0 entry.now.call }
        requires posts { adds_post entry.now.answer entry.now.call ≡ true }
        ensures past { OnOk result (self.new.past ≡ entry.now ∷ self.old.past) }
        ensures err { OnErr result (self.new.past ≡ self.old.past) }
        ensures setup { self.new.setup ≡ self.old.setup }
        ensures spare { self.old.spare ≤ self.new.spare + 1 }
    {
        let stamp = Stamp {
            place: self.history.len() as u32,
            time: self.progress.time,
            cursor: self.progress.cursor,
            shift: false,
        };
        let number = count_after(self.progress.posts, entry.answer);
        make_place(&mut self.history)?;
        add_post(&mut self.threads, &self.tree, stamp, number, entry)?;
        note_running(&mut self.threads, entry);
        self.progress.posts = number;
        self.history.push_reserved(*entry);
        Ok(())
    }

    /// Adds an entry that looks for a message, and finds a post or none. After want of memory nothing has changed.
    #[inline(never)]
    pub(super) fn append_read(&mut self, entry: &Entry) -> Result<(), AllocError>
        requires room { is_full self.old.past ≡ false }
        requires answer { entry.now.answer ≡ reply self.old.setup self.old.past entry.now.who.0 entry.now.call }
        requires reads { reads_posts entry.now.answer entry.now.call ≡ true }
        ensures past { OnOk result (self.new.past ≡ entry.now ∷ self.old.past) }
        ensures err { OnErr result (self.new.past ≡ self.old.past) }
        ensures setup { self.new.setup ≡ self.old.setup }
        ensures spare { self.old.spare ≤ self.new.spare + 1 }
    {
        let place = self.history.len() as u32;
        let alloc = *self.history.allocator();
        let seen = seen_by(alloc, &self.tree, self.display.screen().dirty(), entry)?;
        make_place(&mut self.history)?;
        take_post(&mut self.threads, entry);
        note_wait(&mut self.threads, entry);
        mark_read(&mut self.threads, entry, self.progress.posts);
        let after = self.progress.moment();
        note_seen(&mut self.looks, entry, after, seen);
        note_ready(&mut self.sends, entry, place + 1);
        self.history.push_reserved(*entry);
        Ok(())
    }
}

/// Adds the message that a call posts under a number, at once where it is for a thread. After want of memory nothing has changed.
fn add_post(
    threads: &mut Vec<ThreadState>,
    tree: &Tree,
    stamp: Stamp,
    number: u32,
    entry: &Entry,
) -> Result<(), AllocError>
    requires call { FitsPost tree.now.live stamp.shift entry.now.call }
    requires room { FitsPosting threads.old.items number (posting tree.now.live stamp.time stamp.cursor stamp.shift entry.now.who.0 entry.now.call) }
    ensures ok { OnOk result (EachBy (λ t. changed t (change_of_post number (posting tree.now.live stamp.time stamp.cursor stamp.shift entry.now.who.0 entry.now.call))) threads.old.items threads.new.items) }
    ensures err { OnErr result (threads.new.items ≡ threads.old.items) }
{
    match entry.call {
        Call::PostThread(to, message, wparam, lparam) => {
            let msg = Msg {
                hwnd: Hwnd(0),
                number: message as u32,
                wparam,
                lparam,
                time: stamp.time,
                point: stamp.cursor,
            };
            post(threads, to, number, msg)
        }
        _ => add_posting(threads, tree, stamp, number, entry),
    }
}

/// Adds the same of any call.
#[inline(never)]
fn add_posting(
    threads: &mut Vec<ThreadState>,
    tree: &Tree,
    stamp: Stamp,
    number: u32,
    entry: &Entry,
) -> Result<(), AllocError>
    requires call { FitsPost tree.now.live stamp.shift entry.now.call }
    requires room { FitsPosting threads.old.items number (posting tree.now.live stamp.time stamp.cursor stamp.shift entry.now.who.0 entry.now.call) }
    ensures ok { OnOk result (EachBy (λ t. changed t (change_of_post number (posting tree.now.live stamp.time stamp.cursor stamp.shift entry.now.who.0 entry.now.call))) threads.old.items threads.new.items) }
    ensures err { OnErr result (threads.new.items ≡ threads.old.items) }
{
    match posting(tree, stamp, entry) {
        Some((to, msg)) => post(threads, to, number, msg),
        None => Ok(()),
    }
}

/// Keeps that the entry's own thread looked.
fn mark_read(threads: &mut Vec<ThreadState>, entry: &Entry, count: u32)
    requires { reads_posts entry.now.answer entry.now.call ≡ true }
    ensures { EachBy (λ t. marked t entry.now count) threads.old.items threads.new.items }
{
    let thread = usize::from(entry.who.0);
    if thread == 0 || thread > threads.len() {
        return;
    }
    threads[thread - 1].look(count);
}

/// Notes what was there for the entry's own thread when it looked.
fn note_seen(looks: &mut Looks, entry: &Entry, after: Moment, seen: Vec<SeenWindow>)
    requires { reads_posts entry.now.answer entry.now.call ≡ true }
    ensures { EachLook (λ t. look_after t entry.now after seen.items) looks.old looks.new }
{
    looks.look(entry.who, after, seen);
}

/// Notes of what is ready for the entry's own thread that it came before. `place` is that of the next entry.
fn note_ready(sends: &mut SendState, entry: &Entry, place: u32)
    requires reads { reads_posts entry.now.answer entry.now.call ≡ true }
    requires look { is_looking entry.now ≡ true → FitsLook sends.old entry.now.who.0 place }
    ensures { sends.new ≡ looked_by entry.now place sends.old }
{
    sends.look(entry.who, place);
}

/// Takes out the message that an entry hands out and removes, if it does.
fn take_post(threads: &mut Vec<ThreadState>, entry: &Entry)
    requires fits { FitsReading threads.old.items entry.now.who.0 entry.now.answer }
    requires reads { reads_posts entry.now.answer entry.now.call ≡ true }
    ensures { (ws : List KeptWindow) → EachBy (λ t. changed t (effect_in ws entry.now.who.0 entry.now.answer entry.now.call)) threads.old.items threads.new.items }
{
    if let Answer::Got { origin, number, .. } = entry.answer {
        take(threads, entry, origin, number);
    }
}

/// Keeps of the entry's own thread whether it waits now.
fn note_wait(threads: &mut Vec<ThreadState>, entry: &Entry)
    ensures { EachBy (λ t. noted t entry.now) threads.old.items threads.new.items }
{
    match entry.answer {
        Answer::Wait => note_entry(threads, entry),
        _ => note_running(threads, entry),
    }
}

/// Keeps of the entry's own thread that it doesn't wait.
fn note_running(threads: &mut Vec<ThreadState>, entry: &Entry)
    requires { waiting_with entry.now ≡ None }
    ensures { EachBy (λ t. noted t entry.now) threads.old.items threads.new.items }
{
    let thread = usize::from(entry.who.0);
    if thread == 0 || thread > threads.len() {
        return;
    }
    threads[thread - 1].go_on();
}
