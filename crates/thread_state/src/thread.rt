//! What is kept of one thread.

ghost use Rattle.std.specs.Prelude.{◌≡◌, ◌<◌, ◌≤◌, ◌==◌, ◌&&◌, ◌||◌, ◌+◌, ℕ, [], ◌∷◌, ◌++◌, All, Bool, List, false, true, filter, find, is_some, length, nat_lt, not, option_map, IfSome, OnOk, OnErr};
ghost use Rattle.std.specs.List.{list_any};
ghost use Rattle.post_queue.specs.Queue.{Posted, pair_of, post_of, queue, without_number};
ghost use Rattle.win_num.specs.declared.message.Hwnd.{Hwnd};
ghost use Rattle.thread_state.specs.Counts.{posts_counted};
ghost use Rattle.thread_state.specs.Passing.{IsMissed, IsMissedBy, passes_here, passes_in, passes_number_here};
ghost use Rattle.thread_state.specs.Reads.{reads};
ghost use Rattle.thread_state.specs.Threads.{fresh_thread};

use crate::passing::{passes, passes_number};
use post_queue::{Posts, Steps};
use queue_status::Count;
use std::alloc::{AllocError, Global};
use std::marker::{Brand, Model};
use std::sync::ledger::{Blank, Ledger};
use user_model::{Call, QUEUE_LIMIT};
use win_num::{Fault, Filter, Hwnd, Msg};
use win_tree::Tree;

/// A thread's posted messages and quit, and what its last entry said.
#[derive(Drop)]
pub struct ThreadState {
    /// The posted messages that stand.
    posts: Posts,
    /// The code of quit, where it was posted and not taken since.
    quit: Option<u64>,
    /// Whether quit was posted since the last look.
    quit_is_new: bool,
    /// The number of the last post of any thread at the last look.
    seen: u32,
    /// How many posted messages there are, and quit as one, and how many of them came since the last look.
    posted: Count,
    ended: bool,
    /// The call of the last entry, where that waited.
    waiting: Option<Call>,
    /// The filter of a retrieval that waits, while no posted message has a number that it lets pass: a question for
    /// its first message then reads none.
    missed: Option<Filter>,
}

impl Model for ThreadState {
    ghost use Rattle.thread_state.specs.Counts.{IsSound};
    ghost use Rattle.thread_state.specs.Threads.{ThreadView};

    ghost Value = { ThreadView };

    ghost view = { λ s. record { queue = s.posts; quit = s.quit; quit_is_new = s.quit_is_new; seen = s.seen; ended = s.ended; waiting = s.waiting } };

    ghost invariant = { λ s. IsSound s.posts s.quit s.quit_is_new s.seen s.posted s.missed };
}

impl ThreadState {
    /// A thread without messages and entries.
    pub fn new(alloc: Global) -> ThreadState
        ensures { result ≡ fresh_thread }
    {
        ThreadState {
            posts: Posts::new(alloc, QUEUE_LIMIT as u32),
            quit: None,
            quit_is_new: false,
            seen: 0,
            posted: Count::none(),
            ended: false,
            waiting: None,
            missed: None,
        }
    }

    /// How many posted messages stand.
    pub fn len(&self) -> u32
        ensures { result ≡ length self.now.queue.posted }
    {
        self.posts.len()
    }

    /// Whether the thread has ended.
    pub fn has_ended(&self) -> bool
        ensures { result ≡ self.now.ended }
    {
        self.ended
    }

    /// The code of quit, where it stands.
    pub fn quit(&self) -> Option<u64>
        ensures { result ≡ self.now.quit }
    {
        self.quit
    }

    /// The call that the thread waits with.
    pub fn waiting(&self) -> Option<Call>
        ensures { result ≡ self.now.waiting }
    {
        self.waiting
    }

    /// The first posted message that a filter lets pass, with its number.
    pub fn first(&self, tree: &Tree, filter: Filter) -> Option<(u32, Msg)>
        ensures { result ≡ option_map pair_of (find (passes_in tree.now.live filter) self.now.queue.posted) }
    {
        first_uncounted::<Brand>(Blank::new(1), self, tree, filter)
    }

    /// The same, in one step for each posted message that it reads: those up to the first that the filter lets pass, and where it lets
    /// none pass at most all. None is read where the thread waits with a filter of the same range of numbers, and no posted message
    /// has a number that it lets pass.
    pub fn first_counted<L: Ledger>(
        &self,
        tree: &Tree,
        filter: Filter,
        steps: &mut Steps<L>,
    ) -> Option<(u32, Msg)>
        ensures found { result ≡ option_map pair_of (find (passes_in tree.now.live filter) self.now.queue.posted) }
        ensures reads { IfSome result (λ found. steps.new ≡ steps.old + reads (passes_in tree.now.live filter) self.now.queue.posted) }
        ensures most { steps.new ≤ steps.old + reads (passes_in tree.now.live filter) self.now.queue.posted }
    {
        if misses(self.missed, filter) {
            return None;
        }
        let pass = |msg: &Msg| -> bool
            ensures { result ≡ passes_here tree.entry.now.live filter msg.now }
        { passes(tree, filter, msg) };
        self.posts.first(pass, steps)
    }

    /// Whether a posted message or quit is there. No message is read.
    pub fn has_post(&self) -> bool
        ensures { result ≡ (list_any (λ p. true) self.now.queue.posted || is_some self.now.quit) }
    {
        self.posted.is_there()
    }

    /// Whether a posted message or quit is there that came since the last look. No message is read.
    pub fn has_new_post(&self) -> bool
        ensures { result ≡ (list_any (λ p. nat_lt self.now.seen p.number) self.now.queue.posted || is_some self.now.quit && self.now.quit_is_new) }
    {
        self.posted.is_fresh()
    }

    /// Puts a message at the end.
    pub fn post(&mut self, number: u32, msg: Msg) -> Result<(), AllocError>
        requires rises { All (λ p. p.number < number) self.old.queue.posted }
        requires room { length self.old.queue.posted < self.old.queue.limit }
        ensures ok { OnOk result (self.new ≡ record self.old { queue = queue self.old.queue.limit (self.old.queue.posted ++ post_of number msg ∷ []) }) }
        ensures err { OnErr result (self.new ≡ self.old) }
    {
        match self.posts.post(number, msg) {
            Ok(()) => {
                self.missed = still_missed(self.missed, &msg);
                self.posted.add(self.seen < number);
                Ok(())
            }
            Err(Fault::Memory) => Err(AllocError),
            Err(Fault::Refused(_)) => unreachable!(),
        }
    }

    /// Takes out the message with a number, where it stands.
    pub fn take(&mut self, number: u32)
        ensures { self.new ≡ record self.old { queue = queue self.old.queue.limit (without_number self.old.queue.posted number) } }
    {
        let taken = self.posts.remove(number);
        if taken.is_some() {
            self.posted.remove(self.seen < number);
        }
    }

    /// Takes out the messages for windows that go.
    pub fn purge<F: Fn(Hwnd) -> bool>(&mut self, goes: F)
        requires { F.IsAlwaysCallable goes }
        ensures { (test : ℕ → Bool) → ((w : Hwnd) (b : Bool) → F.post goes w b → b ≡ test w.0) → self.new ≡ record self.old { queue = queue self.old.queue.limit (filter (λ p. not (test p.msg.hwnd.0)) self.old.queue.posted) } }
    {
        self.missed = None;
        self.posts.purge_each(goes);
        self.posted = counted(&self.posts, self.seen, self.quit, self.quit_is_new);
    }

    /// Keeps the code of quit, which comes now, or that there is none.
    pub fn set_quit(&mut self, quit: Option<u64>)
        ensures { self.new ≡ record self.old { quit = quit; quit_is_new = is_some quit } }
    {
        if self.quit.is_some() {
            self.posted.remove(self.quit_is_new);
        }
        if quit.is_some() {
            self.posted.add(true);
        }
        self.quit = quit;
        self.quit_is_new = quit.is_some();
    }

    /// The thread looks, when there were so many posts of all threads: what is there came before.
    pub fn look(&mut self, posts: u32)
        ensures { self.new ≡ record self.old { quit_is_new = false; seen = posts } }
    {
        self.quit_is_new = false;
        self.seen = posts;
        if self.posts.has_above(posts) {
            self.posted = counted(&self.posts, posts, self.quit, false);
        } else {
            self.posted.look();
        }
    }

    /// Ends the thread, and with it its messages.
    pub fn end(&mut self)
        ensures { self.new ≡ record self.old { queue = queue self.old.queue.limit []; ended = true } }
    {
        self.posts.clear();
        self.posted = counted(&self.posts, self.seen, self.quit, self.quit_is_new);
        self.ended = true;
    }

    /// Keeps whether the thread waits, and with which call.
    pub fn note(&mut self, waiting: Option<Call>)
        ensures { self.new ≡ record self.old { waiting = waiting } }
    {
        self.missed = missed_by::<Brand>(Blank::new(1), &self.posts, waiting);
        self.waiting = waiting;
    }

    /// Keeps that the thread doesn't wait.
    pub fn go_on(&mut self)
        ensures { self.new ≡ record self.old { waiting = None } }
    {
        if self.waiting.is_some() {
            self.missed = None;
            self.waiting = None;
        }
    }
}

/// How many posted messages there are, and quit as one, and how many of them came since the look at which there were so many posts.
fn counted(posts: &Posts, seen: u32, quit: Option<u64>, quit_is_new: bool) -> Count
    requires { length posts.now.posted ≤ 10000 }
    ensures { result ≡ posts_counted seen posts.now.posted quit quit_is_new }
{
    let mut count = Count {
        there: posts.len(),
        fresh: posts.count_above(seen),
    };
    if quit.is_some() {
        count.add(quit_is_new);
    }
    count
}

/// Whether a filter takes the same numbers as the one that is kept.
fn misses(missed: Option<Filter>, filter: Filter) -> bool
    ensures { (ps : List Posted) → result ≡ true → IsMissedBy missed ps → IsMissed filter ps }
{
    match missed {
        Some(kept) => kept.min == filter.min && kept.max == filter.max,
        None => false,
    }
}

/// The filter that is kept, unless it lets the number of one more message pass.
fn still_missed(missed: Option<Filter>, msg: &Msg) -> Option<Filter>
    ensures { (ps : List Posted) (number : ℕ) → IsMissedBy missed ps → IsMissedBy result (ps ++ post_of number msg.now ∷ []) }
{
    let kept = missed?;
    if passes_number(kept, msg) {
        return None;
    }
    Some(kept)
}

/// The filter of a retrieval that waits, where no posted message has a number that it lets pass.
fn missed_by<L: Ledger>(blank: Blank, posts: &Posts, waiting: Option<Call>) -> Option<Filter>
    requires name { blank.name ≡ L.name }
    requires parts { blank.parts ≡ L.parts }
    requires one { blank.parts ≡ 1 }
    ensures { IsMissedBy result posts.now.posted }
{
    let Some(Call::Get(hwnd, min, max)) = waiting else {
        return None;
    };
    let filter = Filter { hwnd, min, max };
    let mut steps = Steps::<L>::new(blank);
    let pass = |msg: &Msg| -> bool
        ensures { result ≡ passes_number_here filter msg.now }
    { passes_number(filter, msg) };
    match posts.first(pass, &mut steps) {
        Some(_) => None,
        None => Some(filter),
    }
}

/// The first posted message that a filter lets pass, with its number, in steps that nobody counts.
fn first_uncounted<L: Ledger>(
    blank: Blank,
    thread: &ThreadState,
    tree: &Tree,
    filter: Filter,
) -> Option<(u32, Msg)>
    requires name { blank.name ≡ L.name }
    requires parts { blank.parts ≡ L.parts }
    requires one { blank.parts ≡ 1 }
    ensures { result ≡ option_map pair_of (find (passes_in tree.now.live filter) thread.now.queue.posted) }
{
    let mut steps = Steps::<L>::new(blank);
    thread.first_counted(tree, filter, &mut steps)
}
