//! What was there for each thread.

ghost use Rattle.std.specs.Prelude.{◌≡◌, ◌==◌, ◌-◌, ◌<◌, ◌≤◌, if◌then◌else◌, [], All, IfOk, length, slice_index_or};
ghost use Rattle.user_model.specs.declared.entry.Setup.{Setup};
ghost use Rattle.look_state.specs.Looks.{AreLooksAt, EachLook, LookView, first_look, look_after, look_at};

use crate::look::Look;
use crate::moment::Moment;
use crate::seen::SeenWindow;
use std::alloc::{AllocError, Global};
use std::marker::Model;
use thread_state::{is_look, is_refusal};
use user_model::Entry;
use win_num::Thread;

/// What was there for each thread when it looked last, from thread 1 on.
#[derive(Drop)]
pub struct Looks {
    looks: Vec<Look>,
}

impl Model for Looks {
    ghost use Rattle.std.specs.Prelude.{List};
    ghost use Rattle.look_state.specs.Looks.{LookView};

    ghost Value = { List LookView };

    ghost view = { λ a. a.looks.items };
}

impl Looks {
    /// So many threads that haven't looked. Want of memory is the only error.
    pub fn new(alloc: Global, threads: u8) -> Result<Looks, AllocError>
        ensures { IfOk result (λ looks. (setup : Setup) → setup.threads ≡ threads → AreLooksAt setup [] looks) }
    {
        let looks = fresh_looks(alloc, threads)?;
        Ok(Looks { looks })
    }

    /// What was there for a thread.
    pub fn of(&self, thread: u8) -> &Look
        requires some { 0 < thread }
        requires known { thread ≤ length self.now }
        ensures { (d : LookView) → result.now ≡ slice_index_or self.now (thread - 1) d }
    {
        &self.looks[usize::from(thread - 1)]
    }

    /// Notes what an entry leaves for its thread, where it is a look. `after` is how far the history comes with the entry, and `seen`
    /// are the dirty pixels at it.
    pub fn follow(&mut self, entry: &Entry, after: Moment, seen: Vec<SeenWindow>)
        ensures { EachLook (λ t. look_after t entry.now after seen.items) self.old self.new }
    {
        if !is_refusal(entry.answer) && is_look(entry.call) {
            self.look(entry.who, after, seen);
        }
    }

    /// Notes what was there for a thread that looks.
    #[inline(always)]
    pub fn look(&mut self, who: Thread, at: Moment, seen: Vec<SeenWindow>)
        ensures { EachLook (λ t k. if who.0 == t then look_at at seen.items else k) self.old self.new }
    {
        let thread = usize::from(who.0);
        if thread == 0 || thread > self.looks.len() {
            return;
        }
        self.looks[thread - 1].renew(at, seen);
    }
}

/// What is kept of so many threads that haven't looked.
fn fresh_looks(alloc: Global, count: u8) -> Result<Vec<Look>, AllocError>
    ensures length { IfOk result (λ looks. length looks.items ≡ count) }
    ensures fresh { IfOk result (λ looks. All (λ k. k ≡ first_look) looks.items) }
{
    let mut looks = Vec::with_capacity(alloc, usize::from(count))?;
    for _ in 0..count {
        looks.push(Look::new(alloc))?;
    }
    Ok(looks)
}
