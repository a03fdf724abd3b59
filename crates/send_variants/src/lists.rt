//! The ready lists of all threads, and what came since each thread's last look.

ghost use Rattle.std.specs.Prelude.{◌≡◌, ◌+◌, ◌<◌, ◌≤◌, ◌-◌, ◌∷◌, ◌++◌, ℕ, true, [], length, drop, replicate, slice_get, slice_set, option_map, IfOk};
ghost use Rattle.std.specs.List.{list_any};
ghost use Rattle.send_variants.specs.Lists.{AreBelow, IsSound, IsThread, all_without, count_on, is_new, list_of, mark_of, named_by, place_on, total, with_list};

use crate::linked::LinkedLists;
use crate::mark::{Mark, count_in, count_out, look_from, no_marks};
use crate::ready::Ready;
use std::alloc::{AllocError, Global};
use std::marker::Model;
use win_num::{SendId, Thread};

/// One list of entries for each thread, in the order of their places, and a mark: what has this place or a
/// later one came since the thread's last look. At most 1,024 entries stand in all lists together, and at
/// most one of them names a send.
#[derive(Drop)]
pub struct ReadyLists {
    lists: LinkedLists,
    /// Those of each thread's list.
    marks: Vec<Mark>,
}

impl Model for ReadyLists {
    ghost use Rattle.send_variants.specs.Counts.{AreCounted, marks_in};
    ghost use Rattle.send_variants.specs.Lists.{IsSound, ReadyView};

    ghost Value = { ReadyView };

    ghost view = { λ a. record { lists = a.lists; marks = marks_in a.marks.items } };

    ghost invariant = { λ a. AreCounted a.marks.items a.lists × IsSound a.lists };
}

impl ReadyLists {
    /// An empty list for each thread, which hasn't looked, with room for 1,024 entries.
    pub fn new(alloc: Global, threads: u8) -> Result<ReadyLists, AllocError>
        requires { (1 ≤ threads) × (threads ≤ 15) }
        ensures { IfOk result (λ a. a ≡ record { lists = replicate threads []; marks = replicate threads 0 }) }
    {
        let lists = LinkedLists::new(alloc, threads)?;
        let marks = no_marks(alloc, threads)?;
        Ok(ReadyLists { lists, marks })
    }

    /// Puts an entry at the end of a thread's list.
    pub fn put(&mut self, t: Thread, place: u32, r: Ready)
        requires thread { IsThread self.old.lists t.0 }
        requires above { AreBelow place (list_of self.old.lists t.0) }
        requires room { total self.old.lists < 1024 }
        requires unnamed { count_on (named_by r) self.old.lists ≡ 0 }
        ensures put { self.new ≡ record self.old { lists = with_list self.old.lists t.0 (list_of self.old.lists t.0 ++ (place, r) ∷ []) } }
        ensures threads { length self.new.lists ≡ length self.old.lists }
        ensures sound { IsSound self.new.lists }
    {
        self.lists.put(t, place, r);
        count_in(&mut self.marks, usize::from(t.0) - 1, place);
    }

    /// What is ready at the least place of a thread's list, `None` exactly where the list is empty.
    pub fn head(&self, t: Thread) -> Option<Ready>
        requires { IsThread self.now.lists t.0 }
        ensures head { result ≡ option_map (λ e. e.1) (slice_get (list_of self.now.lists t.0) 0) }
        ensures sound { IsSound self.now.lists }
    {
        self.lists.head(t)
    }

    /// Whether something is ready for a thread.
    pub fn has_some(&self, t: Thread) -> bool
        requires { IsThread self.now.lists t.0 }
        ensures { result ≡ list_any (λ e. true) (list_of self.now.lists t.0) }
    {
        self.marks[usize::from(t.0) - 1].count.is_there()
    }

    /// Whether something is ready for a thread that came since its last look.
    pub fn has_new(&self, t: Thread) -> bool
        requires { IsThread self.now.lists t.0 }
        ensures { result ≡ list_any (is_new (mark_of self.now.marks t.0)) (list_of self.now.lists t.0) }
    {
        self.marks[usize::from(t.0) - 1].count.is_fresh()
    }

    /// A thread looks: what is there came before. `place` is above all of its list.
    pub fn look(&mut self, t: Thread, place: u32)
        requires thread { IsThread self.old.lists t.0 }
        requires above { AreBelow place (list_of self.old.lists t.0) }
        ensures { self.new ≡ record self.old { marks = slice_set self.old.marks (t.0 - 1) place } }
    {
        look_from(&mut self.marks, usize::from(t.0) - 1, place);
    }

    /// Takes the entry at the least place of a thread's list, and tells its place. `None` exactly where the
    /// list is empty.
    pub fn take(&mut self, t: Thread) -> Option<(u32, Ready)>
        requires { IsThread self.old.lists t.0 }
        ensures taken { result ≡ slice_get (list_of self.old.lists t.0) 0 }
        ensures rest { self.new ≡ record self.old { lists = with_list self.old.lists t.0 (drop 1 (list_of self.old.lists t.0)) } }
        ensures threads { length self.new.lists ≡ length self.old.lists }
        ensures sound { IsSound self.new.lists }
    {
        let (place, ready) = self.lists.take(t)?;
        count_out(&mut self.marks, usize::from(t.0) - 1, place);
        Some((place, ready))
    }

    /// Takes a send out of every list, and tells the place of its entry. `None` exactly where no list has it.
    pub fn withdraw(&mut self, s: SendId) -> Option<u32>
        ensures place { result ≡ place_on s.0 self.old.lists }
        ensures rest { self.new ≡ record self.old { lists = all_without s.0 self.old.lists } }
        ensures threads { length self.new.lists ≡ length self.old.lists }
        ensures sound { IsSound self.new.lists }
    {
        let (at, place) = self.lists.withdraw(s)?;
        count_out(&mut self.marks, at, place);
        Some(place)
    }
}
