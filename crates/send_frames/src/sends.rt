//! The sends of all threads.

ghost use Rattle.std.specs.Prelude.{◌≡◌, ◌+◌, ◌≤◌, ◌<◌, ◌-◌, List, [], length, nat_le, nat_lt, vec_len, slice_index_or, slice_set, drop, replicate, IsSome, Option, Some, None, IfOk, OnOk, OnErr, MatchResult, option_and_then, option_copied, option_map, slice_get};
ghost use Rattle.std.specs.FinMap as map;
ghost use Rattle.send_frames.specs.Book.{AreNamedOnce, Book, IsFaultFor, IsNewFrame, IsNextAbove, IsSound, IsThread, NamesKnown, answered_by, begun_by, forgotten, is_open, is_owing, is_too_deep, named_by, no_sends, popped, pushed, refusal_at_begin, stack_of, with_top};

use crate::row::SendRow;
use crate::stack::Stack;
use crate::table::{Item, Table};
use std::alloc::{AllocError, Global};
use std::marker::Model;
use win_num::{Cause, Code, Fault, Frame, SendId, Thread};

/// How many sends may be known.
const KNOWN: usize = 1024;

/// ERROR_NOT_ENOUGH_STACK's number (Microsoft, System Error Codes).
const STACK_OVERFLOW: u16 = 1001;

/// The stacks of frames of all threads, and the sends that are known.
///
/// A send is known from its `begin` while it has no answer, or a frame that names it stands on a stack,
/// or it is a callback send to another thread that wasn't forgotten.
#[derive(Drop)]
pub struct Sends {
    begun: u32,
    stacks: Vec<Stack>,
    table: Table,
}

impl Model for Sends {
    ghost use Rattle.send_frames.specs.Book.{Book, book_code};
    ghost use Rattle.send_frames.specs.Items.{known_in, Agrees};

    ghost Value = { Book };

    ghost coded = { book_code };

    ghost view = { λ a. record { begun = a.begun; stacks = a.stacks.items; known = known_in a.table } };

    ghost invariant = { λ a. Agrees a.begun a.stacks.items a.table };
}

impl Sends {
    /// No send, and an empty stack for each thread, with room for 64 frames.
    pub fn new(alloc: Global, threads: u8) -> Result<Sends, AllocError>
        requires { (1 ≤ threads) × (threads ≤ 15) }
        ensures empty { IfOk result (λ s. s ≡ no_sends threads) }
        ensures once { IfOk result (λ s. AreNamedOnce s.stacks) }
    {
        let stacks = empty_stacks(alloc, threads)?;
        let table = Table::new(alloc);
        Ok(Sends {
            begun: 0,
            stacks,
            table,
        })
    }

    /// Begins a send and gives its number, one above the last. It pushes `Inside` on the sender's stack
    /// where the sender sends to itself, else `Await` for the two kinds whose sender waits, else nothing.
    /// Refused 1001 exactly where it would push at depth 64, else `Full` exactly where 1,024 sends are
    /// known. `Memory` is for room of the table, and stands once all numbers of 32 bits are used.
    pub fn begin(&mut self, row: SendRow) -> Result<SendId, Fault>
        requires from { IsThread self.old row.from.0 }
        requires to { IsThread self.old row.to.0 }
        ensures number { IfOk result (λ s. s.0 ≡ self.old.begun + 1) }
        ensures begun { OnOk result (self.new ≡ begun_by self.old row) }
        ensures once { OnOk result (AreNamedOnce self.old.stacks → AreNamedOnce self.new.stacks) }
        ensures cause { MatchResult result (λ _. refusal_at_begin self.old row ≡ None) (λ fault. IsFaultFor (refusal_at_begin self.old row) fault) }
        ensures err { OnErr result (self.new ≡ self.old) }
        ensures threads { length self.new.stacks ≡ length self.old.stacks }
        ensures sound { IsSound self.new }
    {
        if let Some(code) = self.refusal(&row) {
            return Err(Fault::Refused(code));
        }
        let Some(number) = self.begun.checked_add(1) else {
            return Err(Fault::Memory);
        };
        let send = SendId(number);
        self.table.add(send, Item::new(row))?;
        self.begun = number;
        put_on_top(&mut self.stacks, row.from, row.frame(send));
        Ok(send)
    }

    /// Why the send can't be begun, room aside.
    fn refusal(&self, row: &SendRow) -> Option<Code>
        requires { IsThread self.now row.now.from.0 }
        ensures cause { result ≡ refusal_at_begin self.now row.now }
        ensures sound { IsSound self.now }
    {
        let is_full = self.is_full();
        if self.is_too_deep(row) {
            return Some(Code::Win(STACK_OVERFLOW));
        }
        if is_full {
            return Some(Code::Full);
        }
        None
    }

    /// Whether the send's beginning would push at depth 64.
    fn is_too_deep(&self, row: &SendRow) -> bool
        requires { IsThread self.now row.now.from.0 }
        ensures { result ≡ is_too_deep self.now row.now }
    {
        let has_room = self.has_room(row.from);
        row.pushes() && !has_room
    }

    /// How many sends were begun: the number of the last one.
    pub fn begun(&self) -> u32
        ensures { result ≡ self.now.begun }
    {
        self.begun
    }

    /// How many sends are known, 0 to 1,024.
    pub fn known(&self) -> usize
        ensures known { result ≡ map.len self.now.known }
        ensures sound { IsSound self.now }
    {
        self.table.len()
    }

    /// Whether as many sends are known as may be.
    pub fn is_full(&self) -> bool
        ensures full { result ≡ nat_le 1024 (map.len self.now.known) }
        ensures sound { IsSound self.now }
    {
        self.table.len() >= KNOWN
    }

    /// The known send of least number above this one, `None` exactly where there is none.
    pub fn next_known(&self, after: SendId) -> Option<SendId>
        ensures next { IsNextAbove self.now.known after.0 (option_map (λ s. s.0) result) }
        ensures sound { IsSound self.now }
    {
        self.table.next(after)
    }

    /// Whether a send's result is still owed to a callback procedure, `false` where the send isn't known.
    pub fn owes(&self, s: SendId) -> bool
        ensures { result ≡ is_owing (map.get self.now.known s.0) }
    {
        match self.table.get(s) {
            Some(item) => item.owed,
            None => false,
        }
    }

    /// Puts a frame on the top of a thread's stack. Refused 1001 exactly at depth 64, and never `Memory`.
    pub fn push(&mut self, t: Thread, f: Frame) -> Result<(), Fault>
        requires thread { IsThread self.old t.0 }
        requires named { NamesKnown self.old f }
        ensures pushed { OnOk result (self.new ≡ pushed self.old t.0 f) }
        ensures once { OnOk result (IsNewFrame self.old.stacks f → AreNamedOnce self.old.stacks → AreNamedOnce self.new.stacks) }
        ensures cause { MatchResult result (λ _. length (stack_of self.old t.0) < 64) (λ fault. (fault ≡ Fault.Refused (Code.Win 1001)) × (64 ≤ length (stack_of self.old t.0))) }
        ensures err { OnErr result (self.new ≡ self.old) }
        ensures threads { length self.new.stacks ≡ length self.old.stacks }
        ensures sound { IsSound self.new }
    {
        if !self.has_room(t) {
            return Err(Fault::Refused(Code::Win(STACK_OVERFLOW)));
        }
        put_on_top(&mut self.stacks, t, Some(f));
        self.table.count_up(named(Some(f)));
        Ok(())
    }

    /// Takes the newest frame from a thread's stack, `None` exactly where the stack is empty. The send
    /// that it names is no longer known where nothing else keeps it known.
    pub fn pop(&mut self, t: Thread) -> Option<Frame>
        requires { IsThread self.old t.0 }
        ensures frame { result ≡ slice_get (stack_of self.old t.0) 0 }
        ensures rest { self.new ≡ popped self.old t.0 }
        ensures once { AreNamedOnce self.old.stacks → AreNamedOnce self.new.stacks }
        ensures threads { length self.new.stacks ≡ length self.old.stacks }
        ensures sound { IsSound self.new }
    {
        let frame = take_top(&mut self.stacks, t);
        self.table.count_down(named(frame));
        frame
    }

    /// The newest frame of a thread's stack, `None` exactly where the stack is empty.
    pub fn top(&self, t: Thread) -> Option<Frame>
        requires { IsThread self.now t.0 }
        ensures top { result ≡ slice_get (stack_of self.now t.0) 0 }
        ensures sound { IsSound self.now }
    {
        self.stacks[usize::from(t.0) - 1].top()
    }

    /// How many frames a thread's stack has, 0 to 64.
    pub fn depth(&self, t: Thread) -> u8
        requires { IsThread self.now t.0 }
        ensures depth { result ≡ length (stack_of self.now t.0) }
        ensures sound { IsSound self.now }
    {
        self.stacks[usize::from(t.0) - 1].len() as u8
    }

    /// Whether a thread's stack has room for a frame.
    pub fn has_room(&self, t: Thread) -> bool
        requires { IsThread self.now t.0 }
        ensures room { result ≡ nat_lt (length (stack_of self.now t.0)) 64 }
        ensures sound { IsSound self.now }
    {
        self.stacks[usize::from(t.0) - 1].has_room()
    }

    /// Gives a send its answer, `false` exactly where it has one already or isn't known; then nothing
    /// changes. The send is no longer known where nothing else keeps it known.
    pub fn answer(&mut self, s: SendId, value: u64, cause: Cause) -> bool
        ensures told { result ≡ is_open (map.get self.old.known s.0) }
        ensures kept { self.new ≡ answered_by self.old s.0 (value, cause) }
        ensures stacks { self.new.stacks ≡ self.old.stacks }
        ensures threads { length self.new.stacks ≡ length self.old.stacks }
        ensures sound { IsSound self.new }
    {
        self.table.answer(s, value, cause)
    }

    /// A callback send's result was taken, or its sender has ended: the result is owed no longer. It
    /// changes nothing for a send that isn't known, or whose result is owed to nobody.
    pub fn forget(&mut self, s: SendId)
        ensures forgotten { self.new ≡ forgotten self.old s.0 }
        ensures stacks { self.new.stacks ≡ self.old.stacks }
        ensures threads { length self.new.stacks ≡ length self.old.stacks }
        ensures sound { IsSound self.new }
    {
        self.table.forget(s)
    }

    /// The first answer of a send, `None` exactly where it isn't known or has no answer.
    pub fn answered(&self, s: SendId) -> Option<(u64, Cause)>
        ensures { result ≡ option_and_then (λ k. k.answer) (map.get self.now.known s.0) }
    {
        match self.table.get(s) {
            Some(item) => item.answer,
            None => None,
        }
    }

    /// A send as it was begun, `None` exactly where it isn't known.
    pub fn row(&self, s: SendId) -> Option<&SendRow>
        ensures { option_copied result ≡ option_map (λ k. k.row) (map.get self.now.known s.0) }
    {
        match self.table.get(s) {
            Some(item) => Some(&item.row),
            None => None,
        }
    }
}

/// Puts a frame, if there is one, on the top of a thread's stack.
fn put_on_top(stacks: &mut Vec<Stack>, t: Thread, frame: Option<Frame>)
    requires thread { (1 ≤ t.0) × (t.0 ≤ vec_len stacks.old) }
    requires room { IsSome frame → length (slice_index_or stacks.old.items (t.0 - 1) []) < 64 }
    ensures { stacks.new.items ≡ with_top stacks.old.items t.0 frame }
{
    if let Some(frame) = frame {
        stacks[usize::from(t.0) - 1].push(frame);
    }
}

/// Takes the newest frame, if there is one, from a thread's stack.
fn take_top(stacks: &mut Vec<Stack>, t: Thread) -> Option<Frame>
    requires { (1 ≤ t.0) × (t.0 ≤ vec_len stacks.old) }
    ensures frame { result ≡ slice_get (slice_index_or stacks.old.items (t.0 - 1) []) 0 }
    ensures rest { stacks.new.items ≡ slice_set stacks.old.items (t.0 - 1) (drop 1 (slice_index_or stacks.old.items (t.0 - 1) [])) }
{
    stacks[usize::from(t.0) - 1].pop()
}

/// An empty stack for each thread.
fn empty_stacks(alloc: Global, threads: u8) -> Result<Vec<Stack>, AllocError>
    ensures { IfOk result (λ stacks. stacks.items ≡ replicate threads []) }
{
    let mut stacks = Vec::with_capacity(alloc, usize::from(threads))?;
    for _ in 0..threads {
        stacks.push(Stack::new(alloc)?)?;
    }
    Ok(stacks)
}

/// The send that a frame names.
fn named(frame: Option<Frame>) -> Option<SendId>
    ensures { option_map (λ s. s.0) result ≡ option_and_then named_by frame }
{
    match frame? {
        Frame::Entered(send) | Frame::Inside(send) | Frame::Await(send) => Some(send),
        Frame::Called | Frame::CallbackRun => None,
    }
}
