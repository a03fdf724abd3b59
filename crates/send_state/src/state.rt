//! The state of sends.

ghost use Rattle.std.specs.Prelude.{ℕ, Bool, [], ◌≡◌, ◌+◌, ◌<◌, ◌≤◌, ◌^◌, Some, None, IfOk, IfSome, OnOk, OnErr, MatchResult, length, nat_le, option_and_then, option_copied, option_map};
ghost use Rattle.std.specs.FinMap as map;
ghost use Rattle.send_frames.specs.Book.{IsFaultFor, IsThread, NamesKnown, pushed, refusal_at_begin, stack_of};
ghost use Rattle.win_num.specs.Clocks.{clock_limit};
ghost use Rattle.win_num.specs.declared.message.Hwnd.{Hwnd};
ghost use Rattle.send_variants.specs.Lists.{AreBelow, IsThread as IsListed, list_of, with_list};
ghost use Rattle.send_state.specs.Parts.{CanAnswer, CanBegin, CanJoin, CanLeaveFrom, CanLose, ended, freed_to, has_new, has_some, is_from, is_losable, looked, lost, CanReplyIn, CanServe, answered, begun, blocks_as, callback_in, deadline_of, dispatched, enter_as, finished, has_depth, head_of, left, lists_joined, lost_count, next_answer, next_window, no_parts, rank, replied, runs_callback, served, timed_out, top_of};
ghost use Rattle.send_state.specs.Stories.{EachStory, noted_loss};

use crate::story::{Event, note};
use send_frames::{SendRow, Sends};
use send_variants::{Ready, ReadyLists};
use std::alloc::{AllocError, Global};
use std::marker::Model;
use user_model::{Answer, SendStory};
use win_num::{Cause, Fault, Frame, Hwnd, Kind, SendId, Thread, names};

/// How many ranks the entries of one place have.
const RANKS: u32 = 1024;

/// The frames of all threads, the sends that are known, and what is ready for each thread.
#[derive(Drop)]
pub struct SendState {
    sends: Sends,
    ready: ReadyLists,
}

impl Model for SendState {
    ghost use Rattle.std.specs.Prelude.{◌≡◌, length};
    ghost use Rattle.send_state.specs.Parts.{SendParts, parts_code};

    ghost Value = { SendParts };

    ghost coded = { parts_code };

    ghost view = { λ a. record { book = a.sends; lists = a.ready.lists; marks = a.ready.marks } };

    ghost invariant = { λ a. length a.ready.lists ≡ length a.sends.stacks };
}

impl SendState {
    /// No send, and nothing ready.
    pub fn new(alloc: Global, threads: u8) -> Result<SendState, AllocError>
        requires { (1 ≤ threads) × (threads ≤ 15) }
        ensures { IfOk result (λ s. s ≡ no_parts threads) }
    {
        let sends = Sends::new(alloc, threads)?;
        let ready = ReadyLists::new(alloc, threads)?;
        Ok(SendState { sends, ready })
    }

    /// Begins a send at a place of the history, and gives its number. A send to another thread joins that
    /// thread's ready list. Refused 1001 exactly where it would push at depth 64, else `Full` exactly
    /// where 1,024 sends are unfinished; after a fault nothing has changed.
    pub fn begin(&mut self, row: SendRow, place: u32) -> Result<SendId, Fault>
        requires from { IsThread self.old.book row.from.0 }
        requires to { IsThread self.old.book row.to.0 }
        requires place { place < 2 ^ 21 }
        requires joins { CanBegin self.old row place }
        ensures number { IfOk result (λ s. s.0 ≡ self.old.book.begun + 1) }
        ensures begun { OnOk result (self.new ≡ begun self.old row place) }
        ensures cause { MatchResult result (λ _. refusal_at_begin self.old.book row ≡ None) (λ fault. IsFaultFor (refusal_at_begin self.old.book row) fault) }
        ensures err { OnErr result (self.new ≡ self.old) }
    {
        let send = self.sends.begin(row)?;
        if row.from.0 != row.to.0 {
            self.ready.put(row.to, place * RANKS, Ready::Send(send));
        }
        Ok(send)
    }

    /// Runs what is first ready for a thread: a send is entered, a result is handed to its callback
    /// procedure.
    pub fn serve(&mut self, who: Thread)
        requires thread { IsThread self.old.book who.0 }
        requires room { length (stack_of self.old.book who.0) < 64 }
        requires known { CanServe self.old.book (head_of self.old who.0) }
        ensures { self.new ≡ served self.old who.0 }
    {
        match self.ready.take(who) {
            Some((_, Ready::Send(send))) => push(&mut self.sends, who, Frame::Entered(send)),
            Some((_, Ready::Result(send))) => {
                push(&mut self.sends, who, Frame::CallbackRun);
                self.sends.forget(send);
            }
            None => {}
        }
    }

    /// Runs the procedure of a dispatched message.
    pub fn dispatch(&mut self, who: Thread)
        requires thread { IsThread self.old.book who.0 }
        requires room { length (stack_of self.old.book who.0) < 64 }
        ensures { self.new ≡ dispatched self.old who.0 }
    {
        push(&mut self.sends, who, Frame::Called);
    }

    /// Leaves the procedure on top with this result: its send is answered, unless it was. The callback
    /// procedure of a send to the thread's own window runs in its place.
    pub fn leave(&mut self, who: Thread, value: u64, place: u32)
        requires thread { IsThread self.old.book who.0 }
        requires place { place < 2 ^ 21 }
        requires joins { CanLeaveFrom self.old (rank place 0) (top_of self.old who.0) }
        ensures { self.new ≡ left self.old who.0 value place }
    {
        let frame = self.sends.top(who);
        let runs_callback = self.runs_callback(frame);
        if let Some(Frame::Entered(send) | Frame::Inside(send)) = frame {
            self.answer(send, value, Cause::Proc, place * RANKS);
        }
        let _ = self.sends.pop(who);
        if runs_callback {
            push(&mut self.sends, who, Frame::CallbackRun);
        }
    }

    /// Answers the send that was entered on top before its procedure is left.
    pub fn reply(&mut self, who: Thread, value: u64, place: u32)
        requires thread { IsThread self.old.book who.0 }
        requires place { place < 2 ^ 21 }
        requires joins { CanReplyIn self.old (rank place 0) (top_of self.old who.0) }
        ensures { self.new ≡ replied self.old who.0 value place }
    {
        if let Some(Frame::Entered(send)) = self.sends.top(who) {
            self.answer(send, value, Cause::Reply, place * RANKS);
        }
    }

    /// Ends the wait on top, whose send was answered.
    pub fn finish(&mut self, who: Thread)
        requires { IsThread self.old.book who.0 }
        ensures { self.new ≡ finished self.old who.0 }
    {
        let _ = self.sends.pop(who);
    }

    /// Ends the wait on top, whose time is over: the send is answered by 0, and nobody enters it any more.
    pub fn time_out(&mut self, who: Thread, send: SendId)
        requires { IsThread self.old.book who.0 }
        ensures { self.new ≡ timed_out self.old who.0 send.0 }
    {
        let _ = self.ready.withdraw(send);
        let _ = self.sends.answer(send, 0, Cause::Timeout);
        let _ = self.sends.pop(who);
    }

    /// Answers the sends to windows that go, which nobody has entered, by rising number. `goes` tells which
    /// windows these are. The result is how many sends were answered so, 0 to 1,024.
    pub fn lose<F: Fn(Hwnd) -> bool>(&mut self, goes: F, place: u32) -> u32
        requires callable { F.IsAlwaysCallable goes }
        requires place { place < 2 ^ 21 }
        requires joins { (test : ℕ → Bool) × ((w : Hwnd) (b : Bool) → F.post goes w b → b ≡ test w.0) × CanLose test (self.old, rank place 0) }
        ensures lost { (test : ℕ → Bool) → ((w : Hwnd) (b : Bool) → F.post goes w b → b ≡ test w.0) → self.new ≡ lost test self.old place }
        ensures count { (test : ℕ → Bool) → ((w : Hwnd) (b : Bool) → F.post goes w b → b ≡ test w.0) → result ≡ lost_count test self.old place }
    {
        let first = place * RANKS;
        let mut rank = first;
        let mut last = SendId(0);
        while let Some(send) = self.sends.next_known(last) {
            if self.is_losable(send, &goes) && self.ready.withdraw(send).is_some() {
                self.answer(send, 0, Cause::Loss, rank);
                rank += 1;
            }
            last = send;
        }
        rank - first
    }

    /// Notes in the stories of all sends, from send 1 on, which of them are lost where windows go. To be
    /// asked before they are lost.
    pub fn note_losses<F: Fn(Hwnd) -> bool>(&self, stories: &mut [SendStory], goes: &F, place: u32)
        requires callable { F.IsAlwaysCallable goes.now }
        ensures { (test : ℕ → Bool) → ((w : Hwnd) (b : Bool) → F.post goes.now w b → b ≡ test w.0) → EachStory (noted_loss test self.now place) stories.old stories.new }
    {
        let mut last = SendId(0);
        while let Some(send) = self.sends.next_known(last) {
            if self.is_losable(send, goes) {
                note(stories, send, Event::Lost, place);
            }
            last = send;
        }
    }

    /// Ends a thread: nothing is ready for it, and no result is owed to it.
    pub fn end(&mut self, who: Thread)
        requires { IsThread self.old.book who.0 }
        ensures { self.new ≡ ended self.old who.0 }
    {
        empty(&mut self.ready, who);
        free(&mut self.sends, who);
    }

    /// The newest frame of a thread.
    pub fn top(&self, who: Thread) -> Option<Frame>
        requires { IsThread self.now.book who.0 }
        ensures { result ≡ top_of self.now who.0 }
    {
        self.sends.top(who)
    }

    /// Whether a thread's stack has room for a frame.
    pub fn has_room(&self, who: Thread) -> bool
        requires { IsThread self.now.book who.0 }
        ensures { result ≡ has_depth self.now.book who.0 }
    {
        self.sends.has_room(who)
    }

    /// The window of the send or the result that a thread runs next, `None` where nothing is ready or the
    /// thread has 64 frames.
    #[inline(always)]
    pub fn next_window(&self, who: Thread) -> Option<Hwnd>
        requires { IsThread self.now.book who.0 }
        ensures { result ≡ next_window self.now who.0 }
    {
        if !self.sends.has_room(who) {
            return None;
        }
        let (Ready::Send(send) | Ready::Result(send)) = self.ready.head(who)?;
        Some(self.sends.row(send)?.hwnd)
    }

    /// Whether a send or a result is ready for a thread.
    pub fn has_some(&self, who: Thread) -> bool
        requires { IsThread self.now.book who.0 }
        ensures { result ≡ has_some self.now who.0 }
    {
        self.ready.has_some(who)
    }

    /// Whether a send or a result is ready for a thread that came since its last look.
    pub fn has_new(&self, who: Thread) -> bool
        requires { IsThread self.now.book who.0 }
        ensures { result ≡ has_new self.now who.0 }
    {
        self.ready.has_new(who)
    }

    /// A thread looks, and what is ready for it came before. `place` is that of the next entry of the history,
    /// above those of all that is ready.
    pub fn look(&mut self, who: Thread, place: u32)
        requires thread { IsThread self.old.book who.0 }
        requires place { place ≤ 2 ^ 21 }
        requires above { AreBelow (rank place 0) (list_of self.old.lists who.0) }
        ensures { self.new ≡ looked self.old who.0 place }
    {
        self.ready.look(who, place * RANKS);
    }

    /// The answer that runs what a thread has ready, `None` where nothing is ready or the thread has 64
    /// frames. `proc_no` is the procedure of the window's class.
    pub fn next_ready(&self, who: Thread, proc_no: u32) -> Option<Answer>
        requires { IsThread self.now.book who.0 }
        ensures { result ≡ next_answer self.now who.0 proc_no }
    {
        if !self.sends.has_room(who) {
            return None;
        }
        match self.ready.head(who)? {
            Ready::Send(send) => self.enters(send, proc_no),
            Ready::Result(send) => self.calls_back(send),
        }
    }

    /// The first answer of a send, `None` where it has none or isn't unfinished.
    pub fn answered(&self, send: SendId) -> Option<(u64, Cause)>
        ensures { result ≡ option_and_then (λ k. k.answer) (map.get self.now.book.known send.0) }
    {
        self.sends.answered(send)
    }

    /// An unfinished send as it was begun.
    pub fn row(&self, send: SendId) -> Option<&SendRow>
        ensures { option_copied result ≡ option_map (λ k. k.row) (map.get self.now.book.known send.0) }
    {
        self.sends.row(send)
    }

    /// When an unfinished timeout send gives up, in milliseconds of the clock.
    pub fn deadline(&self, send: SendId) -> Option<u64>
        requires { IfSome (map.get self.now.book.known send.0) (λ k. k.row.time < clock_limit) }
        ensures { result ≡ deadline_of self.now.book send.0 }
    {
        let row = self.sends.row(send)?;
        match row.kind {
            Kind::Timeout { ms, .. } => Some(row.time + u64::from(ms)),
            _ => None,
        }
    }

    /// Whether the sender of an unfinished send serves nobody while it waits.
    pub fn blocks(&self, send: SendId) -> bool
        ensures { result ≡ blocks_as (map.get self.now.book.known send.0) }
    {
        match self.sends.row(send) {
            Some(row) => match row.kind {
                Kind::Timeout { flags, .. } => u64::from(flags) & names::SMTO_BLOCK
                    == names::SMTO_BLOCK,
                _ => false,
            },
            None => false,
        }
    }

    /// How many sends are unfinished, 0 to 1,024.
    pub fn unfinished(&self) -> usize
        ensures { result ≡ map.len self.now.book.known }
    {
        self.sends.known()
    }

    /// Whether as many sends are unfinished as may be.
    pub fn is_full(&self) -> bool
        ensures { result ≡ nat_le 1024 (map.len self.now.book.known) }
    {
        self.sends.is_full()
    }

    /// How many sends there were.
    pub fn begun(&self) -> u32
        ensures { result ≡ self.now.book.begun }
    {
        self.sends.begun()
    }

    /// Keeps the first answer of a send, and puts the result of a callback send into its sender's list.
    fn answer(&mut self, send: SendId, value: u64, cause: Cause, rank: u32)
        requires { CanAnswer self.old send.0 rank }
        ensures answered { self.new ≡ answered self.old send.0 value cause rank }
        ensures stacks { self.new.book.stacks ≡ self.old.book.stacks }
    {
        let owes = self.sends.owes(send);
        let is_first = self.sends.answer(send, value, cause);
        if is_first && owes {
            self.join(send, rank);
        }
    }

    /// Puts a result into the list of its send's sender.
    fn join(&mut self, send: SendId, rank: u32)
        requires { IfSome (map.get self.old.book.known send.0) (λ k. CanJoin self.old.lists k.row.from.0 rank send.0) }
        ensures book { self.new.book ≡ self.old.book }
        ensures lists { self.new.lists ≡ lists_joined self.old.lists send.0 rank (map.get self.old.book.known send.0) }
        ensures marks { self.new.marks ≡ self.old.marks }
    {
        if let Some(row) = self.sends.row(send) {
            self.ready.put(row.from, rank, Ready::Result(send));
        }
    }

    /// Whether a send has no answer and its window goes.
    fn is_losable<F: Fn(Hwnd) -> bool>(&self, send: SendId, goes: &F) -> bool
        requires { F.IsAlwaysCallable goes.now }
        ensures { (test : ℕ → Bool) → ((w : Hwnd) (b : Bool) → F.post goes.now w b → b ≡ test w.0) → result ≡ is_losable test (map.get self.now.book.known send.0) }
    {
        let answered = self.sends.answered(send).is_some();
        match self.sends.row(send) {
            Some(row) => goes(row.hwnd) && !answered,
            None => false,
        }
    }

    /// Whether the frame is that of a callback send to an own window.
    fn runs_callback(&self, frame: Option<Frame>) -> bool
        ensures { result ≡ runs_callback self.now.book frame }
    {
        let Some(Frame::Inside(send)) = frame else {
            return false;
        };
        match self.sends.row(send) {
            Some(row) => matches!(row.kind, Kind::Callback { .. }),
            None => false,
        }
    }

    /// The answer that enters a send.
    fn enters(&self, send: SendId, proc_no: u32) -> Option<Answer>
        ensures { result ≡ option_map (enter_as proc_no send) (map.get self.now.book.known send.0) }
    {
        let row = self.sends.row(send)?;
        Some(Answer::Enter {
            send,
            proc_no,
            hwnd: row.hwnd,
            number: row.number,
            wparam: row.wparam,
            lparam: row.lparam,
        })
    }

    /// The answer that hands over the result of a callback send.
    fn calls_back(&self, send: SendId) -> Option<Answer>
        ensures { result ≡ option_and_then (λ k. callback_in send k k.row.kind) (map.get self.now.book.known send.0) }
    {
        let row = self.sends.row(send)?;
        let (result, _) = self.sends.answered(send)?;
        match row.kind {
            Kind::Callback { proc_no, extra } => Some(Answer::Callback {
                send,
                proc_no,
                hwnd: row.hwnd,
                number: row.number,
                extra,
                result,
            }),
            _ => None,
        }
    }
}

/// Puts a frame on the stack of a thread that has room.
fn push(sends: &mut Sends, who: Thread, frame: Frame)
    requires thread { IsThread sends.old who.0 }
    requires named { NamesKnown sends.old frame }
    requires room { length (stack_of sends.old who.0) < 64 }
    ensures pushed { sends.new ≡ pushed sends.old who.0 frame }
    ensures threads { length sends.new.stacks ≡ length sends.old.stacks }
{
    sends.push(who, frame).unwrap();
}

/// Takes all entries out of a thread's list.
fn empty(ready: &mut ReadyLists, who: Thread)
    requires { IsListed ready.old.lists who.0 }
    ensures emptied { ready.new ≡ record ready.old { lists = with_list ready.old.lists who.0 [] } }
    ensures lists { length ready.new.lists ≡ length ready.old.lists }
{
    while ready.take(who).is_some() {}
}

/// No result of the thread's sends is owed any longer.
fn free(sends: &mut Sends, who: Thread)
    ensures freed { sends.new ≡ freed_to who.0 sends.old sends.old.begun }
    ensures threads { length sends.new.stacks ≡ length sends.old.stacks }
{
    let mut last = SendId(0);
    while let Some(send) = sends.next_known(last) {
        if is_from(sends, send, who) {
            sends.forget(send);
        }
        last = send;
    }
}

/// Whether a send that is known is the thread's.
fn is_from(sends: &Sends, send: SendId, who: Thread) -> bool
    ensures { result ≡ is_from who.0 (map.get sends.now.known send.0) }
{
    match sends.row(send) {
        Some(row) => row.from.0 == who.0,
        None => false,
    }
}
