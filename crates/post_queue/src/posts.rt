//! The queue of posted messages.

ghost use Rattle.std.specs.Prelude.{ℕ, Bool, not, nat_lt, count_by, filter, find, option_map, ◌≡◌, ◌↔◌, ◌<◌, ◌≤◌, [], ◌∷◌, ◌++◌, All, OnOk, OnErr, IfErr, ◌⊎◌, length};
ghost use Rattle.win_num.specs.declared.message.Hwnd.{Hwnd};
ghost use Rattle.win_num.specs.declared.message.Msg.{Msg};
ghost use Rattle.std.specs.Fn.{FnReturnsAt};
ghost use Rattle.std.specs.List.{list_any};
ghost use Rattle.post_queue.specs.Queue.{FindsFirst, Rises, count_above, count_for, message_of, pair_of, post_of, queue, without_number, without_window};

use crate::chain::{
    Chain, clear, count_above, counted, first_in, has_above, no_messages, purge, push, take,
};
use crate::steps::Steps;
use std::alloc::Global;
use std::marker::Model;
use std::sync::ledger::Ledger;
use win_num::{Code, Fault, Hwnd, Msg};

/// The messages posted to a thread that are still there, in posted order, so by rising number. Contracts
/// see the limit and the list of the messages with their numbers.
#[derive(Drop)]
pub struct Posts {
    chain: Chain,
    limit: u32,
}

impl Model for Posts {
    ghost use Rattle.post_queue.specs.Queue.{Queue, queue};
    ghost use Rattle.post_queue.specs.Chains.{IsSound, posted_in};

    ghost Value = { Queue };

    ghost view = { λ p. queue p.limit (posted_in p.chain) };

    ghost invariant = { λ p. IsSound p.chain p.limit };
}

impl Posts {
    /// An empty queue that may hold `limit` messages. Takes no memory.
    pub fn new(alloc: Global, limit: u32) -> Posts
        ensures { result ≡ queue limit [] }
    {
        Posts {
            chain: no_messages(alloc),
            limit,
        }
    }

    /// Posts a message under a number above all that the queue holds (Microsoft, PostMessage function).
    /// `Win(1816)` comes exactly where the queue holds as many messages as its limit. After an error the
    /// queue is unchanged.
    pub fn post(&mut self, number: u32, msg: Msg) -> Result<(), Fault>
        requires { All (λ p. p.number < number) self.old.posted }
        ensures ok { OnOk result (self.new ≡ queue self.old.limit (self.old.posted ++ post_of number msg ∷ [])) }
        ensures quota { (result ≡ Err (Fault.Refused (Code.Win 1816))) ↔ (length self.old.posted ≡ self.old.limit) }
        ensures refused { IfErr result (λ fault. (fault ≡ Fault.Refused (Code.Win 1816)) ⊎ (fault ≡ Fault.Memory)) }
        ensures err { OnErr result (self.new ≡ self.old) }
    {
        if self.len() == self.limit {
            return Err(Fault::Refused(Code::Win(1816)));
        }
        match push(&mut self.chain, number, msg) {
            Ok(()) => {}
            Err(_) => return Err(Fault::Memory),
        }
        Ok(())
    }

    /// The first message that passes, with its number, read from the front: a copy, taken in the step
    /// that reads it. Each message up to it takes one step, so one where the first message passes. None
    /// comes exactly where no message passes.
    pub fn first<F: Fn(&Msg) -> bool, L: Ledger>(
        &self,
        pass: F,
        steps: &mut Steps<L>,
    ) -> Option<(u32, Msg)>
        requires { F.IsAlwaysCallable pass }
        ensures first { FindsFirst (FnReturnsAt F.Fn pass) self.now.posted result steps.old steps.new }
        // where `pass` computes a test
        ensures found { (test : Msg → Bool) → ((m : Msg) (b : Bool) → FnReturnsAt F.Fn pass m b → b ≡ test m) → result ≡ option_map pair_of (find (λ p. test p.msg) self.now.posted) }
    {
        first_in(&self.chain, pass, steps)
    }

    /// Takes out the message with the number, which no other has. None comes exactly where the queue has no such message.
    pub fn remove(&mut self, number: u32) -> Option<Msg>
        ensures rises { Rises 0 self.old.posted }
        ensures message { result ≡ message_of self.old.posted number }
        ensures rest { self.new ≡ queue self.old.limit (without_number self.old.posted number) }
    {
        take(&mut self.chain, number)
    }

    /// Takes out the messages for the window, and answers how many they were, and how many of them have a
    /// number above `look`.
    pub fn purge(&mut self, w: Hwnd, look: u32) -> (u32, u32)
        ensures count { result.0 ≡ count_for self.old.posted w.0 }
        ensures fresh { result.1 ≡ count_above self.old.posted w.0 look }
        ensures rest { self.new ≡ queue self.old.limit (without_window self.old.posted w.0) }
    {
        let counts = counted(&self.chain, w, look);
        purge(&mut self.chain, |window| window.0 == w.0);
        counts
    }

    /// Takes out the messages whose window goes: those for which `goes` answers true.
    pub fn purge_each<F: Fn(Hwnd) -> bool>(&mut self, goes: F)
        requires { F.IsAlwaysCallable goes }
        ensures rest { (test : ℕ → Bool) → ((w : Hwnd) (b : Bool) → F.post goes w b → b ≡ test w.0) → self.new ≡ queue self.old.limit (filter (λ p. not (test p.msg.hwnd.0)) self.old.posted) }
        // whatever the closure answers
        ensures limit { self.new.limit ≡ self.old.limit }
        ensures fewer { length self.new.posted ≤ length self.old.posted }
    {
        purge(&mut self.chain, goes);
    }

    /// Whether the queue holds a message with a number above this. No message is read.
    pub fn has_above(&self, number: u32) -> bool
        ensures { result ≡ list_any (λ p. nat_lt number p.number) self.now.posted }
    {
        has_above(&self.chain, number)
    }

    /// How many messages have a number above this. No message is read.
    pub fn count_above(&self, number: u32) -> u32
        ensures { result ≡ count_by (λ p. nat_lt number p.number) self.now.posted }
    {
        count_above(&self.chain, number)
    }

    /// Takes all messages out.
    pub fn clear(&mut self)
        ensures { self.new ≡ queue self.old.limit [] }
    {
        clear(&mut self.chain);
    }

    /// How many messages the queue holds.
    pub fn len(&self) -> u32
        ensures { result ≡ length self.now.posted }
    {
        self.chain.index.len() as u32
    }
}
