//! The machine.

ghost use Rattle.std.specs.Prelude.{◌≡◌, ◌≤◌, ◌<◌, ◌+◌, [], IfOk, IsOk, OnErr, OnOk, false, reverse, true};
ghost use Rattle.core_deliver.specs.Groups.{group_of, is_delivery, is_retrieval, is_status};
ghost use Rattle.core_deliver.specs.declared.groups.Group.TheVariants.{Other};
ghost use Rattle.core_state.specs.OnePlace.{takes_one_place};
ghost use Rattle.user_model.specs.Stories.{send_story};
ghost use Rattle.user_model.specs.Idle.{have_all_ended, reply};
ghost use Rattle.user_model.specs.Legal.{IsLegal};
ghost use Rattle.user_model.specs.Machines.{after};
ghost use Rattle.user_model.specs.Setups.{IsSetup};

use crate::actor::{Actor, actor_of};
use crate::answer::{answer, have_all_ended, is_barred, is_clock_barred};
use core_deliver::{Group, deliver_in, enter, group_of, retrieve_in, status};
use core_draw::draw;
use core_state::CoreState;
use core_window::window;
use post_queue::Steps;
use std::alloc::{AllocError, Global};
use std::marker::{Brand, Model};
use std::sync::ledger::{Blank, Ledger};
use user_model::{Answer, Call, Entry, Machine, SendCount, SendStory, Setup};
use win_num::{SendId, Thread};

/// The message machine for the threads of one script. Each of its answers is the reply of the
/// definitions, found from kept parts; no step walks the history.
#[derive(Drop)]
pub struct User {
    state: CoreState,
}

impl Model for User {
    ghost use Rattle.core_state.specs.States.{Seen};

    ghost Value = { Seen };

    ghost view = { λ u. u.state };
}

impl User {
    /// A machine without entries.
    pub fn new(alloc: Global, setup: Setup) -> Result<User, AllocError>
        requires { IsSetup setup }
        ensures setup { IfOk result (λ user. user.setup ≡ setup) }
        ensures past { IfOk result (λ user. user.past ≡ []) }
    {
        let state = CoreState::new(alloc, setup)?;
        Ok(User { state })
    }

    /// All entries so far, the oldest first: a legal history.
    pub fn legal_history(&self) -> &[Entry]
        ensures all { result.now ≡ reverse self.now.past }
        ensures legal { IsLegal self.now.setup result.now }
    {
        self.state.history()
    }

    /// Takes the places of this many steps more. Want of memory comes only where there were fewer, and leaves at least those that there
    /// were. No entry comes or goes (Rust, Vec::reserve). While there is one, a step answers Ok whose call takes no other memory.
    pub fn reserve(&mut self, n: u32) -> Result<(), AllocError>
        ensures room { OnOk result (n ≤ self.new.spare) }
        ensures kept { self.old.spare ≤ self.new.spare }
        ensures lacking { OnErr result (self.old.spare < n) }
        ensures past { self.new.past ≡ self.old.past }
        ensures setup { self.new.setup ≡ self.old.setup }
    {
        self.state.reserve(n)
    }

    /// What became of the send of a number: nothing, where there is none.
    pub fn send_story(&self, send: SendId) -> SendStory
        ensures { result ≡ send_story self.now.past send.0 }
    {
        self.state.send_story(send)
    }

    /// Whether all threads have ended.
    pub fn have_all_ended(&self) -> bool
        ensures { result ≡ have_all_ended self.now.setup self.now.past }
    {
        have_all_ended(&self.state)
    }
}

impl Machine for User {
    ghost setup = { λ u. u.setup };

    ghost past = { λ u. u.past };

    /// As the trait says. It uses up one place of an entry at most, and where there is one, a call that takes no other memory is answered.
    #[inline(always)]
    fn step(&mut self, who: Thread, call: Call) -> Result<Answer, AllocError>
        ensures answer { IfOk result (λ answer. answer ≡ reply self.old.setup self.old.past who.0 call) }
        ensures entry { OnOk result (self.new.past ≡ after self.old.setup self.old.past who call) }
        ensures err { OnErr result (self.new.past ≡ self.old.past) }
        ensures setup { self.new.setup ≡ self.old.setup }
        ensures spare { self.old.spare ≤ self.new.spare + 1 }
        ensures with_room { takes_one_place call ≡ true → 1 ≤ self.old.spare → IsOk result }
    {
        let mut entry = Entry {
            who,
            call,
            answer: Answer::Nothing,
        };
        make(&mut self.state, &mut entry)?;
        Ok(entry.answer)
    }

    fn barred(&self, who: Thread) -> bool {
        match actor_of(who) {
            Actor::Clock => is_clock_barred(&self.state),
            Actor::Numbered(number) => is_barred(&self.state, number),
        }
    }

    fn history(&self) -> &[Entry] {
        self.state.history()
    }

    fn frame(&self, number: u32) -> Option<&[u8]> {
        self.state.frame(number)
    }

    fn send_count(&self) -> SendCount {
        self.state.send_count()
    }
}

/// Makes the call of an entry, and writes what it answers into the entry.
#[inline(always)]
fn make(s: &mut CoreState, entry: &mut Entry) -> Result<(), AllocError>
    ensures answer { OnOk result (entry.new.answer ≡ reply s.old.setup s.old.past entry.old.who.0 entry.old.call) }
    ensures entry { OnOk result (s.new.past ≡ after s.old.setup s.old.past entry.old.who entry.old.call) }
    ensures err { OnErr result (s.new.past ≡ s.old.past) }
    ensures setup { s.new.setup ≡ s.old.setup }
    ensures spare { s.old.spare ≤ s.new.spare + 1 }
    ensures with_room { takes_one_place entry.old.call ≡ true → 1 ≤ s.old.spare → IsOk result }
{
    match group_of(&entry.call) {
        Group::Retrieval => retrieve_uncounted::<Brand>(Blank::new(1), s, entry),
        Group::Delivery => deliver_in(s, entry),
        Group::Status | Group::Window | Group::Drawing | Group::Other => make_any(s, entry),
    }
}

/// Makes a call that is neither a retrieval nor one of delivery, and writes what it answers into its entry.
#[inline(never)]
fn make_any(s: &mut CoreState, entry: &mut Entry) -> Result<(), AllocError>
    requires retrieval { is_retrieval entry.old.call ≡ false }
    requires delivery { is_delivery entry.old.call ≡ false }
    ensures answer { OnOk result (entry.new.answer ≡ reply s.old.setup s.old.past entry.old.who.0 entry.old.call) }
    ensures entry { OnOk result (s.new.past ≡ after s.old.setup s.old.past entry.old.who entry.old.call) }
    ensures err { OnErr result (s.new.past ≡ s.old.past) }
    ensures setup { s.new.setup ≡ s.old.setup }
    ensures spare { s.old.spare ≤ s.new.spare + 1 }
    ensures with_room { takes_one_place entry.old.call ≡ true → 1 ≤ s.old.spare → IsOk result }
{
    let answer = answered(s, entry.who, &entry.call)?;
    entry.answer = answer;
    Ok(())
}

/// Makes a call that is neither a retrieval nor one of delivery.
fn answered(s: &mut CoreState, who: Thread, call: &Call) -> Result<Answer, AllocError>
    requires retrieval { is_retrieval call.now ≡ false }
    requires delivery { is_delivery call.now ≡ false }
    ensures answer { IfOk result (λ answer. answer ≡ reply s.old.setup s.old.past who.0 call.now) }
    ensures entry { OnOk result (s.new.past ≡ after s.old.setup s.old.past who call.now) }
    ensures err { OnErr result (s.new.past ≡ s.old.past) }
    ensures setup { s.new.setup ≡ s.old.setup }
    ensures spare { s.old.spare ≤ s.new.spare + 1 }
    ensures with_room { takes_one_place call.now ≡ true → 1 ≤ s.old.spare → IsOk result }
{
    match group_of(call) {
        Group::Status => status_uncounted::<Brand>(Blank::new(1), s, who, call),
        Group::Window => window(s, who, call),
        Group::Drawing => draw(s, who, call),
        Group::Other => make_other(s, who, call),
        Group::Retrieval | Group::Delivery => unreachable!(),
    }
}

/// Makes a get or a peek, in steps that nobody counts, and writes what it answers into its entry.
#[inline(always)]
fn retrieve_uncounted<L: Ledger>(
    blank: Blank,
    s: &mut CoreState,
    entry: &mut Entry,
) -> Result<(), AllocError>
    requires name { blank.name ≡ L.name }
    requires parts { blank.parts ≡ L.parts }
    requires one { blank.parts ≡ 1 }
    requires group { is_retrieval entry.old.call ≡ true }
    ensures answer { OnOk result (entry.new.answer ≡ reply s.old.setup s.old.past entry.old.who.0 entry.old.call) }
    ensures entry { OnOk result (s.new.past ≡ after s.old.setup s.old.past entry.old.who entry.old.call) }
    ensures err { OnErr result (s.new.past ≡ s.old.past) }
    ensures setup { s.new.setup ≡ s.old.setup }
    ensures spare { s.old.spare ≤ s.new.spare + 1 }
    ensures with_room { takes_one_place entry.old.call ≡ true → 1 ≤ s.old.spare → IsOk result }
{
    let mut steps = Steps::<L>::new(blank);
    retrieve_in(s, entry, &mut steps)
}

/// Makes a status, in steps that nobody counts.
fn status_uncounted<L: Ledger>(
    blank: Blank,
    s: &mut CoreState,
    who: Thread,
    call: &Call,
) -> Result<Answer, AllocError>
    requires name { blank.name ≡ L.name }
    requires parts { blank.parts ≡ L.parts }
    requires one { blank.parts ≡ 1 }
    requires group { is_status call.now ≡ true }
    ensures answer { IfOk result (λ answer. answer ≡ reply s.old.setup s.old.past who.0 call.now) }
    ensures entry { OnOk result (s.new.past ≡ after s.old.setup s.old.past who call.now) }
    ensures err { OnErr result (s.new.past ≡ s.old.past) }
    ensures setup { s.new.setup ≡ s.old.setup }
    ensures spare { s.old.spare ≤ s.new.spare + 1 }
    ensures with_room { takes_one_place call.now ≡ true → 1 ≤ s.old.spare → IsOk result }
{
    let Call::Status(flags) = *call else {
        unreachable!()
    };
    let mut steps = Steps::<L>::new(blank);
    status(s, who, flags, &mut steps)
}

/// Makes a call of time or timers.
fn make_other(s: &mut CoreState, who: Thread, call: &Call) -> Result<Answer, AllocError>
    requires { group_of call.now ≡ Other }
    ensures answer { IfOk result (λ answer. answer ≡ reply s.old.setup s.old.past who.0 call.now) }
    ensures entry { OnOk result (s.new.past ≡ after s.old.setup s.old.past who call.now) }
    ensures err { OnErr result (s.new.past ≡ s.old.past) }
    ensures setup { s.new.setup ≡ s.old.setup }
    ensures spare { s.old.spare ≤ s.new.spare + 1 }
    ensures with_room { takes_one_place call.now ≡ true → 1 ≤ s.old.spare → IsOk result }
{
    let answer = answer(s, who, call);
    enter(s, who, call, answer)
}
