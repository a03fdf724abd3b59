//! What is kept of groups of attached threads.

ghost use Rattle.std.specs.Prelude.{ℕ, if◌then◌else◌, ◌≡◌, ◌==◌, ◌<◌, ◌≤◌, ◌^◌, ◌&&◌, ◌||◌, true, false, IfOk, [], None, option_map};
ghost use Rattle.std.specs.Int.{bit_at};
ghost use Rattle.input_state.specs.Groups.{has_link, EndsLinks, SetsPair};
ghost use Rattle.input_state.specs.State.{with_key, with_links, with_window};
ghost use Rattle.user_model.specs.declared.entry.Setup.{Setup};
ghost use Rattle.user_model.specs.Focus.{foreground, value_of};
ghost use Rattle.user_model.specs.Groups.{are_attached, is_in_group};
ghost use Rattle.user_model.specs.Legal.{IsLawful};
ghost use Rattle.user_model.specs.Keys.{is_key_down};
ghost use Rattle.user_model.specs.Past.{Past, is_refused};
ghost use Rattle.user_model.specs.Retrievals.{input_got};
ghost use Rattle.user_model.specs.Setups.{IsSetup};
ghost use Rattle.user_model.specs.Windows.{is_live, thread_of};
ghost use Rattle.window_state.specs.Trees.{IsTreeAt};
ghost use Rattle.group_state.specs.GroupTables.{IsGroupsAt, Kept, named};
ghost use Rattle.group_state.specs.Steps.{Follows, FollowsCall, HasNext, holds_in, key_pair, key_taken};
ghost use Rattle.user_model.specs.Keys.{change_in};

use input_state::{InputState, Slot, is_member};
use std::alloc::{AllocError, Global};
use std::marker::Model;
use user_model::{Answer, Call, Entry, Origin};
use win_num::names::{
    VK_LBUTTON, VK_RBUTTON, WM_KEYDOWN, WM_KEYUP, WM_LBUTTONDOWN, WM_LBUTTONUP, WM_RBUTTONDOWN,
    WM_RBUTTONUP,
};
use win_num::{Hwnd, Msg, Thread};
use win_tree::Tree;

/// Which threads are attached to each other, what each set last, which keys went down or up by the input that it took, and the
/// foreground thread.
#[derive(Drop)]
pub struct GroupState {
    /// Its tables are large, so they stay where they are when the rest is moved.
    inputs: Box<InputState>,
    /// The foreground thread, or 0.
    foreground: u8,
}

impl Model for GroupState {
    ghost use Rattle.group_state.specs.GroupTables.{Kept};

    ghost Value = { Kept };

    ghost view = { λ g. record { inputs = g.inputs.value; foreground = g.foreground } };
}

impl GroupState {
    /// The threads 1 to `threads`, none attached to another, and nothing set. Want of memory is the only error.
    pub fn new(alloc: Global, threads: u8) -> Result<GroupState, AllocError>
        requires { (1 ≤ threads) × (threads ≤ 15) }
        ensures { IfOk result (λ g. (setup : Setup) → IsSetup setup → setup.threads ≡ threads → IsGroupsAt setup [] g) }
    {
        let inputs = Box::new(alloc, InputState::new(threads))?;
        Ok(GroupState {
            inputs,
            foreground: 0,
        })
    }

    /// Does what an entry does: it sets the focus, the active window or the capture, attaches two threads or undoes that, or
    /// ends a thread (Microsoft, SetFocus, SetActiveWindow, SetCapture, ReleaseCapture and AttachThreadInput functions), or takes an
    /// input by which a key or a button goes down or up (Microsoft, GetKeyState function). Any other changes nothing. `place` is the
    /// entry's place in the history.
    pub fn follow(&mut self, entry: Entry, place: u32)
        requires { HasNext self.old place entry }
        ensures { Follows place entry self.old self.new }
    {
        match entry.answer {
            Answer::Refused(_) => {}
            Answer::Got {
                origin,
                number,
                msg,
            } => self.follow_got(entry, origin, number, msg, place),
            _ => self.follow_call(entry, place),
        }
    }

    /// Does what an entry does that hands out a message.
    fn follow_got(&mut self, entry: Entry, origin: Origin, number: u32, msg: Msg, place: u32)
        requires next { HasNext self.old place entry }
        requires got { entry.answer ≡ Answer.Got origin number msg }
        ensures { Follows place entry self.old self.new }
    {
        match origin {
            Origin::Input => self.follow_input(entry, number, msg, place),
            _ => self.follow_call(entry, place),
        }
    }

    /// Does what an entry does that hands out an input.
    fn follow_input(&mut self, entry: Entry, number: u32, msg: Msg, place: u32)
        requires next { HasNext self.old place entry }
        requires got { entry.answer ≡ Answer.Got Origin.Input number msg }
        ensures { Follows place entry self.old self.new }
    {
        match key_taken(entry.call, msg) {
            Some((key, down)) => self.set_key(entry.who, key, down, place),
            None => {}
        }
    }

    /// Does what an entry does that isn't refused and hands out no input.
    fn follow_call(&mut self, entry: Entry, place: u32)
        requires next { HasNext self.old place entry }
        requires fine { is_refused entry ≡ false }
        requires no_input { input_got entry.answer entry.call ≡ None }
        ensures { FollowsCall place entry self.old self.new }
    {
        match entry.call {
            Call::SetFocus(w) => self.set(entry.who, Slot::Focus, window_of(w), place),
            Call::SetActive(w) => self.activate(entry.who, window_of(w), place),
            Call::SetCapture(w) => self.set(entry.who, Slot::Capture, window_of(w), place),
            Call::ReleaseCapture => self.set(entry.who, Slot::Capture, Hwnd(0), place),
            Call::Attach(t, u) => self.attach(t, u),
            Call::Detach(t, u) => self.detach(t, u),
            Call::EndThread => self.end(entry.who),
            _ => {}
        }
    }

    /// Notes that a thread set the slot, at this place.
    fn set(&mut self, who: Thread, slot: Slot, w: Hwnd, place: u32)
        requires thread { (1 ≤ who.0) × (who.0 ≤ self.old.inputs.threads) }
        requires later { self.old.inputs.next_place ≤ place }
        ensures { self.new ≡ record self.old { inputs = with_window self.old.inputs who slot w place } }
    {
        self.inputs.set(who, slot, w, place);
    }

    /// Notes that a thread took an input by which the key went down or up, at this place.
    fn set_key(&mut self, who: Thread, key: u8, down: bool, place: u32)
        requires thread { (1 ≤ who.0) × (who.0 ≤ self.old.inputs.threads) }
        requires later { self.old.inputs.next_place ≤ place }
        ensures { self.new ≡ record self.old { inputs = with_key self.old.inputs who key down place } }
    {
        self.inputs.set_key(who, key, down, place);
    }

    /// Notes that a thread set the active window, and that it is the foreground thread where it is a window.
    fn activate(&mut self, who: Thread, w: Hwnd, place: u32)
        requires thread { (1 ≤ who.0) × (who.0 ≤ self.old.inputs.threads) }
        requires later { self.old.inputs.next_place ≤ place }
        ensures { self.new ≡ record { inputs = with_window self.old.inputs who Slot.Active w place; foreground = (if w.0 == 0 then self.old.foreground else who.0) } }
    {
        self.set(who, Slot::Active, w, place);
        if w.0 != 0 {
            self.foreground = who.0;
        }
    }

    /// Attaches two threads to each other that aren't.
    fn attach(&mut self, t: u64, u: u64)
        requires one { (1 ≤ t) × (t ≤ self.old.inputs.threads) × (t < 16) }
        requires other { (1 ≤ u) × (u ≤ self.old.inputs.threads) × (u < 16) }
        requires apart { ((t == u) || has_link self.old.inputs.links t u) ≡ false }
        ensures links { SetsPair self.old.inputs.links self.new.inputs.links t u 1 }
        ensures rest { self.new ≡ record self.old { inputs = with_links self.old.inputs self.new.inputs.links self.new.inputs.groups } }
    {
        self.inputs
            .attach(Thread(t as u8), Thread(u as u8))
            .unwrap();
    }

    /// Undoes the attachment of two threads.
    fn detach(&mut self, t: u64, u: u64)
        requires one { (1 ≤ t) × (t ≤ self.old.inputs.threads) × (t < 16) }
        requires other { (1 ≤ u) × (u ≤ self.old.inputs.threads) × (u < 16) }
        requires linked { has_link self.old.inputs.links t u ≡ true }
        ensures links { SetsPair self.old.inputs.links self.new.inputs.links t u 0 }
        ensures rest { self.new ≡ record self.old { inputs = with_links self.old.inputs self.new.inputs.links self.new.inputs.groups } }
    {
        self.inputs
            .detach(Thread(t as u8), Thread(u as u8))
            .unwrap();
    }

    /// Undoes what attached a thread.
    fn end(&mut self, who: Thread)
        requires { (1 ≤ who.0) × (who.0 ≤ self.old.inputs.threads) }
        ensures links { EndsLinks self.old.inputs.links self.new.inputs.links who.0 }
        ensures rest { self.new ≡ record self.old { inputs = with_links self.old.inputs self.new.inputs.links self.new.inputs.groups } }
    {
        self.inputs.end(who);
    }

    /// The focus, the active window or the capture of a thread's group, or 0: what the thread of the group that set it last has set, where
    /// that is a live window of one of the group's threads (Microsoft, GetFocus, GetActiveWindow and GetCapture functions).
    pub fn value(&self, tree: &Tree, who: Thread, slot: Slot) -> Hwnd
        requires { (1 ≤ who.0) × (who.0 ≤ self.now.inputs.threads) }
        ensures { (setup : Setup) (past : Past) → IsLawful setup past → IsTreeAt past tree.now → IsGroupsAt setup past self.now → result.0 ≡ value_of past who.0 (named slot) }
    {
        let w = self.inputs.value(who, slot);
        if holds(tree, self.inputs.group(who), w) {
            w
        } else {
            Hwnd(0)
        }
    }

    /// Whether it is a live window of a thread of this one's group.
    pub fn is_of_group(&self, tree: &Tree, who: Thread, w: Hwnd) -> bool
        requires { (1 ≤ who.0) × (who.0 ≤ self.now.inputs.threads) }
        ensures { (setup : Setup) (past : Past) → IsLawful setup past → IsTreeAt past tree.now → IsGroupsAt setup past self.now → result ≡ (is_live past w.0 && is_in_group past who.0 (thread_of past w.0)) }
    {
        holds(tree, self.inputs.group(who), w)
    }

    /// Whether a key or a button is down for a thread's group: by the last input of it that a thread of the group took (Microsoft,
    /// GetKeyState function).
    pub fn is_key_down(&self, who: Thread, key: u8) -> bool
        requires { (1 ≤ who.0) × (who.0 ≤ self.now.inputs.threads) }
        ensures { (setup : Setup) (past : Past) → IsLawful setup past → IsGroupsAt setup past self.now → result ≡ is_key_down past who.0 key }
    {
        self.inputs.key_down(who, key)
    }

    /// A thread's group: bit t for thread t.
    pub fn group(&self, who: Thread) -> u16
        requires { (1 ≤ who.0) × (who.0 ≤ self.now.inputs.threads) }
        ensures { (setup : Setup) (past : Past) → IsLawful setup past → IsGroupsAt setup past self.now → (u : ℕ) → u < 16 → (bit_at result u == 1) ≡ is_in_group past who.0 u }
    {
        self.inputs.group(who)
    }

    /// Whether two threads are attached to each other.
    pub fn are_attached(&self, t: u64, u: u64) -> bool
        ensures { (setup : Setup) (past : Past) → IsLawful setup past → IsGroupsAt setup past self.now → result ≡ are_attached past t u }
    {
        if t >= 16 || u >= 16 {
            return false;
        }
        self.inputs.is_attached(Thread(t as u8), Thread(u as u8))
    }

    /// The foreground thread: the one that made a window active last, or 0 (Microsoft, SetActiveWindow function).
    pub fn foreground(&self) -> u8
        ensures { (setup : Setup) (past : Past) → IsGroupsAt setup past self.now → result ≡ foreground past }
    {
        self.foreground
    }
}

/// The key that goes down or up by an input that a call hands out, and whether it goes down. A call that doesn't remove takes none.
fn key_taken(call: Call, msg: Msg) -> Option<(u8, bool)>
    requires { msg.wparam ≤ 255 }
    ensures { result ≡ key_taken call msg }
{
    if call.removes() {
        key_change(msg)
    } else {
        None
    }
}

/// The key that goes down or up by a message, and whether it goes down.
fn key_change(msg: Msg) -> Option<(u8, bool)>
    requires { msg.wparam ≤ 255 }
    ensures { result ≡ option_map key_pair (change_in msg.number msg.wparam) }
{
    if msg.number == WM_KEYDOWN {
        Some((msg.wparam as u8, true))
    } else if msg.number == WM_LBUTTONDOWN {
        Some((VK_LBUTTON as u8, true))
    } else if msg.number == WM_RBUTTONDOWN {
        Some((VK_RBUTTON as u8, true))
    } else if msg.number == WM_KEYUP {
        Some((msg.wparam as u8, false))
    } else if msg.number == WM_LBUTTONUP {
        Some((VK_LBUTTON as u8, false))
    } else if msg.number == WM_RBUTTONUP {
        Some((VK_RBUTTON as u8, false))
    } else {
        None
    }
}

/// The window of a number.
fn window_of(w: u64) -> Hwnd
    requires { w < 2 ^ 32 }
    ensures { result.0 ≡ w }
{
    Hwnd(w as u32)
}

/// Whether it is a live window of a thread of the group.
fn holds(tree: &Tree, group: u16, w: Hwnd) -> bool
    ensures { result ≡ holds_in tree.now.live group w.0 }
{
    match tree.row(w) {
        Some(row) => is_member(group, row.thread),
        None => false,
    }
}
