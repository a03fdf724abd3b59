//! The tables of all threads.

ghost use Rattle.std.specs.Prelude.{if◌then◌else◌, ◌≡◌, ◌↔◌, ℕ, ◌≤◌, ◌<◌, ◌+◌, ◌||◌, ◌==◌, IfErr, OnOk, OnErr, List};
ghost use Rattle.std.specs.Int.{bit_at};
ghost use Rattle.win_num.specs.declared.message.Thread.{Thread};
ghost use Rattle.input_state.specs.Groups.{has_link, Joins, Reaches, IsMutual, SetsPair, EndsLinks};
ghost use Rattle.input_state.specs.State.{State, row_number, group_of, window_of, is_down, with_window, with_key, fresh, with_links};

use crate::groups::{groups_of, with_pair, without_pair, without_thread};
use crate::masks::has;
use crate::table::latest;
use std::marker::Model;
use win_num::{Code, Hwnd, Thread};

/// The error number of a wrong parameter (Microsoft, System Error Codes).
const WRONG_PARAMETER: u16 = 87;

/// What a group has one window of.
#[derive(Clone, Copy, Debug, PartialEq, Eq)]
pub enum Slot {
    /// The window that keys go to (Microsoft, SetFocus function).
    Focus,
    /// The active window (Microsoft, SetActiveWindow function).
    Active,
    /// The window that the mouse goes to wherever it is (Microsoft, SetCapture function).
    Capture,
}

/// What the threads 1 to `threads` set last, and which of them are attached. A group has what the member
/// set that set it last.
#[derive(Drop)]
pub struct InputState {
    threads: u8,
    links: [u16; 16],
    groups: [u16; 16],
    windows: [Hwnd; 48],
    window_orders: [u64; 48],
    downs: [bool; 4096],
    key_orders: [u64; 4096],
    next_place: u64,
}

impl Model for InputState {
    ghost use Rattle.std.specs.Prelude.{◌≤◌};
    ghost use Rattle.input_state.specs.Groups.{Joins, IsClosure, IsMutual};
    ghost use Rattle.input_state.specs.State.{State};

    ghost Value = { State };

    ghost view = { λ a. record { threads = a.threads; links = a.links; groups = a.groups; windows = a.windows; window_orders = a.window_orders; downs = a.downs; key_orders = a.key_orders; next_place = a.next_place } };

    ghost invariant = { λ a. (a.threads ≤ 15) × IsClosure (Joins a.links) a.groups × IsMutual a.links };
}

impl InputState {
    /// The threads 1 to `threads`, of which there are 1 to 15. None are attached, each slot has window 0, and
    /// each key is up.
    pub fn new(threads: u8) -> InputState
        requires { (1 ≤ threads) × (threads ≤ 15) }
        ensures { (groups : List ℕ) × (result ≡ fresh threads groups) }
    {
        let links = [0; 16];
        let groups = groups_of(&links);
        InputState {
            threads,
            links,
            groups,
            windows: [Hwnd(0); 48],
            window_orders: [0; 48],
            downs: [false; 4096],
            key_orders: [0; 4096],
            next_place: 0,
        }
    }

    /// Notes that thread `t` set the slot at this place, which is above those of all earlier calls of `set`
    /// and `set_key`.
    pub fn set(&mut self, t: Thread, slot: Slot, w: Hwnd, place: u32)
        requires thread { (1 ≤ t.0) × (t.0 ≤ self.old.threads) }
        requires later { self.old.next_place ≤ place }
        ensures { self.new ≡ with_window self.old t slot w place }
    {
        let cell = 16 * row_of(slot) + usize::from(t.0);
        self.windows[cell] = w;
        self.window_orders[cell] = u64::from(place) + 1;
        self.next_place = u64::from(place) + 1;
    }

    /// The window that the member of the thread's group set that set the slot last, or 0 where none did.
    pub fn value(&self, t: Thread, slot: Slot) -> Hwnd
        requires { (1 ≤ t.0) × (t.0 ≤ self.now.threads) }
        ensures { result ≡ window_of self.now t slot }
    {
        let row = row_of(slot);
        let setter = latest(&self.window_orders, row, self.groups[usize::from(t.0)]);
        self.windows[16 * row + setter]
    }

    /// Attaches the threads to each other. Error 87 comes exactly where they are one thread or attached
    /// already (Microsoft, AttachThreadInput function).
    pub fn attach(&mut self, a: Thread, b: Thread) -> Result<(), Code>
        requires first { (1 ≤ a.0) × (a.0 ≤ self.old.threads) }
        requires second { (1 ≤ b.0) × (b.0 ≤ self.old.threads) }
        ensures answer { result ≡ (if (a.0 == b.0) || has_link self.old.links a.0 b.0 then Err (Code.Win 87) else Ok tt) }
        ensures ok { OnOk result (SetsPair self.old.links self.new.links a.0 b.0 1) }
        ensures rest { self.new ≡ with_links self.old self.new.links self.new.groups }
        ensures err { OnErr result (self.new ≡ self.old) }
    {
        let (from, to) = (usize::from(a.0), usize::from(b.0));
        if from == to || has(self.links[from], to) {
            return Err(Code::Win(WRONG_PARAMETER));
        }
        let links = with_pair(&self.links, from, to);
        self.groups = groups_of(&links);
        self.links = links;
        Ok(())
    }

    /// Undoes an attachment of the two, made in either order. Error 87 comes exactly where they aren't
    /// attached to each other directly (Microsoft, AttachThreadInput function).
    pub fn detach(&mut self, a: Thread, b: Thread) -> Result<(), Code>
        requires first { (1 ≤ a.0) × (a.0 ≤ self.old.threads) }
        requires second { (1 ≤ b.0) × (b.0 ≤ self.old.threads) }
        ensures answer { result ≡ (if has_link self.old.links a.0 b.0 then Ok tt else Err (Code.Win 87)) }
        ensures ok { OnOk result (SetsPair self.old.links self.new.links a.0 b.0 0) }
        ensures rest { self.new ≡ with_links self.old self.new.links self.new.groups }
        ensures err { OnErr result (self.new ≡ self.old) }
    {
        let (from, to) = (usize::from(a.0), usize::from(b.0));
        if !has(self.links[from], to) {
            return Err(Code::Win(WRONG_PARAMETER));
        }
        let links = without_pair(&self.links, from, to);
        self.groups = groups_of(&links);
        self.links = links;
        Ok(())
    }

    /// Undoes all attachments of a thread.
    pub fn end(&mut self, t: Thread)
        requires { (1 ≤ t.0) × (t.0 ≤ self.old.threads) }
        ensures links { EndsLinks self.old.links self.new.links t.0 }
        ensures rest { self.new ≡ with_links self.old self.new.links self.new.groups }
    {
        let links = without_thread(&self.links, usize::from(t.0));
        self.groups = groups_of(&links);
        self.links = links;
    }

    /// Whether the two threads are attached to each other.
    pub fn is_attached(&self, a: Thread, b: Thread) -> bool
        requires first { a.0 < 16 }
        requires second { b.0 < 16 }
        ensures { result ≡ has_link self.now.links a.0 b.0 }
    {
        has(self.links[usize::from(a.0)], usize::from(b.0))
    }

    /// The threads that attachments reach from `t`, itself among them: bit u for thread u.
    pub fn group(&self, t: Thread) -> u16
        requires { (1 ≤ t.0) × (t.0 ≤ self.now.threads) }
        ensures value { result ≡ group_of self.now t }
        ensures members { (u : ℕ) → u < 16 → (bit_at result u ≡ 1) ↔ Reaches (Joins self.now.links) t.0 u }
        ensures mutual { IsMutual self.now.links }
    {
        self.groups[usize::from(t.0)]
    }

    /// Notes that thread `t` took a message that the key went down or up, at this place, which is above those
    /// of all earlier calls of `set` and `set_key`.
    pub fn set_key(&mut self, t: Thread, key: u8, down: bool, place: u32)
        requires thread { (1 ≤ t.0) × (t.0 ≤ self.old.threads) }
        requires later { self.old.next_place ≤ place }
        ensures { self.new ≡ with_key self.old t key down place }
    {
        let cell = 16 * usize::from(key) + usize::from(t.0);
        self.downs[cell] = down;
        self.key_orders[cell] = u64::from(place) + 1;
        self.next_place = u64::from(place) + 1;
    }

    /// Whether the key is down: whether the member of the thread's group that took a message of the key last
    /// took one that it went down (Microsoft, GetKeyState function).
    pub fn key_down(&self, t: Thread, key: u8) -> bool
        requires { (1 ≤ t.0) × (t.0 ≤ self.now.threads) }
        ensures value { result ≡ is_down self.now t key }
        ensures members { (u : ℕ) → u < 16 → (bit_at (group_of self.now t) u ≡ 1) ↔ Reaches (Joins self.now.links) t.0 u }
    {
        let row = usize::from(key);
        let setter = latest(&self.key_orders, row, self.groups[usize::from(t.0)]);
        self.downs[16 * row + setter]
    }
}

/// The row of a slot.
fn row_of(slot: Slot) -> usize
    ensures row { result ≡ row_number slot }
    ensures within { result < 3 }
{
    match slot {
        Slot::Focus => 0,
        Slot::Active => 1,
        Slot::Capture => 2,
    }
}
