//! Where seats wait for their turn. Nothing here belongs to the rule of the lock: whoever is woken looks whether its
//! turn has come.

ghost use Rattle.std.specs.Prelude.{◌≡◌, ◌⊎◌, ◌+◌, ◌<◌, length, IfOk};

use crate::journaled::Journaled;
use crate::lock::Top;
use std::alloc::{AllocError, Global};
use std::hint;
use std::sync::Wait;
use std::sync::atomic::{AtomicU64, Ordering};
use std::time::Duration;

/// How often a seat whose turn is next looks again before it sleeps: some 0.4 milliseconds, many times what a sleep and a
/// waking cost. It never gives its processor away awake: on a busy machine that would cost a whole slice of time.
const SPINS: u32 = 2000;

/// How many hints to the processor there are between two looks of a seat that has a ticket.
const PAUSES: u32 = 4;

/// How many hints there are between two looks of a seat that holds its ticket back, one look after another: some 50
/// microseconds in all.
const LULLS: [u32; 6] = [16, 32, 64, 128, 256, 512];

/// How often a seat that holds its ticket back sleeps before it draws one all the same.
const ROUNDS: u32 = 64;

/// How long a sleep is at most, in milliseconds. A seat is woken where its turn comes near, so this matters only where a wake is lost.
const LONGEST: u64 = 50;

/// Where the seats of a lock sleep: those that have a ticket by its bell, and those that hold theirs back at the gate.
#[derive(Drop)]
pub(crate) struct Hall {
    bells: Vec<Bell>,
    gate: Gate,
}

impl Hall {
    /// A hall with a bell for each seat of a lock.
    pub(crate) fn new(alloc: Global, seats: u32) -> Result<Hall, AllocError>
        ensures { IfOk result (λ hall. length hall.bells.items ≡ seats) }
    {
        let mut bells = Vec::new(alloc);
        for _ in 0..seats {
            bells.push(Bell::new())?;
        }
        Ok(Hall {
            bells,
            gate: Gate::new(),
        })
    }

    /// The bell of a ticket. Seats that wait at one time have tickets in a row, so they have bells of their own.
    fn bell_of(&self, ticket: u64) -> Option<&Bell> {
        let count = (self.bells.len() as u64).max(1);
        self.bells.get((ticket % count) as usize)
    }
}

/// Where seats sleep that hold their tickets back: how often one was called in, and 1 where one may sleep here.
#[derive(Drop)]
struct Gate {
    calls: AtomicU64,
    asked: AtomicU64,
}

impl Gate {
    fn new() -> Gate {
        Gate {
            calls: AtomicU64::new(0),
            asked: AtomicU64::new(0),
        }
    }

    /// Asks to be called in when no seat has a ticket any more.
    fn ask(&self) {
        self.asked.store(1, Ordering::SeqCst);
    }

    /// Wakes one seat that sleeps here, where one has asked.
    fn open(&self) {
        if self.asked.load(Ordering::SeqCst) == 0 {
            return;
        }
        self.asked.store(0, Ordering::SeqCst);
        self.calls.fetch_add(1, Ordering::SeqCst);
        self.calls.wake_one();
    }

    /// Sleeps until the gate is opened, unless no seat has a ticket now.
    fn sleep<S: Journaled, R: Wait>(&self, rt: &R, top: &Top<S>)
        requires { 1 < top.now.table_id.words }
    {
        let calls = self.calls.load(Ordering::SeqCst);
        self.ask();
        // Whoever passes the turn on sees that it was asked, or the sleeper sees here that it was passed on.
        if top.peek(0) != top.peek(1) {
            let longest = Duration::from_millis(LONGEST);
            self.calls
                .park_timeout(rt, (calls & 0xffff_ffff) as u32, longest);
        }
    }
}

/// A place where a seat sleeps: how often it was rung, and how many sleep there.
#[derive(Drop)]
pub(crate) struct Bell {
    rings: AtomicU64,
    sleepers: AtomicU64,
}

impl Bell {
    fn new() -> Bell {
        Bell {
            rings: AtomicU64::new(0),
            sleepers: AtomicU64::new(0),
        }
    }

    /// Wakes who sleeps here.
    fn ring(&self) {
        if self.sleepers.load(Ordering::SeqCst) > 0 {
            self.rings.fetch_add(1, Ordering::SeqCst);
            self.rings.wake_all();
        }
    }
}

/// Hints to the processor that the thread spins.
fn pause(times: u32) {
    for _ in 0..times {
        hint::spin_loop();
    }
}

/// Spins until no seat has a ticket, or for a while.
fn spin_until_free<S: Journaled>(top: &Top<S>) -> bool
    requires { 1 < top.now.table_id.words }
{
    for lull in LULLS {
        if top.peek(0) == top.peek(1) {
            return true;
        }
        pause(lull);
    }
    false
}

/// Holds the seat's ticket back while other seats have theirs, but not for ever. Meanwhile a thread that makes call after
/// call keeps the state in its own cache, and no turn has to come to a thread that doesn't run.
pub(crate) fn hold_back<S: Journaled, R: Wait>(rt: &R, top: &Top<S>, hall: &Hall)
    requires { 1 < top.now.table_id.words }
{
    if spin_until_free(top) {
        return;
    }
    for _ in 0..ROUNDS {
        hall.gate.sleep(rt, top);
        if spin_until_free(top) {
            break;
        }
    }
    // Others may still sleep at the gate.
    hall.gate.ask();
}

/// Wakes those who may go on: the seat whose turn has come and the one whose turn is next, or where no seat has a ticket
/// one that holds its own back.
pub(crate) fn call_next<S: Journaled>(top: &Top<S>, hall: &Hall)
    requires { 1 < top.now.table_id.words }
{
    let served = top.peek(1);
    // A seat that draws its ticket later looks after the turn was passed on.
    if top.peek(0) == served {
        hall.gate.open();
        return;
    }
    for ticket in [served, served.wrapping_add(1)] {
        if let Some(bell) = hall.bell_of(ticket) {
            bell.ring();
        }
    }
}

/// Waits a little before the next look. The seat with this ticket has looked so often since it slept last; `served` is
/// the ticket that it saw. It spins where its turn is next, and then sleeps; where more seats stand before it, it sleeps at once.
/// Answers how often it has looked since then.
pub(crate) fn wait_a_little<S: Journaled, R: Wait>(
    rt: &R,
    top: &Top<S>,
    hall: &Hall,
    ticket: u64,
    served: u64,
    looks: u32,
) -> u32
    requires { 1 < top.now.table_id.words }
    ensures { (result ≡ looks + 1) ⊎ (result ≡ 0) }
{
    let ahead = ticket.wrapping_sub(served);
    if ahead == 1 && looks < SPINS {
        pause(PAUSES);
        return looks + 1;
    }
    sleep(rt, top, hall, ticket, ahead);
    0
}

/// Sleeps until the turn comes near.
fn sleep<S: Journaled, R: Wait>(rt: &R, top: &Top<S>, hall: &Hall, ticket: u64, ahead: u64)
    requires { 1 < top.now.table_id.words }
{
    let Some(bell) = hall.bell_of(ticket) else {
        return;
    };
    let rung = bell.rings.load(Ordering::SeqCst);
    bell.sleepers.fetch_add(1, Ordering::SeqCst);
    // Whoever passes the turn on sees the sleeper, or the sleeper sees here that it was passed on.
    let now = ticket.wrapping_sub(top.peek(1));
    if now == ahead || now > 1 {
        let longest = Duration::from_millis(LONGEST);
        bell.rings
            .park_timeout(rt, (rung & 0xffff_ffff) as u32, longest);
    }
    bell.sleepers.fetch_sub(1, Ordering::SeqCst);
}
