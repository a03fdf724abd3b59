//! A reader reads while a seat holds its turn: a machine whose call `yield` ends only once something was read meanwhile. Were a read to
//! wait for a turn, this program would never end.

ghost use Rattle.std.specs.Prelude.{◌≡◌, ◌≤◌, length, IfOk};
ghost use Rattle.std.specs.Thread.{IsSync};
ghost use Rattle.user_desk.specs.Desks.{IsDeskSeat};
ghost use Rattle.user_model.specs.Legal.{IsLawful};
ghost use Rattle.board_examples.specs.Owners.{IsOwner};

use crate::opening::{open, two};
use crate::owner::{make, publish};
use status_board::{BoardReader, BoardWriter, Shown};
use std::alloc::{AllocError, Global};
use std::hint;
use std::io::Print;
use std::sync::atomic::{AtomicU64, Ordering};
use std::sync::{Arc, Wait};
use std::thread::{Threads, join};
use user_desk::{Desk, DeskSeat};
use user_model::{Answer, Call, Entry, Machine, SendCount};
use win_num::Thread;

/// Who has come how far: 1 in `held` once a turn is held, and 1 in `read` once something was read since then.
#[derive(Drop)]
struct Gate {
    held: AtomicU64,
    read: AtomicU64,
}

impl Gate {
    fn new() -> Gate {
        Gate {
            held: AtomicU64::new(0),
            read: AtomicU64::new(0),
        }
    }

    /// Says that a turn is held, and spins until something was read.
    fn hold(&self) {
        self.held.store(1, Ordering::SeqCst);
        spin_until_set(&self.read);
    }

    /// Spins until a turn is held, reads, and lets the turn end.
    fn read_meanwhile(&self, reader: &mut BoardReader) -> Shown {
        spin_until_set(&self.held);
        let shown = reader.read();
        self.read.store(1, Ordering::SeqCst);
        shown
    }
}

/// Spins, asleep nowhere, until another thread has set the word.
fn spin_until_set(word: &AtomicU64) {
    for _ in 0..u64::MAX {
        if word.load(Ordering::SeqCst) == 1 {
            return;
        }
        hint::spin_loop();
    }
}

/// A machine that spins inside of each `yield` until something was read.
#[derive(Drop)]
struct Spinning<M: Machine> {
    machine: M,
    gate: Arc<Gate>,
}

impl<M: Machine> Machine for Spinning<M> {
    ghost setup = { λ s. M.setup s.machine };

    ghost past = { λ s. M.past s.machine };

    fn step(&mut self, who: Thread, call: Call) -> Result<Answer, AllocError> {
        if matches!(call, Call::Yield) {
            self.gate.hold();
        }
        self.machine.step(who, call)
    }

    fn barred(&self, who: Thread) -> bool {
        self.machine.barred(who)
    }

    fn history(&self) -> &[Entry] {
        self.machine.history()
    }

    fn frame(&self, number: u32) -> Option<&[u8]> {
        self.machine.frame(number)
    }

    fn send_count(&self) -> SendCount {
        self.machine.send_count()
    }
}

/// A call of the seat whose turn is held, in one thread, and a read in another: what was read.
fn both<M: Machine + Send + Sync, R: Threads + Wait + Sync>(
    rt: &R,
    desk: &Desk<M>,
    mut seat: DeskSeat<M>,
    gate: &Gate,
    mut reader: BoardReader,
) -> Result<Shown, AllocError>
    requires { IsDeskSeat desk.now seat }
{
    let (called, shown) = join(
        rt,
        || -> Result<Answer, AllocError>
            requires { IsSync R.row × IsDeskSeat desk.now seat }
        { desk.call(rt, &mut seat, Call::Yield) },
        || gate.read_meanwhile(&mut reader),
    );
    called?;
    Ok(shown)
}

/// Publishes the status of a message that waits, and reads it while the turn is held.
fn show<M: Machine + Send + Sync, R: Threads + Wait + Sync + Print>(
    rt: &R,
    alloc: Global,
    desk: &Desk<M>,
    mut seat: DeskSeat<M>,
    gate: &Gate,
) -> anyhow::Result<()>
    requires { IsDeskSeat desk.now seat }
{
    let (mut writer, mut readers) = BoardWriter::open(alloc, &seat, 1)?;
    make(rt, desk, &mut seat, &writer, Call::Post(0, 1025, 0, 0))?;
    publish(rt, desk, &mut seat, &mut writer)?;
    let reader = readers.pop().unwrap();
    let shown = both(rt, desk, seat, gate, reader)?;
    println!(rt;
        "read {} {} while a turn is held",
        shown.number, shown.value
    )?;
    Ok(())
}

/// Opens a desk for two threads at the machine, which spins inside of `yield`.
pub fn run<M: Machine + Send + Sync + Drop, R: Threads + Wait + Sync + Print>(
    rt: &R,
    alloc: Global,
    machine: M,
) -> anyhow::Result<()>
    requires legal { (length (M.past machine) ≤ 2097152) × IsLawful (M.setup machine) (M.past machine) }
{
    let gate = Arc::new(alloc, Gate::new())?;
    let spinning = Spinning {
        machine,
        gate: Arc::try_clone(&gate)?,
    };
    let (desk, seats) = open(alloc, spinning, 2)?;
    let (first, _) = two(&desk, seats);
    show(rt, alloc, &desk, first, &gate)
}
