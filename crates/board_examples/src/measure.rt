//! Measures how many reads there are in a second beside a writer that publishes, against statuses that are asked for at the desk, and
//! how long a publish takes, against a status. It prints numbers of this machine, and nothing that is compared.

ghost use Rattle.std.specs.Prelude.{◌≡◌, ◌≤◌, ◌<◌, length, All, IfOk};
ghost use Rattle.std.specs.Thread.{IsSync, IsSend};
ghost use Rattle.user_desk.specs.Desks.{IsDeskSeat};
ghost use Rattle.user_model.specs.Legal.{IsLawful};
ghost use Rattle.board_examples.specs.Owners.{IsOwner};

use crate::opening::open;
use crate::owner::publish;
use status_board::{BoardReader, BoardWriter};
use std::alloc::{AllocError, Global};
use std::io::Print;
use std::sync::Wait;
use std::thread::{Threads, join, map_vec};
use std::time::{Clock, Instant};
use user_core::User;
use user_desk::{Desk, DeskSeat};
use user_model::{Call, Machine, Setup};

/// How often the writer publishes, and how often each seat asks.
const TIMES: u32 = 100_000;

/// The bits of all kinds of messages.
const ALL_KINDS: u64 = 127;

/// Publishes so often.
fn publish_often<M: Machine, R: Wait>(
    rt: &R,
    desk: &Desk<M>,
    mut seat: DeskSeat<M>,
    mut writer: BoardWriter,
) -> Result<(), AllocError>
    requires { IsOwner desk.now seat writer }
{
    for _ in 0..TIMES {
        publish(rt, desk, &mut seat, &mut writer)?;
    }
    writer.close(rt);
    Ok(())
}

/// Asks for the status at the desk so often.
fn ask_often<M: Machine, R: Wait>(
    rt: &R,
    desk: &Desk<M>,
    mut seat: DeskSeat<M>,
) -> Result<(), AllocError>
    requires { IsDeskSeat desk.now seat }
{
    for _ in 0..TIMES {
        desk.call(rt, &mut seat, Call::Status(ALL_KINDS))?;
    }
    Ok(())
}

/// Reads until the last publish was read: how many reads that took.
fn read_often(mut reader: BoardReader) -> u64 {
    for reads in 1..u64::MAX {
        if reader.read().number >= TIMES {
            return reads;
        }
    }
    u64::MAX
}

/// Reads of all readers beside the writer, each in a thread of its own: how many they were.
fn read_beside<M: Machine + Send + Sync, R: Threads + Wait + Sync>(
    rt: &R,
    desk: &Desk<M>,
    seat: DeskSeat<M>,
    writer: BoardWriter,
    readers: Vec<BoardReader>,
) -> Result<u64, AllocError>
    requires { IsOwner desk.now seat writer }
{
    let (published, counts) = join(
        rt,
        || -> Result<(), AllocError>
            requires { IsSync R.row × IsOwner desk.now seat writer }
        { publish_often(rt, desk, seat, writer) },
        || map_vec(rt, readers, &|reader| read_often(reader)),
    );
    published?;
    Ok(
        counts?
            .iter()
            .fold(0u64, |sum, count| sum.saturating_add(*count)),
    )
}

/// How many there are in a second, where so many took so many microseconds.
fn in_a_second(count: u64, micros: u64) -> u64 {
    count.saturating_mul(1_000_000) / micros.max(1)
}

/// The microseconds since then.
fn micros_since(rt: &impl Clock, start: Instant) -> anyhow::Result<u64> {
    let micros = start.elapsed(rt)?.as_micros();
    Ok(u64::try_from(micros).unwrap_or(u64::MAX))
}

/// Prints how many reads there are in a second by so many readers, beside a writer of its own.
fn tell_reads<M: Machine + Send + Sync + Drop, R: Threads + Wait + Sync + Print + Clock>(
    rt: &R,
    alloc: Global,
    machine: M,
    readers: u32,
) -> anyhow::Result<()>
    requires some { 0 < readers }
    requires legal { (length (M.past machine) ≤ 2097152) × IsLawful (M.setup machine) (M.past machine) }
{
    let (desk, mut seats) = open(alloc, machine, 15)?;
    let seat = seats.pop().unwrap();
    let (writer, made) = BoardWriter::open(alloc, &seat, readers)?;
    let start = Instant::now(rt)?;
    let count = read_beside(rt, &desk, seat, writer, made)?;
    let speed = in_a_second(count, micros_since(rt, start)?);
    println!(rt; "{readers} readers: {speed} reads in a second beside {TIMES} publishes")?;
    Ok(())
}

/// Each of these seats asks, in a thread of its own.
fn ask_beside<M: Machine + Send + Sync, R: Threads + Wait + Sync>(
    rt: &R,
    desk: &Desk<M>,
    seats: Vec<DeskSeat<M>>,
) -> Result<(), AllocError>
    requires { All (IsDeskSeat desk.now) seats.items }
{
    let asked = map_vec(
        rt,
        seats,
        &|seat: DeskSeat<M>| -> Result<(), AllocError>
            requires { IsSync R.row × IsDeskSeat desk.now seat }
        { ask_often(rt, desk, seat) },
    )?;
    for one in asked {
        one?;
    }
    Ok(())
}

/// The last seats, so many of them.
fn last<M: Machine>(
    alloc: Global,
    desk: &Desk<M>,
    mut seats: Vec<DeskSeat<M>>,
    count: u32,
) -> Result<Vec<DeskSeat<M>>, AllocError>
    requires { All (IsDeskSeat desk.now) seats.items }
    ensures { IfOk result (λ some. All (IsDeskSeat desk.now) some.items) }
{
    let mut some = Vec::new(alloc);
    for _ in 0..count {
        if let Some(seat) = seats.pop() {
            some.push(seat)?;
        }
    }
    Ok(some)
}

/// Prints how many statuses there are in a second by so many seats at the desk.
fn tell_statuses<M: Machine + Send + Sync + Drop, R: Threads + Wait + Sync + Print + Clock>(
    rt: &R,
    alloc: Global,
    machine: M,
    count: u32,
) -> anyhow::Result<()>
    requires legal { (length (M.past machine) ≤ 2097152) × IsLawful (M.setup machine) (M.past machine) }
{
    let (desk, seats) = open(alloc, machine, 15)?;
    let seats = last(alloc, &desk, seats, count)?;
    let start = Instant::now(rt)?;
    ask_beside(rt, &desk, seats)?;
    let all = u64::from(count).saturating_mul(u64::from(TIMES));
    let speed = in_a_second(all, micros_since(rt, start)?);
    println!(rt; "{count} seats: {speed} statuses in a second at the desk")?;
    Ok(())
}

/// Prints how long so many publishes take with nobody beside, and so many statuses.
fn tell_times<M: Machine + Drop, R: Wait + Print + Clock>(
    rt: &R,
    alloc: Global,
    machine: M,
) -> anyhow::Result<()>
    requires legal { (length (M.past machine) ≤ 2097152) × IsLawful (M.setup machine) (M.past machine) }
{
    let (desk, mut seats) = open(alloc, machine, 15)?;
    let first = seats.pop().unwrap();
    let second = seats.pop().unwrap();
    let (writer, _readers) = BoardWriter::open(alloc, &first, 1)?;
    let start = Instant::now(rt)?;
    publish_often(rt, &desk, first, writer)?;
    let published = micros_since(rt, start)?;
    let start = Instant::now(rt)?;
    ask_often(rt, &desk, second)?;
    let asked = micros_since(rt, start)?;
    println!(rt; "{TIMES} publishes: {published} us, {TIMES} statuses: {asked} us")?;
    Ok(())
}

/// Reads by so many readers, and statuses by as many seats, each at a machine of its own for fifteen threads.
fn tell_both<R: Threads + Wait + Sync + Print + Clock>(
    rt: &R,
    alloc: Global,
    count: u32,
) -> anyhow::Result<()>
    requires { 0 < count }
{
    let setup = Setup::new(15, 8, 4);
    tell_reads(rt, alloc, User::new(alloc, setup)?, count)?;
    tell_statuses(rt, alloc, User::new(alloc, setup)?, count)
}

/// Measures, each time at a machine of its own for fifteen threads.
pub fn run<R: Threads + Wait + Sync + Print + Clock>(rt: &R, alloc: Global) -> anyhow::Result<()> {
    tell_both(rt, alloc, 1)?;
    tell_both(rt, alloc, 3)?;
    tell_both(rt, alloc, 15)?;
    for _ in 0..3 {
        let machine = User::new(alloc, Setup::new(15, 8, 4))?;
        tell_times(rt, alloc, machine)?;
    }
    Ok(())
}
