//! A monitor shows how many kinds of messages wait for a worker, while both go on, each in a thread of its own. What is printed doesn't
//! depend on who moves when.

ghost use Rattle.std.specs.Prelude.{◌≡◌, ◌≤◌, length, IfOk};
ghost use Rattle.std.specs.Thread.{IsSync};
ghost use Rattle.user_desk.specs.Desks.{IsDeskSeat};
ghost use Rattle.user_model.specs.Legal.{IsLawful};
ghost use Rattle.board_examples.specs.Owners.{IsOwner};

use crate::opening::{open, two};
use crate::owner::{make, publish};
use status_board::{BoardReader, BoardWriter, Shown};
use std::alloc::{AllocError, Global};
use std::io::{self, Print};
use std::sync::Wait;
use std::thread::{Threads, join};
use user_desk::{Desk, DeskSeat};
use user_model::{Call, Machine};

/// How many messages wait for the worker at first. It publishes once before it takes the first one, and once after each.
const MESSAGES: u32 = 100;

/// Posts the messages to the worker.
fn post_all<M: Machine, R: Wait>(
    rt: &R,
    desk: &Desk<M>,
    seat: &mut DeskSeat<M>,
) -> Result<(), AllocError>
    requires { IsDeskSeat desk.now seat.old }
    ensures { IsDeskSeat desk.now seat.new }
{
    for message in 0..MESSAGES {
        desk.call(rt, seat, Call::PostThread(1, 1024, u64::from(message), 0))?;
    }
    Ok(())
}

/// The part of the worker: it takes one message after the other, and publishes its status after each.
fn work<M: Machine, R: Wait>(
    rt: &R,
    desk: &Desk<M>,
    mut seat: DeskSeat<M>,
    mut writer: BoardWriter,
) -> Result<(), AllocError>
    requires { IsOwner desk.now seat writer }
{
    for _ in 0..MESSAGES {
        make(rt, desk, &mut seat, &writer, Call::Get(0, 0, 0))?;
        publish(rt, desk, &mut seat, &mut writer)?;
    }
    writer.close(rt);
    Ok(())
}

/// How many kinds of messages are there by a status.
fn kinds(shown: Shown) -> u32 {
    (shown.value >> 16).count_ones()
}

/// The part of the monitor: it reads until the worker has published for the last time, and prints how many kinds of messages wait, each
/// time that this changes. It has no handle by which it could wait.
fn watch(rt: &impl Print, mut reader: BoardReader, mut last: u32) -> io::Result<()> {
    for _ in 0..u64::MAX {
        let shown = reader.read();
        if kinds(shown) != last {
            last = kinds(shown);
            println!(rt; "kinds that wait: {last}")?;
        }
        if shown.number > MESSAGES {
            break;
        }
    }
    Ok(())
}

/// Worker and monitor beside each other.
fn both<M: Machine + Send + Sync, R: Threads + Wait + Sync + Print>(
    rt: &R,
    desk: &Desk<M>,
    seat: DeskSeat<M>,
    writer: BoardWriter,
    reader: BoardReader,
    last: u32,
) -> anyhow::Result<()>
    requires { IsOwner desk.now seat writer }
{
    let (worked, watched) = join(
        rt,
        || -> Result<(), AllocError>
            requires { IsSync R.row × IsOwner desk.now seat writer }
        { work(rt, desk, seat, writer) },
        || watch(rt, reader, last),
    );
    worked?;
    watched?;
    Ok(())
}

/// Posts the messages, publishes for the first time, and lets both go on.
fn show<M: Machine + Send + Sync, R: Threads + Wait + Sync + Print>(
    rt: &R,
    alloc: Global,
    desk: &Desk<M>,
    mut seat: DeskSeat<M>,
    mut other: DeskSeat<M>,
) -> anyhow::Result<()>
    requires worker { IsDeskSeat desk.now seat }
    requires other { IsDeskSeat desk.now other }
{
    post_all(rt, desk, &mut other)?;
    let (mut writer, mut readers) = BoardWriter::open(alloc, &seat, 1)?;
    publish(rt, desk, &mut seat, &mut writer)?;
    let mut reader = readers.pop().unwrap();
    reader.learn(writer.tell());
    let last = kinds(reader.read());
    println!(rt; "kinds that wait: {last}")?;
    both(rt, desk, seat, writer, reader, last)
}

/// Opens a desk for two threads at the machine: the first is the worker, and the second posts.
pub fn run<M: Machine + Send + Sync + Drop, R: Threads + Wait + Sync + Print>(
    rt: &R,
    alloc: Global,
    machine: M,
) -> anyhow::Result<()>
    requires legal { (length (M.past machine) ≤ 2097152) × IsLawful (M.setup machine) (M.past machine) }
{
    let (desk, seats) = open(alloc, machine, 2)?;
    let (worker, other) = two(&desk, seats);
    show(rt, alloc, &desk, worker, other)
}
