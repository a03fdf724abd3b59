//! Worked answers of a board, at a desk for two threads: the first owns it, and it has one reader.

ghost use Rattle.std.specs.Prelude.{◌≡◌, ◌≤◌, length};
ghost use Rattle.user_desk.specs.Desks.{IsDeskSeat};
ghost use Rattle.user_model.specs.Legal.{IsLawful};
ghost use Rattle.board_examples.specs.Owners.{IsOwner};

use crate::opening::{open, two};
use crate::owner::{make, publish};
use status_board::{BoardReader, BoardWriter};
use std::alloc::Global;
use std::io::Print;
use std::sync::Wait;
use user_desk::{Desk, DeskSeat};
use user_model::{Call, Machine};

/// Prints what a read answers.
fn tell_read(rt: &impl Print, reader: &mut BoardReader) -> anyhow::Result<()>
    ensures { reader.new.board ≡ reader.old.board }
{
    let shown = reader.read();
    println!(rt; "read {} {}", shown.number, shown.value)?;
    Ok(())
}

/// Publishes, and prints what came of it.
fn tell_publish<M: Machine, R: Wait + Print>(
    rt: &R,
    desk: &Desk<M>,
    seat: &mut DeskSeat<M>,
    writer: &mut BoardWriter,
) -> anyhow::Result<()>
    requires { IsOwner desk.now seat.old writer.old }
    ensures owner { IsOwner desk.now seat.new writer.new }
    ensures board { writer.new.board ≡ writer.old.board }
{
    let published = publish(rt, desk, seat, writer)?;
    println!(rt; "publish {published:?}")?;
    Ok(())
}

/// Reads before anything is published, after a post with a note, once more with one, and then without.
fn tell_all<M: Machine, R: Wait + Print>(
    rt: &R,
    desk: &Desk<M>,
    mut seat: DeskSeat<M>,
    mut writer: BoardWriter,
    mut reader: BoardReader,
) -> anyhow::Result<()>
    requires owner { IsOwner desk.now seat writer }
    requires board { reader.board ≡ writer.board }
{
    tell_read(rt, &mut reader)?;
    make(rt, desk, &mut seat, &writer, Call::Post(0, 1025, 0, 0))?;
    tell_publish(rt, desk, &mut seat, &mut writer)?;
    reader.learn(writer.tell());
    tell_read(rt, &mut reader)?;
    tell_publish(rt, desk, &mut seat, &mut writer)?;
    reader.learn(writer.tell());
    tell_read(rt, &mut reader)?;
    tell_publish(rt, desk, &mut seat, &mut writer)?;
    tell_read(rt, &mut reader)?;
    writer.close(rt);
    tell_read(rt, &mut reader)
}

/// A board of the seat's thread, with one reader.
fn tell_board<M: Machine, R: Wait + Print>(
    rt: &R,
    alloc: Global,
    desk: &Desk<M>,
    seat: DeskSeat<M>,
) -> anyhow::Result<()>
    requires { IsDeskSeat desk.now seat }
{
    let (writer, mut readers) = BoardWriter::open(alloc, &seat, 1)?;
    let reader = readers.pop().unwrap();
    tell_all(rt, desk, seat, writer, reader)
}

/// Opens a desk for two threads at the machine, and a board for the first.
pub fn run<M: Machine + Drop, R: Wait + Print>(
    rt: &R,
    alloc: Global,
    machine: M,
) -> anyhow::Result<()>
    requires legal { (length (M.past machine) ≤ 2097152) × IsLawful (M.setup machine) (M.past machine) }
{
    let (desk, seats) = open(alloc, machine, 2)?;
    let (first, _) = two(&desk, seats);
    tell_board(rt, alloc, &desk, first)
}
