//! A desk with as many seats as there can be actors: the clock and fifteen threads, each seat in a thread of its own. What is
//! printed doesn't depend on who moves when.

ghost use Rattle.std.specs.Prelude.{◌≡◌, ◌≤◌, length, All, IfOk};
ghost use Rattle.std.specs.Thread.{IsSend, IsSync};
ghost use Rattle.user_desk.specs.Desks.{IsDeskSeat};
ghost use Rattle.user_model.specs.Legal.{IsLawful};

use crate::desk::opening::open_for_fifteen;
use crate::desk::yields::yield_often;
use std::alloc::{AllocError, Global};
use std::io::Print;
use std::sync::Wait;
use std::thread::{Threads, join};
use user_desk::{Desk, DeskSeat};
use user_model::Machine;

/// Each seat makes its calls in a thread of its own, beside the others, and all come back.
fn all_yield<M: Machine + Send + Sync, R: Threads + Wait + Sync>(
    rt: &R,
    desk: &Desk<M>,
    mut seats: Vec<DeskSeat<M>>,
) -> Result<Vec<DeskSeat<M>>, AllocError>
    requires { All (IsDeskSeat desk.now) seats.items }
    ensures { IfOk result (λ back. All (IsDeskSeat desk.now) back.items) }
{
    let Some(seat) = seats.pop() else {
        return Ok(seats);
    };
    let (mine, others) = join(
        rt,
        || -> Result<DeskSeat<M>, AllocError>
            requires { IsSync R.row × IsDeskSeat desk.now seat }
            ensures { IfOk result (λ s. IsDeskSeat desk.entry.now s) }
        { yield_often(rt, desk, seat) },
        || -> Result<Vec<DeskSeat<M>>, AllocError>
            requires { IsSync R.row × IsSend M.row × IsSync M.row × All (IsDeskSeat desk.now) seats.items }
            ensures { IfOk result (λ back. All (IsDeskSeat desk.entry.now) back.items) }
        { all_yield(rt, desk, seats) },
    );
    let (mine, mut back) = (mine?, others?);
    back.push(mine)?;
    Ok(back)
}

/// Closes the desk, and tells how many entries there are.
fn close<M: Machine + Drop>(
    rt: &impl Print,
    desk: Desk<M>,
    seats: Vec<DeskSeat<M>>,
) -> anyhow::Result<()>
    requires { All (IsDeskSeat desk) seats.items }
{
    match desk.close(seats) {
        Ok(machine) => println!(rt; "{} entries of sixteen seats", machine.history().len())?,
        Err(_) => anyhow::bail!("a seat of sixteen is missing"),
    }
    Ok(())
}

/// Opens a desk of sixteen seats at a machine with a legal past, lets all of them make their calls, and closes it.
pub fn run_desk<M: Machine + Send + Sync + Drop, R: Threads + Wait + Sync + Print>(
    rt: &R,
    alloc: Global,
    machine: M,
) -> anyhow::Result<()>
    requires legal { (length (M.past machine) ≤ 2097152) × IsLawful (M.setup machine) (M.past machine) }
{
    let (desk, seats) = open_for_fifteen(alloc, machine)?;
    let seats = all_yield(rt, &desk, seats)?;
    close(rt, desk, seats)
}
