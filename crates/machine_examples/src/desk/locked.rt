//! The lock below a desk, over a machine.

ghost use Rattle.std.specs.Prelude.{◌≡◌, IfOk, IfSome};
ghost use Rattle.turn_lock.specs.Seats.{IsSeatOf, new_seats};
ghost use Rattle.user_desk.specs.Journal.{IsLegalLog, said_in};

use std::alloc::{AllocError, Global};
use std::io::Print;
use std::sync::Wait;
use turn_lock::TurnLock;
use user_desk::{DeskSeat, Shared};
use user_model::{Call, Machine};
use win_num::Thread;

type Lock<M> = TurnLock<Shared<M>>;

/// The two seats of a lock that has two.
fn pair<M: Machine>(lock: &Lock<M>, mut seats: Vec<DeskSeat<M>>) -> (DeskSeat<M>, DeskSeat<M>)
    requires { seats.items ≡ new_seats lock.now 2 }
    ensures first { IsSeatOf lock.now result.0 × (result.0.number ≡ 0) }
    ensures second { IsSeatOf lock.now result.1 × (result.1.number ≡ 1) }
{
    let second = seats.pop().unwrap();
    let first = seats.pop().unwrap();
    (first, second)
}

/// Two `yield` calls of thread 1.
fn yield_twice<M: Machine, R: Wait>(
    rt: &R,
    lock: &Lock<M>,
    mut seat: DeskSeat<M>,
) -> Result<DeskSeat<M>, AllocError>
    requires { IsSeatOf lock.now seat × (seat.number ≡ 1) }
    ensures { IfOk result (λ s. IsSeatOf lock.now s) }
{
    lock.run(rt, &mut seat, (Thread(1), Call::Yield))?;
    lock.run_if(rt, &mut seat, (Thread(1), Call::Yield))?;
    Ok(seat)
}

/// Tries to close the lock with one of its two seats, which come back.
fn close_too_early<M: Machine + Drop>(
    alloc: Global,
    lock: Lock<M>,
    seat: DeskSeat<M>,
) -> Option<(Lock<M>, DeskSeat<M>)>
    requires { IsSeatOf lock seat }
    ensures { IfSome result (λ r. (r.0 ≡ lock) × (r.1 ≡ seat)) }
{
    let mut seats = Vec::new(alloc);
    seats.push(seat).ok()?;
    match lock.close(seats) {
        Ok(_) => None,
        Err((lock, mut seats)) => {
            let seat = seats.pop()?;
            Some((lock, seat))
        }
    }
}

/// Closes the lock with both of its seats.
fn close_both<M: Machine + Drop>(
    alloc: Global,
    lock: Lock<M>,
    first: DeskSeat<M>,
    second: DeskSeat<M>,
) -> Option<Shared<M>>
    requires { IsSeatOf lock first × IsSeatOf lock second }
{
    let mut seats = Vec::new(alloc);
    seats.push(first).ok()?;
    seats.push(second).ok()?;
    lock.close(seats).ok()
}

/// A lock over a machine with a legal past, with its two seats.
fn open_lock<M: Machine + Drop>(
    alloc: Global,
    machine: M,
) -> anyhow::Result<(Lock<M>, Vec<DeskSeat<M>>)>
    requires { IsLegalLog (M.setup machine) (said_in (M.past machine)) }
    ensures { IfOk result (λ r. r.1.items ≡ new_seats r.0 2) }
{
    match TurnLock::new(alloc, Shared { machine }, 2) {
        Ok(opened) => Ok(opened),
        Err(_) => anyhow::bail!("no memory for the lock"),
    }
}

/// Closes the lock with one of its two seats, which it refuses, and then with both.
fn close_twice<M: Machine + Drop>(
    alloc: Global,
    lock: Lock<M>,
    first: DeskSeat<M>,
    second: DeskSeat<M>,
) -> Option<Shared<M>>
    requires { IsSeatOf lock first × IsSeatOf lock second }
{
    let (lock, second) = close_too_early(alloc, lock, second)?;
    close_both(alloc, lock, first, second)
}

/// Two calls under the lock; it isn't closed with one of its seats, and gives the machine back for both.
pub fn lock_alone<M: Machine + Drop, R: Wait + Print>(
    rt: &R,
    alloc: Global,
    machine: M,
) -> anyhow::Result<()>
    requires { IsLegalLog (M.setup machine) (said_in (M.past machine)) }
{
    let (lock, seats) = open_lock(alloc, machine)?;
    let (first, second) = pair(&lock, seats);
    let second = yield_twice(rt, &lock, second)?;
    match close_twice(alloc, lock, first, second) {
        Some(shared) => println!(rt; "{} entries under the lock", shared.machine.history().len())?,
        None => anyhow::bail!("the lock wasn't closed with both seats, or was with one"),
    }
    Ok(())
}
