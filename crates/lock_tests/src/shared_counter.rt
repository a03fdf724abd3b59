//! The lock over a counter with a journal, by one thread and by two.
ghost use Rattle.std.specs.Prelude.{◌≡◌, ◌≤◌, [], ◌∷◌, length, IfOk, IfSome};
ghost use Rattle.turn_lock.specs.Seats.{IsSeatOf, new_seats};

use crate::counter::{Counter, Told, Visit};
use std::alloc::{AllocError, Global};
use std::sync::Wait;
use std::test::Fail;
use std::thread::join;
use turn_lock::{TurnLock, TurnSeat};

type CounterSeat = TurnSeat<Counter>;

// The two seats of a lock that has two.
fn pair(lock: &TurnLock<Counter>, mut seats: Vec<CounterSeat>) -> (CounterSeat, CounterSeat)
    requires { seats.items ≡ new_seats lock.now 2 }
    ensures first { IsSeatOf lock.now result.0 × (result.0.number ≡ 0) }
    ensures second { IsSeatOf lock.now result.1 × (result.1.number ≡ 1) }
{
    let second = seats.pop().unwrap();
    let first = seats.pop().unwrap();
    (first, second)
}

// Closes the lock with two of its seats.
fn close_both(
    alloc: Global,
    lock: TurnLock<Counter>,
    first: CounterSeat,
    second: CounterSeat,
) -> Option<Counter>
    requires { IsSeatOf lock first × IsSeatOf lock second }
{
    let mut seats = Vec::new(alloc);
    seats.push(first).ok()?;
    seats.push(second).ok()?;
    lock.close(seats).ok()
}

// A hundred visits of one seat.
fn visit_often<R: Wait>(
    rt: &R,
    lock: &TurnLock<Counter>,
    mut seat: CounterSeat,
    number: u64,
) -> Result<CounterSeat, AllocError>
    requires { IsSeatOf lock.now seat × (seat.number ≡ number) }
    ensures { IfOk result (λ s. IsSeatOf lock.now s) }
{
    for turn in 0..100 {
        let visit = Visit {
            seat: number,
            turn,
            after: 0,
        };
        lock.run(rt, &mut seat, visit)?;
    }
    Ok(seat)
}

// The turns of a seat's visits, in order.
fn turns_are_in_order(counter: &Counter, seat: u64) -> bool {
    let mut next = 0u64;
    for (visit, _) in counter.journal.iter() {
        if visit.seat == seat {
            if visit.turn != next {
                return false;
            }
            next = next.wrapping_add(1);
        }
    }
    next == 100
}

#[test]
fn two_threads_share_one_history(rt: HostRuntime) -> Result<(), Fail> {
    let opened = TurnLock::new(rt.alloc(), Counter::new(rt.alloc(), 1000), 2);
    let Ok((lock, seats)) = opened else {
        panic!(&rt; "no memory")
    };
    let (first, second) = pair(&lock, seats);
    let (a, b) = join(
        &rt,
        || -> Result<CounterSeat, AllocError>
            requires { IsSeatOf lock first × (first.number ≡ 0) }
            ensures { IfOk result (λ s. IsSeatOf lock s) }
        { visit_often(&rt, &lock, first, 0) },
        || -> Result<CounterSeat, AllocError>
            requires { IsSeatOf lock second × (second.number ≡ 1) }
            ensures { IfOk result (λ s. IsSeatOf lock s) }
        { visit_often(&rt, &lock, second, 1) },
    );
    let counter = close_both(rt.alloc(), lock, a?, b?).expect(&rt, "all seats are back");
    assert!(rt; counter.journal.len() == 200);
    assert!(rt; turns_are_in_order(&counter, 0) && turns_are_in_order(&counter, 1));
    Ok(())
}

// Tries to close the lock with one of its two seats, which come back.
fn close_too_early(
    alloc: Global,
    lock: TurnLock<Counter>,
    seat: CounterSeat,
) -> Option<(TurnLock<Counter>, CounterSeat)>
    requires { IsSeatOf lock seat }
    ensures { IfSome result (λ r. (r.0 ≡ lock) × (r.1 ≡ seat)) }
{
    let mut seats = Vec::new(alloc);
    seats.push(seat).ok()?;
    match lock.close(seats) {
        Ok(_) => None,
        Err((lock, mut seats)) => {
            let seat = seats.pop()?;
            Some((lock, seat))
        }
    }
}

// A call that may have to wait for this many visits.
fn ask<R: Wait>(
    rt: &R,
    lock: &TurnLock<Counter>,
    seat: &mut CounterSeat,
    number: u64,
    after: u64,
) -> Result<Option<Told>, AllocError>
    requires { IsSeatOf lock.now seat.old × (seat.old.number ≡ number) }
    ensures { IsSeatOf lock.now seat.new × (seat.new.number ≡ number) }
{
    let visit = Visit {
        seat: number,
        turn: 0,
        after,
    };
    lock.run_if(rt, seat, visit)
}

// A call that waits for none.
fn visit<R: Wait>(
    rt: &R,
    lock: &TurnLock<Counter>,
    seat: &mut CounterSeat,
    number: u64,
) -> Result<Told, AllocError>
    requires { IsSeatOf lock.now seat.old × (seat.old.number ≡ number) }
    ensures { IsSeatOf lock.now seat.new × (seat.new.number ≡ number) }
{
    let visit = Visit {
        seat: number,
        turn: 0,
        after: 0,
    };
    lock.run(rt, seat, visit)
}

// Whether a call waits until a visit came before it, and a call is refused where the history is full.
fn waits_and_stays<R: Wait>(
    rt: &R,
    lock: &TurnLock<Counter>,
    first: &mut CounterSeat,
    second: &mut CounterSeat,
) -> Result<bool, AllocError>
    requires first { IsSeatOf lock.now first.old × (first.old.number ≡ 0) }
    requires second { IsSeatOf lock.now second.old × (second.old.number ≡ 1) }
    ensures first { IsSeatOf lock.now first.new }
    ensures second { IsSeatOf lock.now second.new }
{
    let early = ask(rt, lock, second, 1, 1)?;
    let plain = visit(rt, lock, second, 1)?;
    let late = ask(rt, lock, second, 1, 1)?;
    let refused = visit(rt, lock, first, 0)?;
    let told = (early, plain, late, refused);
    Ok(told == (None, Told::Before(0), Some(Told::Before(1)), Told::Full))
}

// How long the history is in the end, where the lock isn't closed with one of its two seats.
fn closed_late(
    alloc: Global,
    lock: TurnLock<Counter>,
    first: CounterSeat,
    second: CounterSeat,
) -> Option<usize>
    requires { IsSeatOf lock first × IsSeatOf lock second }
{
    let (lock, second) = close_too_early(alloc, lock, second)?;
    let counter = close_both(alloc, lock, first, second)?;
    Some(counter.journal.len())
}

#[test]
fn a_call_waits_and_a_full_history_stays(rt: HostRuntime) -> Result<(), Fail> {
    let opened = TurnLock::new(rt.alloc(), Counter::new(rt.alloc(), 2), 2);
    let Ok((lock, seats)) = opened else {
        panic!(&rt; "no memory")
    };
    let (mut first, mut second) = pair(&lock, seats);
    assert!(rt; waits_and_stays(&rt, &lock, &mut first, &mut second)?);
    assert!(rt; closed_late(rt.alloc(), lock, first, second) == Some(2));
    Ok(())
}
