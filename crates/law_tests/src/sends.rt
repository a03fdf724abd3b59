//! Stories of sends and their counts in worked examples.

ghost use Rattle.std.specs.Prelude.{◌<◌, ◌≤◌};

use std::alloc::{AllocError, Global};
use std::test::Fail;
use user_core::User;
use user_laws::{send_law, sum_law};
use user_model::{Call, Machine, Setup};
use win_num::{Cause, SendId, Thread};

/// A call, and the thread that makes it.
type Step = (u8, Call);

/// A send's number, where it was entered and answered, by places from the first step on, and the cause.
type Told = (u32, Option<u32>, Option<u32>, Option<Cause>);

/// A send that its procedure answered.
macro_rules! by_proc {
    ($number:expr, $entered:expr, $answered:expr) => {
        ($number, Some($entered), Some($answered), Some(Cause::Proc))
    };
}

/// Makes the steps at a machine of so many threads, of which each gets a window first, from 16 on.
fn play(user: &mut User, threads: u8, steps: &[Step]) -> Result<(), AllocError>
    requires { threads ≤ 15 }
{
    user.step(Thread(1), Call::Register(1, 0, 0))?;
    for thread in 0..threads {
        user.step(
            Thread(thread + 1),
            Call::NewWindow(1, 2, 0, 0, 0, 0, 0, 0, 0),
        )?;
    }
    for &(who, call) in steps {
        user.step(Thread(who), call)?;
    }
    Ok(())
}

/// Whether a send is told so, where its machine's first step stands at this place.
fn is_told(user: &User, first: u32, told: &Told) -> bool {
    let (number, entered, answered, cause) = *told;
    let story = send_law(user, SendId(number));
    story.entered_at == entered.map(|place| place.saturating_add(first))
        && story.answered_at == answered.map(|place| place.saturating_add(first))
        && story.cause == cause
}

/// Whether all these sends are told so after the steps, and no counts, since a thread still runs.
fn are_told_by(
    user: &mut User,
    threads: u8,
    steps: &[Step],
    sends: &[Told],
) -> Result<bool, AllocError>
    requires { threads ≤ 15 }
{
    play(user, threads, steps)?;
    let first = u32::from(threads) + 1;
    for told in sends {
        if !is_told(user, first, told) {
            return Ok(false);
        }
    }
    Ok(sum_law(user).is_none())
}

/// The same by a machine of its own, which a call drops: where the end of a block drops it, each of its parts is dropped there, and the
/// proof takes a minute.
fn are_told(alloc: Global, threads: u8, steps: &[Step], sends: &[Told]) -> Result<bool, AllocError>
    requires some { 0 < threads }
    requires few { threads ≤ 15 }
{
    let mut user = User::new(alloc, Setup::new(threads, 8, 4))?;
    let told = are_told_by(&mut user, threads, steps, sends);
    drop(user);
    told
}

#[test]
fn sends_that_procedures_answer(rt: HostRuntime) -> Result<(), Fail> {
    static BACK: [Step; 12] = [
        (1, Call::Send(17, 1024, 5, 0)),
        (1, Call::Await(1)),
        (2, Call::Get(0, 0, 0)),
        (2, Call::Send(16, 1025, 6, 0)),
        (2, Call::Await(2)),
        (1, Call::Await(1)),
        (1, Call::Leave(9)),
        (1, Call::Await(1)),
        (2, Call::Await(2)),
        (2, Call::Leave(10)),
        (1, Call::Await(1)),
        (2, Call::Get(0, 0, 0)),
    ];
    static DEEP: [Step; 12] = [
        (1, Call::Send(17, 1024, 1, 0)),
        (2, Call::Get(0, 0, 0)),
        (2, Call::Send(18, 1024, 2, 0)),
        (3, Call::Get(0, 0, 0)),
        (3, Call::Send(16, 1024, 3, 0)),
        (1, Call::Await(1)),
        (1, Call::Leave(30)),
        (3, Call::Await(3)),
        (3, Call::Leave(20)),
        (2, Call::Await(2)),
        (2, Call::Leave(10)),
        (1, Call::Await(1)),
    ];
    static BY_PLACE: [Step; 10] = [
        (1, Call::SendCallback(17, 1024, 1, 0, 1, 77)),
        (2, Call::Get(0, 0, 0)),
        (3, Call::SendNotify(16, 1025, 2, 0)),
        (2, Call::Leave(5)),
        (2, Call::SendNotify(16, 1026, 3, 0)),
        (1, Call::Get(0, 0, 0)),
        (1, Call::Leave(0)),
        (1, Call::Get(0, 0, 0)),
        (1, Call::Leave(0)),
        (1, Call::Get(0, 0, 0)),
    ];
    static TOLD_BACK: [Told; 4] = [
        (0, None, None, None),
        by_proc!(1, 2, 9),
        by_proc!(2, 5, 6),
        (3, None, None, None),
    ];
    static TOLD_DEEP: [Told; 3] = [by_proc!(1, 1, 10), by_proc!(2, 3, 8), by_proc!(3, 5, 6)];
    static TOLD_BY_PLACE: [Told; 3] = [
        by_proc!(1, 1, 3),
        by_proc!(2, 5, 6),
        (3, Some(9), None, None),
    ];
    assert!(rt; are_told(rt.alloc(), 2, &BACK, &TOLD_BACK)?);
    assert!(rt; are_told(rt.alloc(), 3, &DEEP, &TOLD_DEEP)?);
    assert!(rt; are_told(rt.alloc(), 3, &BY_PLACE, &TOLD_BY_PLACE)?);
    Ok(())
}

#[test]
fn sends_that_end_otherwise(rt: HostRuntime) -> Result<(), Fail> {
    static BLOCKING: [Step; 11] = [
        (1, Call::SendTimeout(17, 1024, 0, 0, 1, 100)),
        (2, Call::SendTimeout(16, 1024, 0, 0, 1, 200)),
        (1, Call::Await(1)),
        (2, Call::Await(2)),
        (0, Call::Advance),
        (1, Call::Await(1)),
        (2, Call::Await(2)),
        (1, Call::Get(0, 0, 0)),
        (1, Call::Leave(4)),
        (2, Call::Await(2)),
        (2, Call::Get(0, 0, 0)),
    ];
    static OVER: [Step; 7] = [
        (1, Call::SendTimeout(17, 1024, 0, 0, 0, 50)),
        (2, Call::Get(0, 0, 0)),
        (0, Call::Tick(50)),
        (1, Call::Await(1)),
        (2, Call::InSend),
        (2, Call::Reply(3)),
        (2, Call::Leave(7)),
    ];
    static EARLY: [Step; 8] = [
        (1, Call::Send(17, 1024, 0, 0)),
        (2, Call::Get(0, 0, 0)),
        (2, Call::InSend),
        (2, Call::Reply(3)),
        (2, Call::InSend),
        (2, Call::Reply(4)),
        (1, Call::Await(1)),
        (2, Call::Leave(7)),
    ];
    static DROPPED: [Step; 13] = [
        (1, Call::Post(17, 1025, 0, 0)),
        (1, Call::Post(17, 1026, 0, 0)),
        (1, Call::Send(17, 1024, 0, 0)),
        (1, Call::Await(1)),
        (2, Call::Doom(17)),
        (2, Call::Unmake(17)),
        (2, Call::Unmake(17)),
        (2, Call::Drop(17)),
        (2, Call::Unmake(17)),
        (1, Call::Await(1)),
        (0, Call::Tick(20)),
        (2, Call::Peek(0, 0, 0, 1)),
        (1, Call::Post(17, 1025, 0, 0)),
    ];
    static CALLBACK: [Step; 4] = [
        (1, Call::SendCallback(17, 1024, 0, 0, 0, 0)),
        (2, Call::Get(0, 0, 0)),
        (1, Call::EndThread),
        (2, Call::Leave(5)),
    ];
    static ENDED: [Step; 3] = [
        (1, Call::Send(17, 1024, 0, 0)),
        (2, Call::EndThread),
        (1, Call::Await(1)),
    ];
    static TOLD_BLOCKING: [Told; 2] = [(1, None, Some(5), Some(Cause::Timeout)), by_proc!(2, 7, 8)];
    static TOLD_OVER: [Told; 1] = [(1, Some(1), Some(3), Some(Cause::Timeout))];
    static TOLD_EARLY: [Told; 1] = [(1, Some(1), Some(3), Some(Cause::Reply))];
    static TOLD_DROPPED: [Told; 1] = [(1, None, Some(7), Some(Cause::Loss))];
    static TOLD_CALLBACK: [Told; 1] = [by_proc!(1, 1, 3)];
    static TOLD_ENDED: [Told; 1] = [(1, None, Some(1), Some(Cause::Loss))];
    assert!(rt; are_told(rt.alloc(), 2, &BLOCKING, &TOLD_BLOCKING)?);
    assert!(rt; are_told(rt.alloc(), 2, &OVER, &TOLD_OVER)?);
    assert!(rt; are_told(rt.alloc(), 2, &EARLY, &TOLD_EARLY)?);
    assert!(rt; are_told(rt.alloc(), 2, &DROPPED, &TOLD_DROPPED)?);
    assert!(rt; are_told(rt.alloc(), 2, &CALLBACK, &TOLD_CALLBACK)?);
    assert!(rt; are_told(rt.alloc(), 2, &ENDED, &TOLD_ENDED)?);
    Ok(())
}

/// Whether counts are told before all threads have ended, and how many sends were lost, once they have.
fn counts_told_by(user: &mut User) -> Result<(bool, u32), AllocError> {
    user.step(Thread(1), Call::Register(1, 0, 0))?;
    user.step(Thread(2), Call::NewWindow(1, 2, 0, 0, 0, 0, 0, 0, 0))?;
    user.step(Thread(1), Call::Send(16, 1024, 0, 0))?;
    user.step(Thread(2), Call::EndThread)?;
    let early = sum_law(user).is_some();
    user.step(Thread(1), Call::Await(1))?;
    user.step(Thread(1), Call::EndThread)?;
    let lost = sum_law(user).map_or(0, |count| count.by_loss);
    Ok((early, lost))
}

/// The same by a machine of its own.
fn counts_told(alloc: Global) -> Result<(bool, u32), AllocError> {
    let mut user = User::new(alloc, Setup::new(2, 8, 4))?;
    let told = counts_told_by(&mut user);
    drop(user);
    told
}

#[test]
fn counts_are_told_at_the_end(rt: HostRuntime) -> Result<(), Fail> {
    assert_eq!(rt; counts_told(rt.alloc())?, (false, 1));
    Ok(())
}
