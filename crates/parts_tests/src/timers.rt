use crate::facts::hold;
use std::process::Abort;
use timer_source::{Timer, Timers};
use win_num::{Code, Fault, Hwnd, Thread};

#[test]
fn two_hundred_and_fifty_seven_ids(rt: HostRuntime) {
    let mut timers = Timers::new(rt.alloc());
    for id in 0..256 {
        assert!(rt;
            timers.set(Thread(1), Hwnd(16), id, 10, 0) == Ok(()),
            "at {id}"
        );
    }
    let full = Err(Fault::Refused(Code::Full));
    let facts = [
        timers.set(Thread(1), Hwnd(16), 256, 10, 0) == full,
        // it replaces one
        timers.set(Thread(1), Hwnd(16), 7, 10, 0) == Ok(()),
        // another thread
        timers.set(Thread(2), Hwnd(17), 256, 10, 0) == Ok(()),
        // no timer of another thread moves in
        timers.set(Thread(1), Hwnd(17), 256, 10, 0) == full,
    ];
    hold(&rt, &facts);
}

/// The timer of window 16 with this id, due at this time.
fn due(id: u64, due: u64) -> Option<Timer> {
    Some(Timer {
        hwnd: Hwnd(16),
        id,
        due,
    })
}

const THREAD: Thread = Thread(1);

const WINDOW: Hwnd = Hwnd(16);

/// Thread 1 sets the timers 1 and 2, thread 2 sets 3.
fn set_three(rt: &impl Abort, timers: &mut Timers) {
    let facts = [
        timers.set(THREAD, WINDOW, 1, 3, 0) == Ok(()),
        timers.set(THREAD, WINDOW, 2, 10, 0) == Ok(()),
        timers.set(Thread(2), Hwnd(17), 3, 10, 0) == Ok(()),
    ];
    hold(rt, &facts);
}

/// The first timer of thread 1 that is due at this time.
fn first(timers: &Timers, now: u64) -> Option<Timer> {
    timers.first_due(THREAD, |_| true, now)
}

/// When the next timer of a thread is due.
fn next(timers: &Timers, thread: Thread) -> Option<u64> {
    timers.next_due(thread, |_| true)
}

fn due_in_order(rt: &impl Abort, timers: &mut Timers) {
    let facts = [
        first(timers, 9) == None,
        first(timers, 10) == due(1, 10),
        timers.first_due(THREAD, |timer| timer.id != 1, 10) == due(2, 10),
        next(timers, THREAD) == Some(10),
        timers.set(THREAD, WINDOW, 1, 10, 0) == Ok(()),
        // 1 was set anew
        first(timers, 10) == due(2, 10),
    ];
    hold(rt, &facts);
}

fn restarted_and_killed(rt: &impl Abort, timers: &mut Timers) {
    timers.restart(WINDOW, 2, 35);
    let facts = [
        timers.next_due(THREAD, |timer| timer.id == 2) == Some(45),
        timers.kill(WINDOW, 1) == Ok(()),
        timers.kill(WINDOW, 1) == Err(Code::Win(87)),
    ];
    hold(rt, &facts);
}

/// Those of one window go, and those of windows that pass.
fn purged(rt: &impl Abort, timers: &mut Timers) {
    timers.purge(Hwnd(17));
    let facts = [
        next(timers, Thread(2)) == None,
        next(timers, THREAD) == Some(45),
    ];
    hold(rt, &facts);
    timers.purge_those(|w: Hwnd| -> bool { w == WINDOW });
    hold(rt, &[next(timers, THREAD) == None]);
}

fn ended(rt: &impl Abort, timers: &mut Timers) {
    let facts = [
        timers.set(Thread(2), Hwnd(17), 3, 10, 0) == Ok(()),
        next(timers, Thread(2)) == Some(10),
    ];
    hold(rt, &facts);
    timers.end(Thread(2));
    hold(rt, &[!timers.has(Hwnd(17), 3), !timers.is_full(Thread(2))]);
}

#[test]
fn due_by_time_then_by_setting(rt: HostRuntime) {
    let mut timers = Timers::new(rt.alloc());
    set_three(&rt, &mut timers);
    due_in_order(&rt, &mut timers);
    restarted_and_killed(&rt, &mut timers);
    purged(&rt, &mut timers);
    ended(&rt, &mut timers);
}
