//! One thread's messages, and what its last entry said.

ghost use Rattle.std.specs.Prelude.{◌≡◌};
ghost use Rattle.thread_state.specs.Threads.{fresh_thread};

use crate::facts::hold;
use std::process::Abort;
use std::test::Fail;
use thread_state::*;
use user_model::Call;
use win_num::{Filter, Hwnd, Msg, Point, names};
use win_tree::Tree;

/// Every message.
const OPEN: Filter = Filter {
    hwnd: 0,
    min: 0,
    max: 0,
};

/// Messages of the number 1025.
const LATE: Filter = Filter {
    hwnd: 0,
    min: 1025,
    max: 1025,
};

/// A message without a window.
fn message(number: u32) -> Msg {
    Msg {
        hwnd: Hwnd(0),
        number,
        wparam: 0,
        lparam: 0,
        time: 0,
        point: Point { x: 0, y: 0 },
    }
}

/// The place of the first message that passes, and 0 where none does.
fn first(thread: &ThreadState, tree: &Tree, filter: Filter) -> u32 {
    thread.first(tree, filter).map_or(0, |(number, _)| number)
}

fn keep_in_order(rt: &impl Abort, tree: &Tree, thread: &mut ThreadState) -> Result<(), Fail>
    requires { thread.old ≡ fresh_thread }
{
    thread.post(1, message(1024))?;
    thread.post(2, message(1025))?;
    let found = [
        first(thread, tree, OPEN) == 1,
        first(thread, tree, LATE) == 2,
    ];
    hold(rt, &found);
    thread.take(1);
    hold(rt, &[thread.len() == 1]);
    thread.purge(|w: Hwnd| -> bool { w.0 == 16 });
    hold(rt, &[thread.len() == 1]);
    thread.end();
    hold(rt, &[thread.has_ended() && thread.len() == 0]);
    Ok(())
}

#[test]
fn messages_are_kept_in_order(rt: HostRuntime) -> Result<(), Fail> {
    let alloc = rt.alloc();
    let tree = Tree::new(alloc);
    let mut thread = ThreadState::new(alloc);
    keep_in_order(&rt, &tree, &mut thread)
}

#[test]
fn quit_and_waits_are_kept(rt: HostRuntime) {
    let mut thread = ThreadState::new(rt.alloc());
    assert!(rt; thread.quit().is_none() && thread.waiting().is_none());
    thread.set_quit(Some(7));
    assert_eq!(rt; thread.quit(), Some(7));
    thread.note(Some(Call::Await(1)));
    assert!(rt; thread.waiting().is_some());
    thread.go_on();
    assert!(rt; thread.waiting().is_none());
}

#[test]
fn filters_pass_numbers_and_windows(rt: HostRuntime) {
    let tree = Tree::new(rt.alloc());
    let early = Filter {
        hwnd: 0,
        min: 1,
        max: 1024,
    };
    let nobody = Filter {
        hwnd: 16,
        min: 0,
        max: 0,
    };
    assert!(rt; passes(&tree, early, &message(1024)) && !passes(&tree, early, &message(1025)));
    assert!(rt; passes(&tree, early, &message(names::WM_QUIT)));
    assert!(rt; !passes(&tree, nobody, &message(1024)));
}

fn wait_for_late(rt: &impl Abort, tree: &Tree, thread: &mut ThreadState) -> Result<(), Fail>
    requires { thread.old ≡ fresh_thread }
{
    thread.post(1, message(1024))?;
    thread.note(Some(Call::Get(0, 1025, 1025)));
    hold(rt, &[first(thread, tree, LATE) == 0]);
    thread.post(2, message(1026))?;
    let found = [
        first(thread, tree, LATE) == 0,
        first(thread, tree, OPEN) == 1,
    ];
    hold(rt, &found);
    thread.post(3, message(1025))?;
    hold(rt, &[first(thread, tree, LATE) == 3]);
    Ok(())
}

#[test]
fn a_waiting_thread_finds_what_comes(rt: HostRuntime) -> Result<(), Fail> {
    let alloc = rt.alloc();
    let tree = Tree::new(alloc);
    let mut thread = ThreadState::new(alloc);
    wait_for_late(&rt, &tree, &mut thread)
}

/// What is done to a thread.
#[derive(Clone, Copy)]
enum Step {
    /// Takes out the message with the number.
    Take(u32),
    /// Takes out the messages of no window.
    Purge,
    /// Keeps the code of quit, or that there is none.
    Quit(Option<u64>),
    /// Looks, when there were so many posts.
    Look(u32),
    /// Ends the thread.
    End,
}

/// Does a step.
fn act(thread: &mut ThreadState, step: Step) {
    match step {
        Step::Take(number) => thread.take(number),
        Step::Purge => thread.purge(|w: Hwnd| -> bool { w.0 == 0 }),
        Step::Quit(code) => thread.set_quit(code),
        Step::Look(posts) => thread.look(posts),
        Step::End => thread.end(),
    }
}

/// Whether a message or quit is there after a step, and whether one is that came since the last look.
fn after(thread: &mut ThreadState, step: Step) -> (bool, bool) {
    act(thread, step);
    (thread.has_post(), thread.has_new_post())
}

#[test]
fn posts_that_go_are_counted(rt: HostRuntime) -> Result<(), Fail> {
    let mut thread = ThreadState::new(rt.alloc());
    assert!(rt; !thread.has_post() && !thread.has_new_post());
    thread.post(3, message(1024))?;
    assert!(rt; thread.has_post() && thread.has_new_post());
    thread.look(5);
    assert!(rt; thread.has_post() && !thread.has_new_post());
    thread.post(7, message(1024))?;
    for (step, told) in [
        (Step::Take(3), (true, true)),
        (Step::Take(3), (true, true)),
        (Step::Look(6), (true, true)),
        (Step::Look(7), (true, false)),
        (Step::Purge, (false, false)),
    ] {
        assert_eq!(rt; after(&mut thread, step), told);
    }
    Ok(())
}

#[test]
fn quit_is_counted_as_one(rt: HostRuntime) -> Result<(), Fail> {
    let mut thread = ThreadState::new(rt.alloc());
    thread.post(1, message(1024))?;
    for (step, told) in [
        (Step::Quit(Some(1)), (true, true)),
        (Step::Take(1), (true, true)),
        (Step::Look(1), (true, false)),
        (Step::Quit(Some(2)), (true, true)),
        (Step::Quit(None), (false, false)),
        (Step::Quit(Some(3)), (true, true)),
        (Step::Look(1), (true, false)),
        (Step::End, (true, false)),
    ] {
        assert_eq!(rt; after(&mut thread, step), told);
    }
    Ok(())
}
