//! Worked examples of posted messages.

ghost use Rattle.std.specs.Prelude.{◌≡◌};

use post_queue::*;
use std::alloc::Global;
use std::marker::Brand;
use std::sync::ledger::{Blank, Ledger};
use win_num::{Code, Fault, Hwnd, Msg, Point};

/// What is done to a queue.
#[derive(Clone, Copy)]
enum Step {
    /// Posts a message under the number after this.
    Post(u16, Msg),
    /// Looks for the first message with a number from the first to the second.
    First(u32, u32),
    /// Takes out the message with the number.
    Remove(u32),
    /// Takes out the messages for the window, counting those above the number.
    Purge(Hwnd, u32),
    /// Counts the messages.
    Len,
}

/// What the queue has answered.
#[derive(Clone, Copy, Debug, PartialEq, Eq)]
enum Told {
    /// The message was posted, or not.
    Posted(Result<(), Fault>),
    /// A number is taken: nothing was posted.
    Taken,
    /// A message with its number.
    Found(Option<(u32, Msg)>),
    /// A message that was taken out.
    Removed(Option<Msg>),
    /// How many messages, and how many of them above a number.
    Purged(u32, u32),
    /// How many messages.
    Len(u32),
}

/// A message for a window.
fn message(w: u32, number: u32) -> Msg {
    Msg {
        hwnd: Hwnd(w),
        number,
        wparam: 0,
        lparam: 0,
        time: 0,
        point: Point { x: 0, y: 0 },
    }
}

/// Posts a message under the number after this, where the queue holds none above this.
fn post_after(posts: &mut Posts, before: u16, msg: Msg) -> Told {
    let last = before as u32;
    if posts.has_above(last) {
        return Told::Taken;
    }
    Told::Posted(posts.post(last + 1, msg))
}

/// The first message with a number from `min` to `max`.
fn first_counted<L: Ledger>(blank: Blank, posts: &Posts, min: u32, max: u32) -> Option<(u32, Msg)>
    requires name { blank.name ≡ L.name }
    requires parts { blank.parts ≡ L.parts }
    requires one { blank.parts ≡ 1 }
{
    let mut steps = Steps::<L>::new(blank);
    posts.first(|msg| min <= msg.number && msg.number <= max, &mut steps)
}

/// The same, whose steps nobody counts.
fn first_between(posts: &Posts, min: u32, max: u32) -> Option<(u32, Msg)> {
    first_counted::<Brand>(Blank::new(1), posts, min, max)
}

/// Does a step.
fn act(posts: &mut Posts, step: Step) -> Told {
    match step {
        Step::Post(before, msg) => post_after(posts, before, msg),
        Step::First(min, max) => Told::Found(first_between(posts, min, max)),
        Step::Remove(number) => Told::Removed(posts.remove(number)),
        Step::Purge(window, look) => {
            let (count, fresh) = posts.purge(window, look);
            Told::Purged(count, fresh)
        }
        Step::Len => Told::Len(posts.len()),
    }
}

/// What a full queue answers.
fn full() -> Told {
    Told::Posted(Err(Fault::Refused(Code::Win(1816))))
}

#[test]
fn messages_leave_in_posted_order(rt: HostRuntime) {
    let mut posts = Posts::new(rt.alloc(), 3);
    let second = message(0, 1025);
    let third = message(16, 1026);
    for (step, told) in [
        (Step::Post(0, message(16, 1280)), Told::Posted(Ok(()))),
        (Step::Post(1, second), Told::Posted(Ok(()))),
        (Step::Post(2, third), Told::Posted(Ok(()))),
        (Step::Post(3, message(0, 1)), full()),
        (Step::First(1024, 1279), Told::Found(Some((2, second)))),
        (Step::First(1, 2), Told::Found(None)),
        (Step::Remove(2), Told::Removed(Some(second))),
        (Step::Remove(2), Told::Removed(None)),
        (Step::First(1024, 1279), Told::Found(Some((3, third)))),
        (Step::Purge(Hwnd(16), 1), Told::Purged(2, 1)),
        (Step::Len, Told::Len(0)),
    ] {
        assert_eq!(rt; act(&mut posts, step), told);
    }
}

#[test]
fn a_full_queue_refuses(rt: HostRuntime) {
    let mut posts = Posts::new(rt.alloc(), 1);
    for (step, told) in [
        (Step::Post(0, message(0, 1025)), Told::Posted(Ok(()))),
        (Step::Post(1, message(0, 1025)), full()),
    ] {
        assert_eq!(rt; act(&mut posts, step), told);
    }
}
