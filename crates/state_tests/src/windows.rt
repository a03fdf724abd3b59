//! Look-ups in a table without windows.

use crate::facts::hold;
use std::alloc::{AllocError, Global};
use std::process::Abort;
use user_model::Answer;
use win_num::{Hwnd, Point};
use win_order::Order;
use win_tree::{Tree, Unmade};
use window_state::*;

fn look_up(rt: &impl Abort, tree: &Tree, order: &Order) {
    let facts = [
        window_or_none(tree, 0) == Hwnd(0),
        thread_of(tree, Hwnd(16)) == 0,
        titled(tree, order, 2) == None,
        owner_at(tree, order, 8, 4, 0, 0) == Hwnd(0),
        origin_of(tree, Hwnd(16)) == Point { x: 0, y: 0 },
    ];
    hold(rt, &facts);
}

/// Whether the windows of a table are where they were.
fn none_moved(alloc: Global, tree: &Tree) -> Result<bool, AllocError> {
    let moved = moved_windows(alloc, tree, tree)?;
    Ok(moved.is_empty())
}

#[test]
fn no_window_is_found(rt: HostRuntime) -> Result<(), AllocError> {
    let alloc = rt.alloc();
    let tree = Tree::new(alloc);
    let order = Order::new(alloc);
    look_up(&rt, &tree, &order);
    let same = none_moved(alloc, &tree);
    drop(order);
    drop(tree);
    hold(&rt, &[same?]);
    Ok(())
}

#[test]
fn steps_are_told(rt: HostRuntime) {
    let facts = [
        step_told(Unmade::Tell(Hwnd(16))) == Answer::Tell(Hwnd(16)),
        step_told(Unmade::Last(Hwnd(17))) == Answer::Last(Hwnd(17)),
        step_told(Unmade::Gone) == Answer::Gone,
    ];
    hold(&rt, &facts);
}
