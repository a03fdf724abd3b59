//! Worked examples of classes and registered messages.

use crate::facts::hold;
use std::process::Abort;
use win_class::*;
use win_num::{Code, Fault};

#[test]
fn one_name_is_one_class(rt: HostRuntime) {
    let mut classes = Classes::new(rt.alloc());
    let class = Class {
        atom: 1,
        proc_no: 7,
        colour: 2,
    };
    let facts = [
        classes.register(1, 7, 2) == Ok(1),
        classes.register(1, 8, 3) == Err(Fault::Refused(Code::Win(1410))),
        classes.class(1) == Some(class),
        classes.unregister(2, false) == Err(Code::Win(1411)),
        classes.unregister(1, true) == Err(Code::Win(1412)),
        classes.unregister(1, false) == Ok(()),
        classes.class(1) == None,
        classes.register(1, 8, 3) == Ok(2),
    ];
    hold(&rt, &facts);
}

#[test]
fn messages_are_numbered_in_order(rt: HostRuntime) {
    let mut classes = Classes::new(rt.alloc());
    let facts = [
        classes.message_number(5) == Ok(49152),
        classes.message_number(6) == Ok(49153),
        classes.message_number(5) == Ok(49152),
    ];
    hold(&rt, &facts);
}

#[test]
fn the_table_tells_its_counts(rt: HostRuntime) {
    let mut classes = Classes::new(rt.alloc());
    let facts = [
        classes.register(7, 0, 0) == Ok(1),
        classes.unregister(7, false) == Ok(()),
        classes.register(8, 0, 0) == Ok(2),
        classes.len() == 1,
        classes.registered() == 2,
        classes.number_of(5) == None,
        classes.message_number(5) == Ok(49152),
        classes.number_of(5) == Some(49152),
        classes.message_count() == 1,
    ];
    hold(&rt, &facts);
}

const FULL: Fault = Fault::Refused(Code::Full);

/// The names 0 to 63 become the classes 1 to 64.
fn fill_classes(rt: &impl Abort, classes: &mut Classes) {
    for name in 0..64u32 {
        assert!(rt; classes.register(name, 0, 0) == Ok(name + 1), "at {name}");
    }
}

#[test]
fn limit_of_classes_is_exact(rt: HostRuntime) {
    let mut classes = Classes::new(rt.alloc());
    fill_classes(&rt, &mut classes);
    let facts = [
        classes.register(64, 0, 0) == Err(FULL),
        classes.register(63, 0, 0) == Err(Fault::Refused(Code::Win(1410))),
    ];
    hold(&rt, &facts);
}

/// The names 0 to 16383 become the messages 49152 to 65535.
fn fill_messages(rt: &impl Abort, classes: &mut Classes) {
    for name in 0..16384u32 {
        assert!(rt;
            classes.message_number(name) == Ok(49152 + name),
            "at {name}"
        );
    }
}

#[test]
fn limit_of_messages_is_exact(rt: HostRuntime) {
    let mut classes = Classes::new(rt.alloc());
    fill_messages(&rt, &mut classes);
    let facts = [
        classes.message_number(16384) == Err(FULL),
        classes.message_number(16383) == Ok(65535),
    ];
    hold(&rt, &facts);
}
