//! Worked examples, with ample memory.

use crate::facts::hold;
use send_variants::{Ready, ReadyLists, SendId, Thread};

const FIRST: Ready = Ready::Send(SendId(1));

#[test]
fn the_one_put_is_the_head(rt: HostRuntime) {
    let mut lists = ReadyLists::new(rt.alloc(), 2).expect(&rt, "room");
    lists.put(Thread(2), 7, FIRST);
    let facts = [
        lists.head(Thread(2)) == Some(FIRST),
        lists.head(Thread(1)) == None,
        lists.take(Thread(2)) == Some((7, FIRST)),
        lists.take(Thread(2)) == None,
    ];
    hold(&rt, &facts);
}

#[test]
fn a_send_is_withdrawn(rt: HostRuntime) {
    let mut lists = ReadyLists::new(rt.alloc(), 1).expect(&rt, "room");
    lists.put(Thread(1), 7, Ready::Result(SendId(1)));
    let facts = [
        lists.withdraw(SendId(2)) == None,
        lists.withdraw(SendId(1)) == Some(7),
        lists.head(Thread(1)) == None,
    ];
    hold(&rt, &facts);
}

#[test]
fn what_is_ready_is_old_after_a_look(rt: HostRuntime) {
    let mut lists = ReadyLists::new(rt.alloc(), 2).expect(&rt, "room");
    assert!(rt; !lists.has_some(Thread(1)) && !lists.has_new(Thread(1)));
    lists.put(Thread(1), 7, Ready::Send(SendId(1)));
    assert!(rt; lists.has_some(Thread(1)) && lists.has_new(Thread(1)));
    assert!(rt; !lists.has_some(Thread(2)) && !lists.has_new(Thread(2)));
    lists.look(Thread(1), 8);
    assert!(rt; lists.has_some(Thread(1)) && !lists.has_new(Thread(1)));
    assert_eq!(rt; lists.take(Thread(1)), Some((7, Ready::Send(SendId(1)))));
    assert!(rt; !lists.has_some(Thread(1)) && !lists.has_new(Thread(1)));
}

#[test]
fn a_withdrawn_send_is_new_no_more(rt: HostRuntime) {
    let mut lists = ReadyLists::new(rt.alloc(), 1).expect(&rt, "room");
    lists.look(Thread(1), 7);
    lists.put(Thread(1), 7, Ready::Send(SendId(1)));
    assert!(rt; lists.has_some(Thread(1)) && lists.has_new(Thread(1)));
    assert_eq!(rt; lists.withdraw(SendId(1)), Some(7));
    assert!(rt; !lists.has_some(Thread(1)) && !lists.has_new(Thread(1)));
}
