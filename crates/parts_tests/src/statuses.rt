//! Worked examples of counts for the status.

use queue_status::{Bits, Count};

/// QS_POSTMESSAGE.
const POSTED: u16 = 8;

/// QS_SENDMESSAGE.
const SENT: u16 = 64;

/// What a count is told.
#[derive(Clone, Copy)]
enum Step {
    /// A message comes, which came since the last look or not.
    Add(bool),
    /// Such a message goes.
    Remove(bool),
    /// The thread looks.
    Look,
}

/// Tells a count, where it is one that it can be told.
fn tell(count: &mut Count, step: Step) {
    match step {
        Step::Add(fresh) if count.fresh <= count.there && count.there < u32::MAX => count.add(
            fresh,
        ),
        Step::Remove(true) if 0 < count.fresh && count.fresh <= count.there => count.remove(true),
        Step::Remove(false) if count.fresh < count.there => count.remove(false),
        Step::Look => count.look(),
        Step::Add(_) | Step::Remove(_) => {}
    }
}

#[test]
fn messages_come_and_go(rt: HostRuntime) {
    let mut count = Count::none();
    assert!(rt; !count.is_there() && !count.is_fresh());
    for (step, there, fresh) in [
        (Step::Add(true), 1, 1),
        (Step::Add(true), 2, 2),
        (Step::Remove(true), 1, 1),
        (Step::Look, 1, 0),
        (Step::Add(true), 2, 1),
        (Step::Add(false), 3, 1),
        (Step::Remove(false), 2, 1),
        (Step::Remove(true), 1, 0),
        (Step::Remove(false), 0, 0),
    ] {
        tell(&mut count, step);
        assert_eq!(rt; count, Count { there, fresh });
        assert_eq!(rt; count.is_there(), there > 0);
        assert_eq!(rt; count.is_fresh(), fresh > 0);
    }
}

#[test]
fn kinds_come_look_and_go(rt: HostRuntime) {
    let mut bits = Bits::new();
    let empty = (bits.now(), bits.since());
    bits.came(POSTED);
    bits.came(POSTED);
    bits.came(SENT);
    let full = (bits.now(), bits.since());
    bits.gone(POSTED, true);
    bits.looked();
    let seen = (bits.now(), bits.since());
    bits.came(SENT);
    bits.gone(POSTED, false);
    bits.gone(SENT, false);
    let left = (bits.now(), bits.since());
    assert_eq!(rt;
        [empty, full, seen, left],
        [(0, 0), (72, 72), (72, 0), (64, 64)]
    );
}

/// The bits that a message of one kind alone gives, since a look and after another.
fn alone(bit: u16) -> (u16, u16) {
    let mut bits = Bits::new();
    bits.came(bit);
    let since = bits.since();
    bits.looked();
    (since, bits.now())
}

#[test]
fn each_kind_has_its_bit(rt: HostRuntime) {
    for bit in [1, 2, 4, 8, 16, 32, 64] {
        assert_eq!(rt; alone(bit), (bit, bit));
    }
    // numbers that are no kind's bit
    for bit in [0, 3, 128] {
        assert_eq!(rt; alone(bit), (0, 0));
    }
}
