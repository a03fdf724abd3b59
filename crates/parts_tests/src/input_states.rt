use crate::facts::hold;
use input_state::{InputState, Slot};
use win_num::{Code, Hwnd, Thread};

const ONE: Thread = Thread(1);

const TWO: Thread = Thread(2);

const THREE: Thread = Thread(3);

#[test]
fn a_chain_of_pairs_is_one_group(rt: HostRuntime) {
    let mut state = InputState::new(3);
    let facts = [
        state.group(ONE) == 2,
        state.attach(ONE, TWO) == Ok(()),
        state.attach(THREE, TWO) == Ok(()),
        state.group(ONE) == 14,
        // attached already
        state.attach(TWO, ONE) == Err(Code::Win(87)),
        // one thread
        state.attach(TWO, TWO) == Err(Code::Win(87)),
        // not directly
        state.detach(ONE, THREE) == Err(Code::Win(87)),
        state.detach(TWO, THREE) == Ok(()),
        state.group(THREE) == 8,
        state.group(TWO) == 6,
    ];
    hold(&rt, &facts);
}

#[test]
fn a_group_has_what_was_set_last(rt: HostRuntime) {
    let mut state = InputState::new(2);
    assert!(rt; state.value(ONE, Slot::Focus) == Hwnd(0));
    state.set(TWO, Slot::Focus, Hwnd(17), 0);
    state.set(ONE, Slot::Focus, Hwnd(16), 4);
    state.set(TWO, Slot::Active, Hwnd(17), 5);
    state.set_key(TWO, 65, true, 6);
    let facts = [
        state.value(TWO, Slot::Focus) == Hwnd(17),
        !state.key_down(ONE, 65),
        state.attach(ONE, TWO) == Ok(()),
        state.value(TWO, Slot::Focus) == Hwnd(16),
        state.value(ONE, Slot::Active) == Hwnd(17),
        state.value(ONE, Slot::Capture) == Hwnd(0),
        state.key_down(ONE, 65),
    ];
    hold(&rt, &facts);
    state.set_key(ONE, 65, false, 7);
    assert!(rt; !state.key_down(TWO, 65));
}
