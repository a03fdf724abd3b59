//! Small tables of what each thread sets.

use crate::facts::hold;
use group_state::GroupState;
use input_state::Slot;
use std::alloc::AllocError;
use win_num::{Hwnd, Thread};
use win_tree::Tree;

#[test]
fn nothing_was_set(rt: HostRuntime) -> Result<(), AllocError> {
    let alloc = rt.alloc();
    let tree = Tree::new(alloc);
    let groups = GroupState::new(alloc, 3)?;
    let facts = [
        groups.value(&tree, Thread(1), Slot::Focus).0 == 0,
        !groups.is_of_group(&tree, Thread(1), Hwnd(16)),
        groups.foreground() == 0,
        !groups.are_attached(1, 2),
        !groups.are_attached(16, 300),
        !groups.is_key_down(Thread(1), 16),
        groups.group(Thread(3)) == 8,
    ];
    hold(&rt, &facts);
    Ok(())
}
