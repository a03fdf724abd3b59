//! What a dialog does with a key, as a resumable state without a machine, for programs that embed the machine and make
//! its calls themselves: Tab and the arrows move the focus, Enter and Escape command.
#![tactic(auto)]

mod key;
mod key_state;
mod laws;
mod stage;
mod steps;
mod walk;

pub use key::{
    DialogKey, IDCANCEL, IDOK, VK_DOWN, VK_ESCAPE, VK_LEFT, VK_RETURN, VK_RIGHT, VK_TAB, VK_UP,
    WM_COMMAND,
};
pub use key_state::KeyState;
pub use laws::{key_can_be_handed, one_key_next, walk_sees_the_controls};
pub use win_calls::{Got, Next, may_follow};
