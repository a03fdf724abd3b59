//! A clipboard that threads share, with formats that are rendered only when they are asked for.
#![tactic(auto)]

mod answers;
mod board;
mod clip;
mod empty_state;
mod entry;
mod errand;
mod get_state;
mod law;
mod laws;
mod moves;
mod shared;

pub use clip::Clip;
pub use empty_state::EmptyState;
pub use entry::{
    ClipAnswer, ClipCall, ClipEntry, FORMAT_LIMIT, HISTORY_LIMIT, Holder, Kept,
    WM_DESTROYCLIPBOARD, WM_RENDERFORMAT,
};
pub use get_state::GetState;
pub use law::get_law;
pub use laws::{clip_can_be_handed, one_clip_next};
pub use moves::{ClipGot, ClipNext, may_answer};
