//! Laws of the machine, over its definitions alone: they hold of every history that a machine can have.
//! `send_law` and `sum_law` tell of a given machine what two of them speak of.
#![tactic(auto)]

mod colours;
mod dialogs;
mod groups;
mod inputs;
mod machines;
mod orders;
mod painting;
mod ranks;
mod refusals;
mod sends;
mod stands;
mod times;
mod words;

pub use colours::{clips_follow, colours_follow, frames_stay};
pub use dialogs::dialogs_follow;
pub use groups::{groups_follow, settings_follow};
pub use inputs::{inputs_follow, keys_follow};
pub use machines::{send_law, sum_law};
pub use orders::{destruction_is_in_order, kin_are_destroyed_once, kin_go_before_what_is_above};
pub use painting::{dirty_pixels_follow, painted_windows_are_live, windows_take_pixels_along};
pub use ranks::{owners_have_their_pixels, siblings_are_mended};
pub use refusals::{posts_leave_in_order, refusals_change_nothing};
pub use sends::{
    all_sends_come_to_an_end, answers_stay, awaits_pop_their_frames, frames_and_sends_are_few,
    leaves_pop_their_frames, sends_are_numbered, sends_keep_their_order, stacks_are_in_order,
    stacks_change_at_the_top,
};
pub use stands::{
    kin_is_a_chain, posts_stand_until_taken, ready_until_served, windows_are_as_last_set,
    windows_live_until_dropped,
};
pub use times::{
    clock_has_a_bound, clock_never_goes_back, clock_wakes_a_thread, soonest_time_is_to_come,
    timers_follow,
};
pub use user_core::SendStory;
pub use words::{
    each_of_is_added, ever_is_done, first_of_is_said_first, last_of_is_said_last,
    standing_is_added_for_good,
};
