//! Rows of settings, one cell a thread.

ghost use Rattle.std.specs.Prelude.{◌≡◌, ◌≤◌, ◌<◌, ◌+◌, ◌*◌, length};
ghost use Rattle.input_state.specs.State.{latest_below};

use crate::masks::has;

/// How many cells a row has: one for each thread, and one for no thread.
pub const WIDTH: usize = 16;

/// The member of the group whose setting in the row is the latest, or 0.
#[tactic(auto, unfolding(crate::specs::State::latest_below))]
pub fn latest(orders: &[u64], row: usize, group: u16) -> usize
    requires { 16 * row + 16 ≤ length orders.now }
    ensures setter { result ≡ latest_below group orders.now row 16 }
    ensures within { result < 16 }
{
    let mut best = 0;
    for n in 0..WIDTH {
        if has(group, n) && orders[16 * row + best] < orders[16 * row + n] {
            best = n;
        }
    }
    best
}
