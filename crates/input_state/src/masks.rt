//! Sets of threads: bit t for thread t.

ghost use Rattle.std.specs.Prelude.{◌≡◌, ◌≢◌, ℕ, ◌<◌, ◌&&◌, nat_lt};
ghost use Rattle.std.specs.Int.{bit_at};
ghost use Rattle.input_state.specs.Groups.{has_bit};

use win_num::Thread;

/// Whether the set has thread `t`.
pub fn has(mask: u16, t: usize) -> bool
    requires { t < 16 }
    ensures { result ≡ has_bit mask t }
{
    (mask >> t) & 1 == 1
}

/// Whether the thread is one of the set; no thread above 15 is.
pub fn is_member(mask: u16, t: Thread) -> bool
    ensures { result ≡ (nat_lt t.0 16 && has_bit mask t.0) }
{
    t.0 < 16 && has(mask, usize::from(t.0))
}

/// The set with thread `t`.
pub fn with_member(mask: u16, t: usize) -> u16
    requires { t < 16 }
    ensures member { bit_at result t ≡ 1 }
    ensures others { (u : ℕ) → u ≢ t → bit_at result u ≡ bit_at mask u }
{
    mask | 1 << t
}

/// The set without thread `t`.
pub fn without_member(mask: u16, t: usize) -> u16
    requires { t < 16 }
    ensures member { bit_at result t ≡ 0 }
    ensures others { (u : ℕ) → u < 16 → u ≢ t → bit_at result u ≡ bit_at mask u }
{
    mask & !(1 << t)
}
