//! Messages of the mouse.

ghost use Rattle.std.specs.Prelude.{◌≡◌, ◌≤◌};
ghost use Rattle.user_model.specs.Targets.{is_of_mouse, low_word};

use win_num::names::{WM_LBUTTONDOWN, WM_LBUTTONUP, WM_MOUSEMOVE, WM_RBUTTONDOWN, WM_RBUTTONUP};

/// Whether the number is that of a message of the mouse (Microsoft, Mouse Input).
pub fn is_of_mouse(number: u64) -> bool
    ensures { result ≡ is_of_mouse number }
{
    if number == u64::from(WM_MOUSEMOVE) {
        return true;
    }
    if number == u64::from(WM_LBUTTONDOWN) || number == u64::from(WM_LBUTTONUP) {
        return true;
    }
    number == u64::from(WM_RBUTTONDOWN) || number == u64::from(WM_RBUTTONUP)
}

/// A coordinate modulo 65536 (Microsoft, MAKELPARAM macro).
pub fn low_word(z: i64) -> u64
    ensures word { result ≡ low_word z }
    ensures small { result ≤ 65535 }
{
    if z >= 0 {
        z as u64 % 65536
    } else {
        65535 - (-1 - z) as u64 % 65536
    }
}
