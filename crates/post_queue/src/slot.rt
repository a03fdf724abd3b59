//! A queued message in its place.

ghost use Rattle.std.specs.Prelude.{◌≡◌};

use crate::sealed::Sealed;
use win_num::Hwnd;

/// A queued message with its number, between the slots before and after it in posted order. The window's
/// number stands beside the message, so that a search by window reads no message.
#[derive(Drop)]
pub(crate) struct Slot {
    pub(crate) number: u32,
    pub(crate) hwnd: Hwnd,
    pub(crate) sealed: Sealed,
    /// The key of the slot before it.
    pub(crate) before: Option<usize>,
    /// The key of the slot after it.
    pub(crate) after: Option<usize>,
    ghost same_window: { hwnd ≡ sealed.hwnd },
}
