//! Which posted messages a filter lets pass.

ghost use Rattle.std.specs.Prelude.{◌≡◌};
ghost use Rattle.thread_state.specs.Passing.{passes_here, passes_number_here, passes_window_in};

use win_num::{Filter, Hwnd, Msg, names};
use win_tree::Tree;

/// Whether a filter lets a posted message pass: by its number, where a posted WM_QUIT passes every
/// range, and by its window.
pub fn passes(tree: &Tree, filter: Filter, msg: &Msg) -> bool
    ensures { result ≡ passes_here tree.now.live filter msg.now }
{
    passes_number(filter, msg) && passes_window(tree, filter.hwnd, msg.hwnd)
}

/// Whether a filter lets a posted message pass by its number alone, where a posted WM_QUIT passes every range.
pub(crate) fn passes_number(filter: Filter, msg: &Msg) -> bool
    ensures { result ≡ passes_number_here filter msg.now }
{
    filter.passes_number(msg.number) || msg.number == names::WM_QUIT
}

/// Whether a filter's window lets a window pass: 0 lets all pass, minus one what has no window, and a
/// live window itself and what stands below it.
#[inline(always)]
pub fn passes_window(tree: &Tree, wanted: u64, w: Hwnd) -> bool
    ensures { result ≡ passes_window_in tree.now.live wanted w.0 }
{
    if wanted == 0 || (wanted == names::NO_WINDOW && w.0 == 0) {
        return true;
    }
    match tree.find(wanted) {
        Some(above) => above == w || tree.is_child(above, w),
        None => false,
    }
}
