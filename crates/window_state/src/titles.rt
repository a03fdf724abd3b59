//! The window of a title.

ghost use Rattle.std.specs.Prelude.{◌≡◌};
ghost use Rattle.window_state.specs.Pixels.{has_title_in, titled_in};

use win_num::Hwnd;
use win_order::Order;
use win_tree::Tree;

/// Whether a live window has this title.
fn has_title(tree: &Tree, w: Hwnd, title: u32) -> bool
    ensures { result ≡ has_title_in tree.now.live title w }
{
    match tree.row(w) {
        Some(row) => row.title == title,
        None => false,
    }
}

/// The highest of the top-level windows that have this title, a place in the list of names. None comes
/// exactly where no top-level window has it (Microsoft, FindWindow function).
pub fn titled(tree: &Tree, order: &Order, title: u32) -> Option<Hwnd>
    ensures { result ≡ titled_in tree.now.live order.now title }
{
    order
        .siblings(Hwnd(0))
        .iter()
        .rev()
        .copied()
        .find(|w| has_title(tree, *w, title))
}
