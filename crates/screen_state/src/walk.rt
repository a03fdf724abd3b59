//! The window that is painted next: of the windows of a thread that have a dirty pixel and pass, the first in
//! painting order, each before its children, siblings from the top down.

ghost use Rattle.std.specs.Prelude.{◌≡◌};
ghost use Rattle.user_model.specs.declared.entry.Setup.{Setup};
ghost use Rattle.user_model.specs.Past.{Past};
ghost use Rattle.user_model.specs.Dirty.{has_dirty};
ghost use Rattle.user_model.specs.Painting.{to_paint, wants_paint};
ghost use Rattle.window_state.specs.Orders.{IsOrderAt};
ghost use Rattle.screen_state.specs.Walks.{first_painted, AreDirtyAt, IsSeen};

use dirty_windows::DirtyWindows;
use region_box::told_kind;
use thread_state::passes_window;
use win_num::{Filter, Hwnd, Thread, names};
use win_order::Order;
use win_tree::Tree;
use window_state::thread_of;

/// The number of WM_PAINT.
const PAINT: u32 = names::WM_PAINT as u32;

/// What a retrieval asks for.
#[derive(Clone, Copy, Debug)]
struct Asked {
    /// The thread that retrieves.
    thread: Thread,
    /// What it lets pass.
    filter: Filter,
}

/// Whether a window has a dirty pixel.
fn is_dirty(dirty: &DirtyWindows, w: Hwnd) -> bool
    ensures { (setup : Setup) (past : Past) → AreDirtyAt setup past dirty.now → result ≡ has_dirty setup past w.0 }
{
    match dirty.region_of(w) {
        Some(region) => told_kind(region) != 1,
        None => false,
    }
}

/// Whether WM_PAINT for the window is what a retrieval asks for, and it has a dirty pixel.
fn wants_paint(tree: &Tree, dirty: &DirtyWindows, asked: Asked, w: Hwnd) -> bool
    ensures { (setup : Setup) (past : Past) → IsSeen setup past tree.now dirty.now → result ≡ wants_paint setup past asked.thread.0 asked.filter w }
{
    if !is_dirty(dirty, w) {
        return false;
    }
    if thread_of(tree, w) != asked.thread.0 {
        return false;
    }
    if !asked.filter.passes_number(PAINT) {
        return false;
    }
    passes_window(tree, asked.filter.hwnd, w)
}

/// The first window to paint of those below a window, or for 0 of all, down to this depth.
fn first_below(
    tree: &Tree,
    order: &Order,
    dirty: &DirtyWindows,
    asked: Asked,
    w: Hwnd,
    depth: usize,
) -> Option<Hwnd>
    ensures { (setup : Setup) (past : Past) → IsSeen setup past tree.now dirty.now → IsOrderAt past order.now → result ≡ first_painted setup past asked.thread.0 asked.filter depth w.0 }
{
    if depth == 0 {
        return None;
    }
    let siblings = order.siblings(w);
    for i in (0..siblings.len()).rev() {
        let v = siblings[i];
        if wants_paint(tree, dirty, asked, v) {
            return Some(v);
        }
        let below = first_below(tree, order, dirty, asked, v, depth - 1);
        if below.is_some() {
            return below;
        }
    }
    None
}

/// The first window of the thread in painting order that has a dirty pixel and for which WM_PAINT passes
/// (Microsoft, WM_PAINT message). None comes at once where no window has a dirty pixel.
pub fn first_to_paint(
    tree: &Tree,
    order: &Order,
    dirty: &DirtyWindows,
    thread: Thread,
    filter: Filter,
) -> Option<Hwnd>
    ensures { (setup : Setup) (past : Past) → IsSeen setup past tree.now dirty.now → IsOrderAt past order.now → result ≡ to_paint setup past thread.0 filter }
{
    if dirty.is_empty() {
        return None;
    }
    let asked = Asked { thread, filter };
    first_below(tree, order, dirty, asked, Hwnd(0), tree.windows().len())
}
