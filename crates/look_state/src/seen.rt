//! The dirty pixels that are there at a look.

ghost use Rattle.std.specs.Prelude.{◌≡◌, ◌==◌, true, IfOk, option_copied, option_map};
ghost use Rattle.window_state.specs.Trees.{thread_in};
ghost use Rattle.user_model.specs.Status.{is_look};
ghost use Rattle.look_state.specs.Looks.{seen_entry, seen_of, seen_region};

use band_region::Region;
use dirty_windows::DirtyWindow;
use std::alloc::{AllocError, Global};
use thread_state::is_look;
use user_model::Entry;
use win_num::{Hwnd, Thread};
use win_tree::Tree;
use window_state::thread_of;

/// The pixels of a window that were dirty at a look.
#[derive(Drop)]
pub struct SeenWindow {
    /// The window's number, which is above 0.
    pub window: Hwnd,
    pub region: Region,
}

/// The dirty pixels of the windows of the entry's thread, where the entry is a look. Want of memory is the only error.
pub fn seen_by(
    alloc: Global,
    tree: &Tree,
    dirty: &[DirtyWindow],
    entry: &Entry,
) -> Result<Vec<SeenWindow>, AllocError>
    ensures { IfOk result (λ seen. is_look entry.now.call ≡ true → seen.items ≡ seen_of tree.now.live entry.now.who.0 dirty.now) }
{
    if dirty.is_empty() || !is_look(entry.call) {
        return Ok(Vec::new(alloc));
    }
    seen_of(alloc, tree, dirty, entry.who)
}

/// The dirty pixels of the windows of a thread, again.
#[inline(never)]
fn seen_of(
    alloc: Global,
    tree: &Tree,
    dirty: &[DirtyWindow],
    thread: Thread,
) -> Result<Vec<SeenWindow>, AllocError>
    ensures { IfOk result (λ seen. seen.items ≡ seen_of tree.now.live thread.0 dirty.now) }
{
    let mut seen = Vec::new(alloc);
    for d in dirty {
        if is_of(tree, d.window, thread) {
            let region = d.update.dirty().copy(alloc)?;
            seen.push(SeenWindow {
                window: d.window,
                region,
            })?;
        }
    }
    Ok(seen)
}

/// Whether it is a window of the thread.
pub fn is_of(tree: &Tree, w: Hwnd, thread: Thread) -> bool
    ensures { result ≡ (thread_in tree.now.live w.0 == thread.0) }
{
    thread_of(tree, w) == thread.0
}

/// The pixels of a window that were dirty. None comes where it isn't among these.
pub fn region_of(seen: &[SeenWindow], w: Hwnd) -> Option<&Region>
    ensures { option_copied result ≡ option_map seen_region (seen_entry seen.now w.0) }
{
    for s in seen {
        if s.window == w {
            return Some(&s.region);
        }
    }
    None
}
