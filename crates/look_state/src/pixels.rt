//! Which pixels are dirty that weren't at a look.

ghost use Rattle.std.specs.Prelude.{◌≡◌, ◌↔◌, true, IsTrue, IfOk, All, option_copied};
ghost use Rattle.user_model.specs.declared.entry.Setup.{Setup};
ghost use Rattle.user_model.specs.Past.{Past};
ghost use Rattle.user_model.specs.Legal.{IsLawful};
ghost use Rattle.user_model.specs.Status.{has_paint};
ghost use Rattle.window_state.specs.Trees.{IsTreeAt};
ghost use Rattle.screen_state.specs.Walks.{AreDirtyAt};
ghost use Rattle.dirty_windows.specs.LookUps.{RisesFrom};
ghost use Rattle.user_model.specs.Since.{IsTail};
ghost use Rattle.look_state.specs.Looks.{IsSeenAt, IsCovered, IsWithin};

use crate::seen::{SeenWindow, is_of, region_of};
use band_region::Region;
use dirty_windows::DirtyWindow;
use std::alloc::{AllocError, Global};
use win_num::Thread;
use win_tree::Tree;

/// Whether a pixel of a window of the thread is dirty that wasn't at a look (Microsoft, GetQueueStatus function, QS_PAINT). Want of memory
/// is the only error.
pub fn has_new_pixel(
    alloc: Global,
    tree: &Tree,
    dirty: &[DirtyWindow],
    seen: &[SeenWindow],
    thread: Thread,
) -> Result<bool, AllocError>
    requires { RisesFrom 0 dirty.now }
    ensures { IfOk result (λ b. (setup : Setup) (past look : Past) → IsLawful setup past → IsTail look past → IsTreeAt past tree.now → AreDirtyAt setup past dirty.now → IsSeenAt setup look thread.0 seen.now → b ≡ has_paint setup past thread.0 look) }
{
    let covered = are_covered(alloc, tree, dirty, seen, thread)?;
    Ok(!covered)
}

/// Whether all dirty pixels of the thread's windows were dirty then.
fn are_covered(
    alloc: Global,
    tree: &Tree,
    dirty: &[DirtyWindow],
    seen: &[SeenWindow],
    thread: Thread,
) -> Result<bool, AllocError>
    ensures { IfOk result (λ b. IsTrue b ↔ All (IsCovered tree.now.live thread.0 seen.now) dirty.now) }
{
    for d in dirty {
        if !is_covered(alloc, tree, d, seen, thread)? {
            return Ok(false);
        }
    }
    Ok(true)
}

/// Whether all dirty pixels of a window were dirty then, or it is another thread's.
fn is_covered(
    alloc: Global,
    tree: &Tree,
    d: &DirtyWindow,
    seen: &[SeenWindow],
    thread: Thread,
) -> Result<bool, AllocError>
    ensures { IfOk result (λ b. IsTrue b ↔ IsCovered tree.now.live thread.0 seen.now d.now) }
{
    if !is_of(tree, d.window, thread) {
        return Ok(true);
    }
    is_within(alloc, d.update.dirty(), region_of(seen, d.window))
}

/// Whether all pixels of a region are among those of another, if there is one.
fn is_within(alloc: Global, region: &Region, other: Option<&Region>) -> Result<bool, AllocError>
    ensures { IfOk result (λ b. IsTrue b ↔ IsWithin region.now (option_copied other.entry)) }
{
    match other {
        Some(other) => {
            if region.same(other) {
                return Ok(true);
            }
            let left = region.diff(alloc, other)?;
            Ok(left.kind() == 1)
        }
        None => Ok(region.kind() == 1),
    }
}
