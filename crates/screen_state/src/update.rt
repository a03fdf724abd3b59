//! What is told of a window's dirty pixels.

ghost use Rattle.std.specs.Prelude.{◌≡◌, ◌≤ℤ◌, ◌-ℤ◌, pos, negsuc, true};
ghost use Rattle.win_num.specs.PixelSets.{box, kind_of};
ghost use Rattle.user_model.specs.declared.entry.Setup.{Setup};
ghost use Rattle.user_model.specs.Past.{Past};
ghost use Rattle.user_model.specs.Legal.{IsLawful};
ghost use Rattle.user_model.specs.Pixels.{origin};
ghost use Rattle.user_model.specs.Windows.{is_live};
ghost use Rattle.user_model.specs.Dirty.{dirty_pixels};
ghost use Rattle.user_model.specs.ReplyDrawing.{bounds_from};
ghost use Rattle.screen_state.specs.Walks.{IsSeen};

use dirty_windows::DirtyWindows;
use region_box::{told_bounds, told_kind};
use win_num::Hwnd;
use win_tree::Tree;
use window_state::origin_of;

/// The kind of a window's dirty pixels and the edges of the least rectangle around them, in pixels from its
/// own left top corner, or 0 0 0 0 where it has none.
#[derive(Clone, Copy, Debug)]
pub struct UpdateBox {
    /// 1 for no pixel, 2 where they are all pixels of one rectangle, else 3.
    pub kind: u8,
    pub l: i32,
    pub t: i32,
    pub r: i32,
    pub b: i32,
}

/// What is told where no pixel is dirty.
fn no_update() -> UpdateBox
    ensures kind { result.kind ≡ 1 }
    ensures edges { box result.l result.t result.r result.b ≡ box (pos 0) (pos 0) (pos 0) (pos 0) }
{
    UpdateBox {
        kind: 1,
        l: 0,
        t: 0,
        r: 0,
        b: 0,
    }
}

/// How far an edge is behind a corner, where the distance has 32 bits, else 0.
fn behind(edge: i32, corner: i32) -> i32
    ensures { negsuc 2147483647 ≤ℤ (edge -ℤ corner) → (edge -ℤ corner) ≤ℤ pos 2147483647 → result ≡ edge -ℤ corner }
{
    edge.checked_sub(corner).unwrap_or(0)
}

/// The kind of the window's dirty pixels and the least rectangle around them (Microsoft, GetUpdateRect and
/// GetUpdateRgn functions).
pub fn update_box(tree: &Tree, dirty: &DirtyWindows, w: Hwnd) -> UpdateBox
    ensures kind { (setup : Setup) (past : Past) → IsLawful setup past → IsSeen setup past tree.now dirty.now → is_live past w.0 ≡ true → result.kind ≡ kind_of (dirty_pixels setup past w.0) }
    ensures edges { (setup : Setup) (past : Past) → IsLawful setup past → IsSeen setup past tree.now dirty.now → is_live past w.0 ≡ true → box result.l result.t result.r result.b ≡ bounds_from (origin past w.0) (dirty_pixels setup past w.0) }
{
    let Some(region) = dirty.region_of(w) else {
        return no_update();
    };
    let kind = told_kind(region);
    if kind == 1 {
        return no_update();
    }
    let corner = origin_of(tree, w);
    let around = told_bounds(region);
    UpdateBox {
        kind,
        l: behind(around.l(), corner.x),
        t: behind(around.t(), corner.y),
        r: behind(around.r(), corner.x),
        b: behind(around.b(), corner.y),
    }
}
