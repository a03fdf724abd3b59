//! The pixels that an entry carries to another place of the screen.

ghost use Rattle.std.specs.Prelude.{◌≡◌, true};
ghost use Rattle.win_rows.specs.Windows.{is_live};
ghost use Rattle.screen_state.specs.Carrying.{copied_window, IsDistance, IsShiftBetween, IsShiftOf};

use crate::layout::Layout;
use band_region::Region;
use dirty_windows::Shift;
use user_model::{Call, Entry, Setup};
use win_num::{Hwnd, Point, names};
use win_tree::Tree;
use window_state::origin_of;

/// The pixels that an entry carries to where they are, and how far they were moved.
#[derive(Drop)]
pub struct Carried {
    /// The pixels, where they are now.
    pub region: Region,
    /// How far they were moved.
    pub shift: Shift,
}

/// The window that a call puts at a place, where its pixels may go with it (Microsoft, SetWindowPos function:
/// SWP_NOCOPYBITS).
fn copied_window(call: Call) -> Option<u64>
    ensures { result ≡ copied_window call }
{
    match call {
        Call::Place(w, _, _, _, _, _, flags) => {
            if flags & names::SWP_NOCOPYBITS == names::SWP_NOCOPYBITS {
                None
            } else {
                Some(w)
            }
        }
        _ => None,
    }
}

/// The live window of a number, or 0.
fn find_window(tree: &Tree, w: u64) -> Hwnd
    ensures { is_live tree.now.live w ≡ true → result.0 ≡ w }
{
    tree.find(w).unwrap_or(Hwnd(0))
}

/// The distance from one coordinate to another one, where a pixel can be moved so far along an edge of so many pixels
/// and be on it again.
fn distance(old: i32, new: i32, edge: u16) -> Option<i32>
    ensures { IsDistance old new edge result }
{
    let limit = i64::from(edge);
    let d = i64::from(new) - i64::from(old);
    if d <= -limit {
        return None;
    }
    if limit <= d {
        return None;
    }
    Some(d as i32)
}

/// The move from one point to another one, where a pixel of the screen can be moved so far and be on the screen again.
fn shift_between(setup: Setup, old: Point, new: Point) -> Option<Shift>
    ensures { IsShiftBetween setup old new result }
{
    match distance(old.x, new.x, setup.width) {
        Some(dx) => match distance(old.y, new.y, setup.height) {
            Some(dy) => Some(Shift { dx, dy }),
            None => None,
        },
        None => None,
    }
}

/// How far windows are moved that an entry carries, where it carries any: all by the same move.
pub fn shift_of(setup: Setup, tree: &Tree, layout: &Layout, entry: Entry) -> Option<Shift>
    ensures { IsShiftOf setup tree.now layout.now.tree entry result }
{
    match copied_window(entry.call) {
        Some(w) => {
            let w = find_window(tree, w);
            shift_between(setup, origin_of(tree, w), origin_of(&layout.tree, w))
        }
        None => None,
    }
}
