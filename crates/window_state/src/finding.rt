//! What is looked up in the table of windows.

ghost use Rattle.std.specs.Prelude.{◌≡◌, ◌==◌, ◌||◌, IsTrue};
ghost use Rattle.win_rows.specs.Windows.{is_live};
ghost use Rattle.win_tree.specs.Kin.{parent_of};
ghost use Rattle.window_state.specs.Steps.{told_of, up_of};
ghost use Rattle.window_state.specs.Trees.{thread_in};

use user_model::Answer;
use win_num::Hwnd;
use win_tree::{Tree, Unmade, WindowRow};

/// The live window of a number, or for 0 no window.
pub fn window_or_none(tree: &Tree, w: u64) -> Hwnd
    requires { IsTrue ((w == 0) || is_live tree.now.live w) }
    ensures { result.0 ≡ w }
{
    match tree.find(w) {
        Some(window) => window,
        None => Hwnd(0),
    }
}

/// The thread of a live window, or 0.
pub fn thread_of(tree: &Tree, w: Hwnd) -> u8
    ensures { result ≡ thread_in tree.now.live w.0 }
{
    match tree.row(w) {
        Some(row) => row.thread.0,
        None => 0,
    }
}

/// The parent of a live window, or 0.
pub fn parent_of(tree: &Tree, w: Hwnd) -> Hwnd
    ensures { result ≡ parent_of tree.now.live w.0 }
{
    match tree.row(w) {
        Some(row) => row.parent,
        None => Hwnd(0),
    }
}

/// The parent, else the owner, or 0.
pub fn up(row: &WindowRow) -> Hwnd
    ensures { result ≡ up_of row.now }
{
    if row.parent == Hwnd(0) {
        row.owner
    } else {
        row.parent
    }
}

/// A step of a destruction as an answer.
pub fn step_told(step: Unmade) -> Answer
    ensures { result ≡ told_of step }
{
    match step {
        Unmade::Tell(w) => Answer::Tell(w),
        Unmade::Last(w) => Answer::Last(w),
        Unmade::Gone | Unmade::NotDoomed => Answer::Gone,
    }
}
