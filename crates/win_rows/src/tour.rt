//! A walk round a window and all that stands under it, which takes no memory: it finds its way up by what
//! each window stands under.

ghost use Rattle.std.specs.Prelude.{◌≡◌, ℕ, ◌∷◌, find, Some, IfSome};
ghost use Rattle.win_rows.specs.Links.{above_by};
ghost use Rattle.win_rows.specs.Tours.{is_due, is_past, rest, IsVisit};

use crate::links::{Link, above_by};
use crate::rows::Rows;
use crate::window::Window;
use win_num::Hwnd;

/// Whether a window is visited before all that stands under it, or after.
#[derive(Clone, Copy, Drop)]
pub enum Way {
    Enter,
    Leave,
}

/// A visit of a window. The depth bounds how far down from it the walk goes.
#[derive(Clone, Copy, Drop)]
pub struct Visit {
    pub way: Way,
    pub window: Window,
    pub depth: usize,
}

impl Visit {
    /// Whether its step is one of this way and wasn't given: a window is told where it is entered, and
    /// gets its last message where it is left.
    pub fn is_due(&self, way: Way) -> bool
        ensures { result ≡ is_due way self.now }
    {
        match (way, self.way) {
            (Way::Enter, Way::Enter) => !self.window.told,
            (Way::Leave, Way::Leave) => !self.window.ended,
            _ => false,
        }
    }
}

/// The visit after this one, of a walk that began at depth `top`. None comes at its end.
pub fn after(rows: &Rows, link: Link, top: usize, visit: &Visit) -> Option<Visit>
    requires { IsVisit rows.now top visit.now }
    ensures next { rest link rows.now top (Some visit.now) ≡ visit.now ∷ rest link rows.now top result }
    ensures within { IfSome result (IsVisit rows.now top) }
{
    match visit.way {
        Way::Enter => Some(inward(rows, link, visit)),
        Way::Leave => outward(rows, link, top, visit),
    }
}

/// The visit after a window is entered: the first window under it is entered, or it is left.
fn inward(rows: &Rows, link: Link, visit: &Visit) -> Visit
    requires { visit.now.way ≡ Way.Enter }
    ensures next { (top : ℕ) → IsVisit rows.now top visit.now → rest link rows.now top (Some visit.now) ≡ visit.now ∷ rest link rows.now top (Some result) }
    ensures within { (top : ℕ) → IsVisit rows.now top visit.now → IsVisit rows.now top result }
{
    if visit.depth > 1 {
        if let Some(window) = first_under(rows, link, visit.window.number, Hwnd(0)) {
            return Visit {
                way: Way::Enter,
                window,
                depth: visit.depth - 1,
            };
        }
    }
    Visit {
        way: Way::Leave,
        ..*visit
    }
}

/// The visit after a window is left: the next window under the same is entered, or that is left. None
/// comes where the walk began.
fn outward(rows: &Rows, link: Link, top: usize, visit: &Visit) -> Option<Visit>
    requires within { IsVisit rows.now top visit.now }
    requires left { visit.now.way ≡ Way.Leave }
    ensures next { rest link rows.now top (Some visit.now) ≡ visit.now ∷ rest link rows.now top result }
    ensures within { IfSome result (IsVisit rows.now top) }
{
    if visit.depth == top {
        return None;
    }
    let above = above_by(link, &visit.window);
    if let Some(window) = first_under(rows, link, above, visit.window.number) {
        return Some(Visit {
            way: Way::Enter,
            window,
            depth: visit.depth,
        });
    }
    match rows.find(above) {
        Some(x) => Some(Visit {
            way: Way::Leave,
            window: *x,
            depth: visit.depth + 1,
        }),
        None => None,
    }
}

/// The window of least number above `past` that stands directly under w.
fn first_under(rows: &Rows, link: Link, w: Hwnd, past: Hwnd) -> Option<Window>
    ensures { result ≡ find (is_past link w.0 past.0) rows.now }
{
    for i in 0..rows.len() {
        let x = rows.at(i);
        if above_by(link, x) == w && past < x.number {
            return Some(*x);
        }
    }
    None
}
