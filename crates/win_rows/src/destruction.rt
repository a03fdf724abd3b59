//! The first step of a destruction that wasn't given, searched for without memory.

ghost use Rattle.std.specs.Prelude.{◌≡◌, option_map, find, Some};
ghost use Rattle.win_rows.specs.Windows.{window_of, RisesFrom};
ghost use Rattle.win_rows.specs.Destruction.{destruction_of, is_left, answer_of};
ghost use Rattle.win_rows.specs.Tours.{is_due, own_steps, tour, visit, visit_steps, visited, IsVisit};

use crate::links::Link;
use crate::row::Unmade;
use crate::rows::Rows;
use crate::tour::{Visit, Way, after};
use crate::window::Window;
use win_num::Hwnd;

/// The first step of x's destruction that wasn't given.
pub fn first_left(rows: &Rows, x: &Window) -> Option<Unmade>
    requires live { window_of rows.now x.now.number.0 ≡ Some x.now }
    requires rising { RisesFrom 0 rows.now }
    ensures { result ≡ option_map answer_of (find is_left (destruction_of rows.now x.now)) }
{
    let top = rows.len();
    let mut at = Some(Visit {
        way: Way::Enter,
        window: *x,
        depth: top,
    });
    'visits: while let Some(visit) = at {
        let step = first_of(rows, &visit);
        if step.is_some() {
            return step;
        }
        at = after(rows, Link::Owner, top, &visit);
    }
    None
}

/// The first step of a visit of an owner that wasn't given.
fn first_of(rows: &Rows, visit: &Visit) -> Option<Unmade>
    requires { IsVisit rows.now visit.now.depth visit.now }
    ensures { result ≡ option_map answer_of (find is_left (visit_steps rows.now visit.now)) }
{
    match visit.way {
        Way::Enter => None,
        Way::Leave => first_own(rows, &visit.window, visit.depth),
    }
}

/// The first step of x's own subtree that wasn't given: it is told, then it ends.
fn first_own(rows: &Rows, x: &Window, depth: usize) -> Option<Unmade>
    requires { IsVisit rows.now depth (visit Way.Enter x.now depth) }
    ensures { result ≡ option_map answer_of (find is_left (own_steps depth rows.now x.now)) }
{
    if let Some(w) = first_due(rows, x, depth, Way::Enter) {
        return Some(Unmade::Tell(w));
    }
    match first_due(rows, x, depth, Way::Leave) {
        Some(w) => Some(Unmade::Last(w)),
        None => None,
    }
}

/// The first window on the walk round x and all below it whose step of this way wasn't given.
fn first_due(rows: &Rows, x: &Window, depth: usize, way: Way) -> Option<Hwnd>
    requires { IsVisit rows.now depth (visit Way.Enter x.now depth) }
    ensures { result ≡ option_map visited (find (is_due way) (tour Link.Parent depth rows.now x.now)) }
{
    let mut at = Some(Visit {
        way: Way::Enter,
        window: *x,
        depth,
    });
    'visits: while let Some(visit) = at {
        if visit.is_due(way) {
            return Some(visit.window.number);
        }
        at = after(rows, Link::Parent, depth, &visit);
    }
    None
}
