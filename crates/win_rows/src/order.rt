//! The order of a destruction, listed from its end.

ghost use Rattle.std.specs.Prelude.{◌≡◌, ◌-◌, ◌≤◌, ◌++◌, ◌∷◌, [], map, reverse, IfSome, OnSome};
ghost use Rattle.std.specs.List.{flat_map};
ghost use Rattle.win_rows.specs.Destruction.{answer_of, destruction_of, children_of, owned_by};
ghost use Rattle.win_rows.specs.Links.{IsUnder};
ghost use Rattle.win_rows.specs.Parts.{parts_of, part_steps};

use crate::links::{Link, Under, grouped, of};
use crate::row::Unmade;
use crate::rows::Rows;
use crate::window::Window;
use std::alloc::Global;

/// A bound on the parts of a destruction: four of each of 1,024 windows, and one look more.
const PARTS: usize = 4097;

/// Which steps of a window are still to be listed.
#[derive(Clone, Copy, Drop)]
pub enum Kind {
    /// Those of its whole destruction.
    Whole,
    /// That it and all below it are told.
    Told,
    /// That it alone is told.
    Alone,
    /// The last messages of all below it and its own.
    Ended,
}

/// Steps that are still to be listed. The depth bounds how far down from the window they go.
#[derive(Clone, Copy, Drop)]
pub struct Part {
    pub kind: Kind,
    pub window: Window,
    pub depth: usize,
}

/// The steps of x's destruction in their order. None comes where memory wants.
pub fn steps_of(alloc: Global, rows: &Rows, x: &Window) -> Option<Vec<Unmade>>
    ensures { IfSome result (λ steps. steps.items ≡ map answer_of (destruction_of rows.now x.now)) }
{
    let children = grouped(alloc, rows, Link::Parent)?;
    let owned = grouped(alloc, rows, Link::Owner)?;
    let mut parts = Vec::new(alloc);
    let mut steps = Vec::new(alloc);
    put(&mut parts, Kind::Whole, *x, rows.len())?;
    'lists: for _ in 0..PARTS {
        let Some(part) = parts.pop() else {
            steps.reverse();
            return Some(steps);
        };
        list(rows, &children, &owned, part, &mut parts, &mut steps)?;
    }
    None
}

/// Lists the last steps of a part, and puts back what is left of it. None comes where memory wants, where the
/// window isn't live, or without depth.
fn list(
    rows: &Rows,
    children: &Under,
    owned: &Under,
    part: Part,
    parts: &mut Vec<Part>,
    steps: &mut Vec<Unmade>,
) -> Option<()>
    requires children { (children.now.link ≡ Link.Parent) × IsUnder rows.now children.now }
    requires owned { (owned.now.link ≡ Link.Owner) × IsUnder rows.now owned.now }
    ensures { OnSome result (flat_map (part_steps rows.now) parts.new.items ++ reverse steps.new.items ≡ flat_map (part_steps rows.now) parts.old.items ++ (part_steps rows.now part ++ reverse steps.old.items)) }
{
    let x = part.window;
    if part.depth == 0 {
        return None;
    }
    match part.kind {
        Kind::Alone => put_step(steps, Unmade::Tell(x.number)),
        Kind::Whole => put_whole(rows, owned, x, part.depth, parts),
        Kind::Told => put_told(rows, children, x, part.depth, parts),
        Kind::Ended => {
            put_step(steps, Unmade::Last(x.number))?;
            put_ended(rows, children, x, part.depth, parts)
        }
    }
}

/// Puts the destructions of the windows that x owns, and then what is left of its own.
fn put_whole(
    rows: &Rows,
    owned: &Under,
    x: Window,
    depth: usize,
    parts: &mut Vec<Part>,
) -> Option<()>
    requires owned { (owned.now.link ≡ Link.Owner) × IsUnder rows.now owned.now }
    requires deep { 1 ≤ depth }
    ensures { OnSome result (parts.new.items ≡ parts.old.items ++ (parts_of Kind.Whole (depth - 1) (owned_by rows.now x) ++ (parts_of Kind.Told depth (x ∷ []) ++ parts_of Kind.Ended depth (x ∷ [])))) }
{
    let windows = of(rows, owned, x.number)?;
    put_each(parts, Kind::Whole, windows, depth - 1)?;
    put(parts, Kind::Told, x, depth)?;
    put(parts, Kind::Ended, x, depth)
}

/// Puts that x is told, and then that all below it are.
fn put_told(
    rows: &Rows,
    children: &Under,
    x: Window,
    depth: usize,
    parts: &mut Vec<Part>,
) -> Option<()>
    requires children { (children.now.link ≡ Link.Parent) × IsUnder rows.now children.now }
    requires deep { 1 ≤ depth }
    ensures { OnSome result (parts.new.items ≡ parts.old.items ++ (parts_of Kind.Alone depth (x ∷ []) ++ parts_of Kind.Told (depth - 1) (children_of rows.now x))) }
{
    let windows = of(rows, children, x.number)?;
    put(parts, Kind::Alone, x, depth)?;
    put_each(parts, Kind::Told, windows, depth - 1)
}

/// Puts the last messages of all below x.
fn put_ended(
    rows: &Rows,
    children: &Under,
    x: Window,
    depth: usize,
    parts: &mut Vec<Part>,
) -> Option<()>
    requires children { (children.now.link ≡ Link.Parent) × IsUnder rows.now children.now }
    requires deep { 1 ≤ depth }
    ensures { OnSome result (parts.new.items ≡ parts.old.items ++ parts_of Kind.Ended (depth - 1) (children_of rows.now x)) }
{
    let windows = of(rows, children, x.number)?;
    put_each(parts, Kind::Ended, windows, depth - 1)
}

/// Puts a part of a window.
fn put(parts: &mut Vec<Part>, kind: Kind, window: Window, depth: usize) -> Option<()>
    ensures { OnSome result (parts.new.items ≡ parts.old.items ++ parts_of kind depth (window ∷ [])) }
{
    if parts
        .push(Part {
            kind,
            window,
            depth,
        })
        .is_err()
    {
        return None;
    }
    Some(())
}

/// Puts a part of each of these windows.
fn put_each(parts: &mut Vec<Part>, kind: Kind, windows: &[Window], depth: usize) -> Option<()>
    ensures { OnSome result (parts.new.items ≡ parts.old.items ++ parts_of kind depth windows.now) }
{
    for x in windows {
        put(parts, kind, *x, depth)?;
    }
    Some(())
}

/// Lists a step.
pub fn put_step(steps: &mut Vec<Unmade>, step: Unmade) -> Option<()>
    ensures { OnSome result (steps.new.items ≡ steps.old.items ++ step ∷ []) }
{
    if steps.push(step).is_err() {
        return None;
    }
    Some(())
}
