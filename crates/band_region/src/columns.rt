//! The columns of one row of pixels, as spans from left to right.

ghost use Rattle.std.specs.Prelude.{◌≡◌, ◌≤ℤ◌, ◌<ℤ◌, pos, negsuc, All, IfOk, OnOk};
ghost use Rattle.std.specs.List.{AllPairs};
ghost use Rattle.band_region.specs.Columns.{kept, IsLeftOf, IsStretch, IsRightOf, IsRow, IsSpanAdded, IsMixedRow};

use std::alloc::{AllocError, Global};
use win_num::Rect;

/// How far an edge may be from 0, in pixels.
pub(crate) const FAR: i32 = 8388608;

/// Which pixels are kept of two regions (Microsoft, CombineRgn function).
#[derive(Clone, Copy)]
pub(crate) enum Mix {
    /// Those of both.
    And,
    /// Those of one or both.
    Or,
    /// Those of exactly one.
    Xor,
    /// Those of the first one alone.
    Diff,
}

impl Mix {
    /// Whether a pixel is kept, by whether the first and the second region has it.
    pub(crate) fn keeps(self, first: bool, second: bool) -> bool
        ensures { result ≡ kept self first second }
    {
        match self {
            Mix::And => first && second,
            Mix::Or => first || second,
            Mix::Xor => first != second,
            Mix::Diff => first && !second,
        }
    }
}

/// Columns from the left one up to the right one, that one left out.
#[derive(Clone, Copy, PartialEq, Eq)]
pub(crate) struct Span {
    pub(crate) l: i32,
    pub(crate) r: i32,
}

/// Whether the columns up to an end are inside.
#[derive(Clone, Copy)]
pub(crate) struct Stretch {
    inside: bool,
    end: i32,
}

/// Whether the rectangles of a row have column `x`, and up to which column this stays so.
fn stretch_at(row: &[Rect], x: i32) -> Stretch
    requires apart { AllPairs IsLeftOf row.now }
    requires ahead { All (λ r. x <ℤ r.r) row.now }
    requires near { x <ℤ pos 8388608 }
    ensures { IsStretch row.now x result }
{
    let Some((first, _)) = row.split_first() else {
        return Stretch {
            inside: false,
            end: FAR,
        };
    };
    if first.l() <= x {
        Stretch {
            inside: true,
            end: first.r(),
        }
    } else {
        Stretch {
            inside: false,
            end: first.l(),
        }
    }
}

/// The rectangles of a row that have a column from `x` on.
fn right_of(row: &[Rect], x: i32) -> &[Rect]
    requires { AllPairs IsLeftOf row.now }
    ensures { IsRightOf row.now x result.now }
{
    for (place, rect) in row.iter().enumerate() {
        if rect.r() > x {
            return row.split_at(place).1;
        }
    }
    &[]
}

/// Adds the columns from `l` up to `r`, joined to the last span where they touch it.
fn push_span(spans: &mut Vec<Span>, l: i32, r: i32) -> Result<(), AllocError>
    requires row { IsRow spans.old.items }
    requires ended { All (λ s. s.r ≤ℤ l) spans.old.items }
    requires across { l <ℤ r }
    requires left_near { negsuc 8388607 ≤ℤ l }
    requires right_near { r ≤ℤ pos 8388608 }
    ensures { OnOk result (IsSpanAdded spans.old.items l r spans.new.items) }
{
    if let Some(last) = spans.last_mut() {
        if last.r == l {
            last.r = r;
            return Ok(());
        }
    }
    spans.push(Span { l, r })?;
    Ok(())
}

/// The columns that are kept of two rows.
pub(crate) fn mixed_row(
    alloc: Global,
    first: &[Rect],
    second: &[Rect],
    mix: Mix,
) -> Result<Vec<Span>, AllocError>
    requires first_apart { AllPairs IsLeftOf first.now }
    requires second_apart { AllPairs IsLeftOf second.now }
    ensures { IfOk result (λ v. IsMixedRow mix first.now second.now v.items) }
{
    let mut spans = Vec::new(alloc);
    let mut x = -FAR;
    let mut ones = right_of(first, x);
    let mut others = right_of(second, x);
    while x < FAR {
        let one = stretch_at(ones, x);
        let other = stretch_at(others, x);
        let end = one.end.min(other.end);
        if mix.keeps(one.inside, other.inside) {
            push_span(&mut spans, x, end)?;
        }
        x = end;
        ones = right_of(ones, x);
        others = right_of(others, x);
    }
    Ok(spans)
}
