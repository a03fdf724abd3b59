//! Two regions in bands, swept over from top to bottom.

ghost use Rattle.std.specs.Prelude.{◌≡◌, ◌≤ℤ◌, ◌<ℤ◌, pos, negsuc, All, IfOk, OnOk};
ghost use Rattle.std.specs.List.{AllPairs};
ghost use Rattle.band_region.specs.Regions.{IsBefore};
ghost use Rattle.band_region.specs.Columns.{IsRow};
ghost use Rattle.band_region.specs.Bands.{IsRowsAt, IsBelow, IsBandAdded, IsMixed};

use crate::columns::{FAR, Mix, Span, mixed_row};
use crate::pieces::known_rect;
use std::alloc::{AllocError, Global};
use win_num::Rect;

/// How many rectangles have pixels in the rows up to an end.
#[derive(Clone, Copy)]
pub(crate) struct Rows {
    count: usize,
    end: i32,
}

/// How many rectangles of the list, which has nothing above row `y`, have pixels in this row, and up
/// to which row these and no others have some.
fn rows_at(rects: &[Rect], y: i32) -> Rows
    requires apart { AllPairs IsBefore rects.now }
    requires ahead { All (λ r. y <ℤ r.b) rects.now }
    requires near { y <ℤ pos 8388608 }
    ensures { IsRowsAt rects.now y result }
{
    let mut end = FAR;
    for (count, rect) in rects.iter().enumerate() {
        if rect.t() > y {
            return Rows {
                count,
                end: end.min(rect.t()),
            };
        }
        end = rect.b();
    }
    Rows {
        count: rects.len(),
        end,
    }
}

/// The rectangles that have a pixel from row `y` on.
fn below(rects: &[Rect], y: i32) -> &[Rect]
    requires { AllPairs IsBefore rects.now }
    ensures { IsBelow rects.now y result.now }
{
    for (place, rect) in rects.iter().enumerate() {
        if rect.b() > y {
            return rects.split_at(place).1;
        }
    }
    &[]
}

/// Adds the columns of the row in each row from `top` up to `bottom`.
fn push_band(rects: &mut Vec<Rect>, row: &[Span], top: i32, bottom: i32) -> Result<(), AllocError>
    requires row { IsRow row.now }
    requires down { All (λ _. top <ℤ bottom) row.now }
    requires top_near { negsuc 8388607 ≤ℤ top }
    requires bottom_near { bottom ≤ℤ pos 8388608 }
    requires above { All (λ r. r.b ≤ℤ top) rects.old.items }
    ensures { OnOk result (IsBandAdded rects.old.items row.now top bottom rects.new.items) }
{
    for span in row {
        rects.push(known_rect(span.l, top, span.r, bottom))?;
    }
    Ok(())
}

/// The pixels that are kept of two regions in bands, in bands. The rows from `top` on have the columns
/// of `row`; they become a band where a row comes that differs.
pub(crate) fn mixed(
    alloc: Global,
    first: &[Rect],
    second: &[Rect],
    mix: Mix,
) -> Result<Vec<Rect>, AllocError>
    requires first_apart { AllPairs IsBefore first.now }
    requires second_apart { AllPairs IsBefore second.now }
    ensures { IfOk result (λ v. IsMixed mix first.now second.now v.items) }
{
    let mut rects = Vec::new(alloc);
    let mut row = Vec::new(alloc);
    let mut top = -FAR;
    let mut y = top;
    let mut ones = below(first, y);
    let mut others = below(second, y);
    while y < FAR {
        let one = rows_at(ones, y);
        let other = rows_at(others, y);
        let next = mixed_row(alloc, &ones[..one.count], &others[..other.count], mix)?;
        if next != row {
            push_band(&mut rects, row.as_slice(), top, y)?;
            top = y;
        }
        row = next;
        y = one.end.min(other.end);
        ones = below(ones, y);
        others = below(others, y);
    }
    push_band(&mut rects, row.as_slice(), top, FAR)?;
    Ok(rects)
}
