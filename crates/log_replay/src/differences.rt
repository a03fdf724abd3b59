//! Where frames and endings differ.

ghost use Rattle.std.specs.Prelude.{◌≡◌, ◌<◌, ◌^◌, ◌↔◌, List, length, slice_get, IsTrue, Some, IfSome, IsNone};
ghost use Rattle.log_text.specs.Frames.{rows};
ghost use Rattle.log_replay.specs.Replays.{DifferAt};

use crate::same::{same_line, same_text};
use illegal_text::{EndingLine, split_row};

/// The first row, from 0, in which two frames of this width and height differ, if there is one.
pub fn first_row(width: u16, height: u16, found: &[u8], right: &[u8]) -> Option<u32>
    ensures differ { IfSome result (λ row. DifferAt (rows width height found.now) (rows width height right.now) row) }
    ensures same { IsNone result → rows width height found.now ≡ rows width height right.now }
{
    let mut found_rest = found;
    let mut right_rest = right;
    for row in 0..height {
        let (found_row, found_below) = split_row(width, found_rest);
        let (right_row, right_below) = split_row(width, right_rest);
        if !same_text(found_row, right_row) {
            return Some(u32::from(row));
        }
        found_rest = found_below;
        right_rest = right_below;
    }
    None
}

/// Whether this line stands at a place.
fn has_line(lines: &[EndingLine], place: usize, line: EndingLine) -> bool
    ensures { IsTrue result ↔ (slice_get lines.now place ≡ Some line) }
{
    match lines.get(place) {
        Some(found) => same_line(*found, line),
        None => false,
    }
}

/// The first line, from 0, in which two endings differ, if there is one.
pub fn first_line(found: &[EndingLine], right: &[EndingLine]) -> Option<u32>
    requires few { length right.now < 2 ^ 32 }
    ensures differ { IfSome result (λ line. DifferAt found.now right.now line) }
    ensures same { IsNone result → found.now ≡ right.now }
{
    for place in 0..right.len() {
        if !has_line(found, place, right[place]) {
            return Some(place as u32);
        }
    }
    if found.len() == right.len() {
        None
    } else {
        Some(right.len() as u32)
    }
}
