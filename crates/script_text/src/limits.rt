//! The limits of a script.

ghost use Rattle.std.specs.Prelude.{◌≡◌, Some};
ghost use Rattle.script_lines.specs.NameLimits.{seen_with, seen_with_part, seen_after, begun_with, begun_with_part, named_with, begun_after};

use statement_table::Part;

/// How many bytes the text of a script has at most.
pub const SCRIPT_LIMIT: usize = 1048576;

/// How many threads a script has at most.
pub const THREAD_LIMIT: usize = 15;

/// How many names there are after one more, where there were so many. None comes where it is neither
/// one of them nor the next.
fn seen_with(count: usize, seen: usize, place: u32) -> Option<usize>
    ensures { result ≡ seen_with count (Some seen) place }
{
    if (place as usize) < seen {
        return Some(seen);
    }
    if place as usize == seen && seen < count {
        return Some(seen + 1);
    }
    None
}

/// How many names there are after one more part of a line, where there were so many.
fn seen_with_part(count: usize, seen: usize, part: Part) -> Option<usize>
    ensures { result ≡ seen_with_part count (Some seen) part }
{
    match part {
        Part::Name(name) => seen_with(count, seen, name),
        _ => Some(seen),
    }
}

/// How many names there are after these parts of a line, where there were so many before.
pub fn seen_in(count: usize, before: usize, parts: &[Part]) -> Option<usize>
    ensures { result ≡ seen_after count (Some before) parts.now }
{
    let mut seen = before;
    for part in parts {
        seen = seen_with_part(count, seen, *part)?;
    }
    Some(seen)
}

/// How many procedures have begun after one more begins, where so many had. None comes where it isn't the
/// next.
fn begun_with(count: usize, begun: usize, place: u32) -> Option<usize>
    ensures { result ≡ begun_with count (Some begun) place }
{
    if place as usize == begun && begun < count {
        Some(begun + 1)
    } else {
        None
    }
}

/// How many procedures have begun after one is named, where so many had. None comes where it is none of them.
fn named_with(begun: usize, place: u32) -> Option<usize>
    ensures { result ≡ named_with (Some begun) place }
{
    if (place as usize) < begun {
        Some(begun)
    } else {
        None
    }
}

/// How many procedures have begun after one more part of a line, where so many had.
fn begun_with_part(count: usize, begun: usize, part: Part) -> Option<usize>
    ensures { result ≡ begun_with_part count (Some begun) part }
{
    match part {
        Part::Beginning(place) => begun_with(count, begun, place),
        Part::Procedure(place) => named_with(begun, place),
        _ => Some(begun),
    }
}

/// How many procedures have begun after these parts of a line, where so many had before.
pub fn begun_in(count: usize, before: usize, parts: &[Part]) -> Option<usize>
    ensures { result ≡ begun_after count (Some before) parts.now }
{
    let mut begun = before;
    for part in parts {
        begun = begun_with_part(count, begun, *part)?;
    }
    Some(begun)
}
