//! The mark of a thread's list, and what is counted of the list.

ghost use Rattle.std.specs.Prelude.{◌≡◌, ◌<◌, ◌≤◌, ◌+◌, ◌-◌, ◌^◌, nat_le, All, IfOk, length, replicate, slice_index_or, slice_set, vec_len};
ghost use Rattle.queue_status.specs.Counts.{MayGo, none_fresh, one_less, one_more};
ghost use Rattle.send_variants.specs.Counts.{no_mark};

use queue_status::Count;
use std::alloc::{AllocError, Global};

/// What is counted of a thread's list: how many entries are there, and how many of them came since the
/// thread's last look.
#[derive(Clone, Copy)]
pub(crate) struct Mark {
    /// The least place of what came since.
    pub(crate) from: u32,
    pub(crate) count: Count,
}

impl Mark {
    /// That of an empty list, before the first look.
    pub(crate) fn none() -> Mark
        ensures { result ≡ no_mark }
    {
        Mark {
            from: 0,
            count: Count::none(),
        }
    }
}

/// The marks of so many empty lists.
pub(crate) fn no_marks(alloc: Global, threads: u8) -> Result<Vec<Mark>, AllocError>
    ensures { IfOk result (λ marks. marks.items ≡ replicate threads no_mark) }
{
    let mut marks = Vec::with_capacity(alloc, usize::from(threads))?;
    for _ in 0..threads {
        marks.push(Mark::none())?;
    }
    Ok(marks)
}

/// Counts an entry that comes at a place.
pub(crate) fn count_in(marks: &mut Vec<Mark>, at: usize, place: u32)
    requires at { at < vec_len marks.old }
    requires few { (slice_index_or marks.old.items at no_mark).count.there ≤ 1024 }
    requires sound { (slice_index_or marks.old.items at no_mark).count.fresh ≤ (slice_index_or marks.old.items at no_mark).count.there }
    ensures { let was = slice_index_or marks.old.items at no_mark in marks.new.items ≡ slice_set marks.old.items at (record was { count = one_more (nat_le was.from place) was.count }) }
{
    let mark = &mut marks[at];
    let is_new = mark.from <= place;
    mark.count.add(is_new);
}

/// Counts an entry that goes, which came at a place.
pub(crate) fn count_out(marks: &mut Vec<Mark>, at: usize, place: u32)
    requires at { at < vec_len marks.old }
    requires sound { (slice_index_or marks.old.items at no_mark).count.fresh ≤ (slice_index_or marks.old.items at no_mark).count.there }
    requires some { MayGo (nat_le (slice_index_or marks.old.items at no_mark).from place) (slice_index_or marks.old.items at no_mark).count }
    ensures { let was = slice_index_or marks.old.items at no_mark in marks.new.items ≡ slice_set marks.old.items at (record was { count = one_less (nat_le was.from place) was.count }) }
{
    let mark = &mut marks[at];
    let is_new = mark.from <= place;
    mark.count.remove(is_new);
}

/// Moves a mark to a place that is above all of its list.
pub(crate) fn look_from(marks: &mut Vec<Mark>, at: usize, place: u32)
    requires { at < vec_len marks.old }
    ensures { marks.new.items ≡ slice_set marks.old.items at (record { from = place; count = none_fresh (slice_index_or marks.old.items at no_mark).count }) }
{
    let mark = &mut marks[at];
    mark.from = place;
    mark.count.look();
}
