//! The law of what a get that comes after an ask may answer.

ghost use Rattle.std.specs.Prelude.{◌≡◌, ◌≤◌, ◌↔◌, ℕ, Some, IsSome, IfSome, nat_lt, slice_get, reverse, length};
ghost use Rattle.win_num.specs.declared.message.Thread.{Thread as Caller};
ghost use Rattle.clip_board.specs.Clipboards.{clip_entry};
ghost use Rattle.clip_board.specs.Laws.{entry_at, asks as asks_of, gets as gets_of, sets as sets_of, last_set as last_set_of, format_told, told_at, GetsAfterAsk, WasSet, WasLastSet};

use crate::clip::Clip;
use crate::entry::{ClipAnswer, ClipCall, ClipEntry};

/// The format of a `Get` that was told to ask for it.
fn asks(entry: &ClipEntry) -> Option<u32>
    ensures { result ≡ asks_of entry.now.call entry.now.answer }
{
    match entry.call {
        ClipCall::Get { format } => match entry.answer {
            ClipAnswer::Ask(_) => Some(format),
            _ => None,
        },
        _ => None,
    }
}

/// The format of a `Get` that was told the data.
fn gets(entry: &ClipEntry) -> Option<u32>
    ensures { result ≡ gets_of entry.now.call entry.now.answer }
{
    match entry.call {
        ClipCall::Get { format } => match entry.answer {
            ClipAnswer::Value(_) => Some(format),
            _ => None,
        },
        _ => None,
    }
}

/// Whether the entry sets that format.
fn sets(entry: &ClipEntry, format: u32) -> bool
    ensures { result ≡ sets_of format entry.now }
{
    match entry.answer {
        ClipAnswer::Refused(_) => false,
        _ => match entry.call {
            ClipCall::Set { format: set, .. } => set == format,
            _ => false,
        },
    }
}

/// The place of the last entry that sets the format.
fn last_set(history: &[ClipEntry], format: u32) -> Option<u32>
    requires { length history.now ≤ 2097152 }
    ensures { result ≡ last_set_of format (reverse history.now) }
{
    let mut rest = history;
    while let Some((last, earlier)) = rest.split_last() {
        if sets(last, format) {
            return Some(earlier.len() as u32);
        }
        rest = earlier;
    }
    None
}

/// The format that one thread got twice, where it was told to ask for it first and was told the data then.
fn format_of_both(asked: &ClipEntry, got: &ClipEntry) -> Option<u32>
    ensures { result ≡ format_told asked.now got.now }
{
    let format = asks(asked)?;
    let told = gets(got)?;
    if format == told && asked.who.0 == got.who.0 {
        Some(format)
    } else {
        None
    }
}

/// The same of the entries at two places, the first below the second.
fn format_got(history: &[ClipEntry], first: u32, second: u32) -> Option<u32>
    ensures { result ≡ told_at (slice_get history.now first) (slice_get history.now second) (nat_lt first second) }
{
    let asked = history.get(first as usize)?;
    let got = history.get(second as usize)?;
    if first < second {
        format_of_both(asked, got)
    } else {
        None
    }
}

/// The law of what a get that comes after an ask may answer. Where one thread got one format at both places of the history,
/// at the first was told to ask the owner, and at the second was told the data, it tells the place of the last `Set` of
/// the format before the second that wasn't refused. That place is behind the first, what it set is what was told, and it
/// was set by the thread that owned the clipboard at the first, by the getting thread itself, or after an `Empty` or a
/// `Close` in between that wasn't refused. None comes exactly where the two places are no such gets. And each `Get` of
/// the history that was told data was told what the last `Set` of the format before it set (Microsoft, Delayed
/// rendering).
pub fn get_law(clip: &Clip, first: u32, second: u32) -> Option<u32>
    ensures exact { IsSome result ↔ GetsAfterAsk clip.now first second }
    ensures law { IfSome result (λ place. WasSet clip.now first second place) }
    ensures one_get { (place f v : ℕ) (who : Caller) → entry_at clip.now place ≡ Some (clip_entry who (ClipCall.Get f) (ClipAnswer.Value v)) → WasLastSet clip.now f v place }
{
    let history = clip.history();
    match format_got(history, first, second) {
        Some(format) => last_set(&history[..second as usize], format),
        None => None,
    }
}
