//! The messages that a compound sends after its first call, one row for each compound.

ghost use Rattle.std.specs.Prelude.{◌≡◌, ◌≤◌, if◌then◌else◌, None};
ghost use Rattle.user_model.specs.Windows.{has_flag as has_flag_of};
ghost use Rattle.script_tree.specs.Notices.{number_in, message as message_of, where_so as where_so_of, all_of, next_notice, others as others_of, low_word as low_word_of, packed as packed_of, distance as distance_of, is_other as is_other_of, shown as shown_by, enabled as enabled_by, placed as placed_by, focused as focused_by, activated as activated_by, captured as captured_by, painted as painted_by, updated as updated_by, notices_after as notices_by, result_after as result_by};

use crate::frame::{Notice, Notices};
use crate::messages::{
    WM_ACTIVATE, WM_CANCELMODE, WM_CAPTURECHANGED, WM_ENABLE, WM_ERASEBKGND, WM_KILLFOCUS, WM_MOVE,
    WM_PAINT, WM_SETFOCUS, WM_SHOWWINDOW, WM_SIZE,
};
use user_model::{Answer, Call};
use win_num::names::SWP_SHOWWINDOW;

/// The number that an answer tells: a value; the window that is there or was there; the kind of the pixels that
/// are to be painted; 1 where the background is to be erased. It is 0 where it tells none.
pub fn told_number(answer: &Answer) -> u64
    ensures { result ≡ number_in answer.now }
{
    match answer {
        Answer::Value(value) => *value,
        Answer::Window(window) => u64::from(window.0),
        Answer::Was(window) => u64::from(window.0),
        Answer::Update { kind, .. } => u64::from(*kind),
        Answer::Painting { erase, .. } => u64::from(*erase),
        _ => 0,
    }
}

impl Notices {
    /// The first of them that is there.
    pub fn next(&self) -> Option<Notice>
        ensures { result ≡ next_notice self.now }
    {
        self.first.or(self.second).or(self.third)
    }

    /// They without that one.
    pub fn others(&self) -> Notices
        ensures { result ≡ others_of self.now }
    {
        match self.first {
            Some(_) => all(None, self.second, self.third),
            None => match self.second {
                Some(_) => all(None, None, self.third),
                None => none(),
            },
        }
    }
}

/// These messages.
fn all(first: Option<Notice>, second: Option<Notice>, third: Option<Notice>) -> Notices
    ensures { result ≡ all_of first second third }
{
    Notices {
        first,
        second,
        third,
    }
}

/// No message.
fn none() -> Notices
    ensures { result ≡ all_of None None None }
{
    all(None, None, None)
}

/// A message.
fn message(window: u64, number: u32, wparam: u64, lparam: u64) -> Notice
    ensures { result ≡ message_of window number wparam lparam }
{
    Notice {
        window,
        number,
        wparam,
        lparam,
    }
}

/// The message where the test holds.
fn where_so(test: bool, notice: Notice) -> Option<Notice>
    ensures { result ≡ where_so_of test notice }
{
    if test { Some(notice) } else { None }
}

/// 1 where the test holds, and 0 where it doesn't.
fn one_where(test: bool) -> u64
    ensures { result ≡ (if test then 1 else 0) }
{
    if test { 1 } else { 0 }
}

fn has_flag(flags: u64, bits: u64) -> bool
    ensures { result ≡ has_flag_of flags bits }
{
    flags & bits == bits
}

/// A coordinate modulo 65536 (Microsoft, MAKELPARAM macro).
fn low_word(coordinate: i64) -> u64
    ensures word { result ≡ low_word_of coordinate }
    ensures small { result ≤ 65535 }
{
    coordinate.cast_unsigned() % 65536
}

/// Two coordinates in one number, the second in its high word.
fn packed(x: u64, y: u64) -> u64
    requires x { x ≤ 65535 }
    requires y { y ≤ 65535 }
    ensures { result ≡ packed_of x y }
{
    x + 65536 * y
}

/// From one coordinate to another, modulo 65536.
fn distance(from: i64, to: i64) -> u64
    ensures word { result ≡ distance_of from to }
    ensures small { result ≤ 65535 }
{
    (low_word(to) + 65536 - low_word(from)) % 65536
}

/// Whether it is a window, and another than the second.
fn is_other(window: u64, than: u64) -> bool
    ensures { result ≡ is_other_of window than }
{
    window != than && window != 0
}

/// `show_window`: where it changed (Microsoft, WM_SHOWWINDOW message).
fn shown(window: u64, on: u64, was: u64) -> Notices
    ensures { result ≡ shown_by window on was }
{
    let show = message(window, WM_SHOWWINDOW, on, 0);
    all(where_so(was != on, show), None, None)
}

/// `enable_window`: where it changed, which is where what was disabled is enabled, or the other way round
/// (Microsoft, WM_CANCELMODE and WM_ENABLE messages).
fn enabled(window: u64, on: u64, was: u64) -> Notices
    ensures { result ≡ enabled_by window on was }
{
    let cancel = message(window, WM_CANCELMODE, 0, 0);
    let enable = message(window, WM_ENABLE, on, 0);
    all(
        where_so(was == on && on == 0, cancel),
        where_so(was == on, enable),
        None,
    )
}

/// `set_window_pos`: the new corner, the new size, and whether it is shown now, as far as they changed
/// (Microsoft, WM_MOVE, WM_SIZE and WM_SHOWWINDOW messages).
fn placed(
    window: u64,
    left: i64,
    top: i64,
    right: i64,
    bottom: i64,
    flags: u64,
    changed: u64,
) -> Notices
    ensures { result ≡ placed_by window left top right bottom flags changed }
{
    let corner = packed(low_word(left), low_word(top));
    let size = packed(distance(left, right), distance(top, bottom));
    let on = one_where(has_flag(flags, SWP_SHOWWINDOW));
    all(
        where_so(has_flag(changed, 1), message(window, WM_MOVE, 0, corner)),
        where_so(has_flag(changed, 2), message(window, WM_SIZE, 0, size)),
        where_so(has_flag(changed, 4), message(window, WM_SHOWWINDOW, on, 0)),
    )
}

/// `set_focus` after this window had the focus (Microsoft, WM_KILLFOCUS and WM_SETFOCUS messages).
fn focused(window: u64, was: u64) -> Notices
    ensures { result ≡ focused_by window was }
{
    all(
        where_so(is_other(was, window), message(was, WM_KILLFOCUS, window, 0)),
        where_so(is_other(window, was), message(window, WM_SETFOCUS, was, 0)),
        None,
    )
}

/// `set_active` after this window was the active one (Microsoft, WM_ACTIVATE message).
fn activated(window: u64, was: u64) -> Notices
    ensures { result ≡ activated_by window was }
{
    all(
        where_so(is_other(was, window), message(was, WM_ACTIVATE, 0, window)),
        where_so(is_other(window, was), message(window, WM_ACTIVATE, 1, was)),
        None,
    )
}

/// `set_capture`, and for 0 `release_capture`, after this window had the capture (Microsoft, WM_CAPTURECHANGED
/// message).
fn captured(window: u64, was: u64) -> Notices
    ensures { result ≡ captured_by window was }
{
    let lost = message(was, WM_CAPTURECHANGED, 0, window);
    all(where_so(is_other(was, window), lost), None, None)
}

/// `begin_paint`: where the background is to be erased (Microsoft, WM_ERASEBKGND message).
fn painted(window: u64, erases: u64) -> Notices
    ensures { result ≡ painted_by window erases }
{
    let erase = message(window, WM_ERASEBKGND, 0, 0);
    all(where_so(erases == 1, erase), None, None)
}

/// `update_window`: where something is to be painted, which is any kind but 1 (Microsoft, WM_PAINT message).
fn updated(window: u64, kind: u64) -> Notices
    ensures { result ≡ updated_by window kind }
{
    let paint = message(window, WM_PAINT, 0, 0);
    all(where_so(kind != 1, paint), None, None)
}

/// The messages that a compound sends after its first call, where the answer to that told this number.
pub fn notices_after(call: &Call, told: u64) -> Notices
    ensures { result ≡ notices_by call.now told }
{
    match call {
        Call::Show(window, on) => shown(*window, *on, told),
        Call::Enable(window, on) => enabled(*window, *on, told),
        Call::Place(window, _, left, top, right, bottom, flags) => {
            placed(*window, *left, *top, *right, *bottom, *flags, told)
        }
        Call::SetFocus(window) => focused(*window, told),
        Call::SetActive(window) => activated(*window, told),
        Call::SetCapture(window) => captured(*window, told),
        Call::ReleaseCapture => captured(0, told),
        Call::BeginPaint(window) => painted(*window, told),
        Call::UpdateRect(window) => updated(*window, told),
        _ => none(),
    }
}

/// The result of such a compound: what its first call told, and 1 for those that place and paint.
pub fn result_after(call: &Call, told: u64) -> u64
    ensures { result ≡ result_by call.now told }
{
    match call {
        Call::Place(_, _, _, _, _, _, _) => 1,
        Call::BeginPaint(_) => 1,
        Call::UpdateRect(_) => 1,
        _ => told,
    }
}
