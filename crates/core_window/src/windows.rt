//! What the calls on classes and windows answer.

ghost use Rattle.std.specs.Prelude.{◌≡◌, false};
ghost use Rattle.user_model.specs.Past.{is_full};
ghost use Rattle.user_model.specs.ReplyWindows.{await_title_reply, child_after_reply, doom_reply, drop_reply, enable_reply, find_reply, is_no_parent, is_no_placing, is_no_style, is_order, is_sibling, is_window_reply, new_window_reply, next_top_reply, parent_reply, place_reply, register_reply, show_reply, style_of_reply, unmake_reply, unregister_reply, window_at_reply, window_if_room};
ghost use Rattle.user_model.specs.Windows.{has_flag};

use crate::codes::{
    CANNOT_FIND_CLASS, CHILD_WITHOUT_PARENT, CLASS_ALREADY_EXISTS, CLASS_DOES_NOT_EXIST,
    CLASS_HAS_WINDOWS,
};
use core_deliver::codes::{ACCESS_DENIED, INVALID_PARAMETER, INVALID_WINDOW_HANDLE};
use core_deliver::{if_own, is_no_rect};
use core_state::{CoreState, Edges, Placing};
use user_model::Answer;
use win_num::names::{
    SWP_HIDEWINDOW, SWP_NOACTIVATE, SWP_NOCOPYBITS, SWP_NOMOVE, SWP_NOSIZE, SWP_NOZORDER,
    SWP_SHOWWINDOW, WS_CHILD, WS_DISABLED, WS_EX_TOPMOST, WS_POPUP, WS_VISIBLE,
};
use win_num::{Code, Hwnd};

/// The greatest colour of a class.
const LAST_COLOUR: u64 = 15;

/// How many windows may be live.
const WINDOW_LIMIT: usize = 1024;

/// The styles that a window may have.
const KNOWN_STYLES: u64 = WS_CHILD + WS_POPUP + WS_DISABLED + WS_VISIBLE;

/// The flags of a placing.
const KNOWN_PLACINGS: u64 = SWP_NOSIZE
    + SWP_NOMOVE
    + SWP_NOZORDER
    + SWP_NOACTIVATE
    + SWP_SHOWWINDOW
    + SWP_HIDEWINDOW
    + SWP_NOCOPYBITS;

/// The answer of a class's registration.
pub fn register_answer(state: &CoreState, name: u32, colour: u64) -> Answer
    ensures { result ≡ register_reply state.now.past name colour }
{
    if colour > LAST_COLOUR {
        return Answer::Refused(INVALID_PARAMETER);
    }
    if state.has_class(name) {
        return Answer::Refused(CLASS_ALREADY_EXISTS);
    }
    if state.classes_are_full() {
        return Answer::Refused(Code::Full);
    }
    Answer::Value(u64::from(state.registered_count()) + 1)
}

/// The answer where a class is to be taken back.
pub fn unregister_answer(state: &CoreState, name: u32) -> Answer
    ensures { result ≡ unregister_reply state.now.past name }
{
    if !state.has_class(name) {
        return Answer::Refused(CLASS_DOES_NOT_EXIST);
    }
    if state.is_used(name) {
        return Answer::Refused(CLASS_HAS_WINDOWS);
    }
    Answer::Okay
}

/// What is asked of a new window: its class, its parent or owner, its styles.
#[derive(Clone, Copy)]
pub struct NewWindow {
    pub class: u32,
    pub parent: u64,
    pub style: u64,
    pub ex: u64,
}

/// Whether the flags have the bits.
fn has_flag(flags: u64, bits: u64) -> bool
    ensures { result ≡ has_flag flags bits }
{
    flags & bits == bits
}

/// Whether a style is unknown, or a child would be a popup or topmost, or an extended style isn't
/// topmost.
fn is_no_style(style: u64, ex: u64) -> bool
    ensures { result ≡ is_no_style style ex }
{
    if style & KNOWN_STYLES != style {
        return true;
    }
    let is_child = has_flag(style, WS_CHILD);
    if is_child && has_flag(style, WS_POPUP) {
        return true;
    }
    if ex != 0 && ex != WS_EX_TOPMOST {
        return true;
    }
    ex == WS_EX_TOPMOST && is_child
}

/// Whether the number is neither 0 nor a live window that isn't marked.
fn is_no_parent(state: &CoreState, parent: u64) -> bool
    ensures { result ≡ is_no_parent state.now.past parent }
{
    if parent == 0 {
        return false;
    }
    !state.is_live(parent) || state.is_marked(parent)
}

/// The number of a new window, where there is room for it.
fn window_if_room(state: &CoreState) -> Answer
    requires { is_full state.now.past ≡ false }
    ensures { result ≡ window_if_room state.now.past }
{
    if state.window_count() >= WINDOW_LIMIT {
        return Answer::Refused(Code::Full);
    }
    Answer::Window(state.next_window())
}

/// The answer where a window is to be made.
pub fn new_window_answer(state: &CoreState, who: u8, making: NewWindow, edges: Edges) -> Answer
    requires { is_full state.now.past ≡ false }
    ensures { result ≡ new_window_reply state.now.past who making.class making.parent making.style making.ex edges.l edges.t edges.r edges.b }
{
    if is_no_rect(edges) || is_no_style(making.style, making.ex) {
        return Answer::Refused(INVALID_PARAMETER);
    }
    if is_no_parent(state, making.parent) {
        return Answer::Refused(INVALID_WINDOW_HANDLE);
    }
    if making.parent != 0 && state.thread_of(making.parent) != who {
        return Answer::Refused(ACCESS_DENIED);
    }
    if has_flag(making.style, WS_CHILD) && making.parent == 0 {
        return Answer::Refused(CHILD_WITHOUT_PARENT);
    }
    if !state.has_class(making.class) {
        return Answer::Refused(CANNOT_FIND_CLASS);
    }
    window_if_room(state)
}

/// The answer where a window is to be marked with its kin.
pub fn doom_answer(state: &CoreState, who: u8, w: u64) -> Answer
    ensures { result ≡ doom_reply state.now.past who w }
{
    if state.is_marked(w) {
        return Answer::Refused(INVALID_WINDOW_HANDLE);
    }
    if_own(state, who, w)
}

/// The next step of a destruction.
pub fn unmake_answer(state: &CoreState, who: u8, w: u64) -> Answer
    ensures { result ≡ unmake_reply state.now.past who w }
{
    if !state.is_live(w) {
        return Answer::Gone;
    }
    if !state.is_marked(w) {
        return Answer::Refused(INVALID_PARAMETER);
    }
    if state.thread_of(w) != who {
        return Answer::Refused(ACCESS_DENIED);
    }
    state.destruction(w)
}

/// The answer where a window is to be dropped with its kin.
pub fn drop_answer(state: &CoreState, who: u8, w: u64) -> Answer
    ensures { result ≡ drop_reply state.now.past who w }
{
    if state.is_live(w) && !state.has_last(w) {
        return Answer::Refused(INVALID_PARAMETER);
    }
    if_own(state, who, w)
}

/// Whether a flag is unknown, or one shows the window and another hides it.
fn is_no_placing(flags: u64) -> bool
    ensures { result ≡ is_no_placing flags }
{
    if flags & KNOWN_PLACINGS != flags {
        return true;
    }
    has_flag(flags, SWP_SHOWWINDOW) && has_flag(flags, SWP_HIDEWINDOW)
}

/// Whether `v` is a live window with the parent of `w`, and isn't `w`.
fn is_sibling(state: &CoreState, w: u64, v: u64) -> bool
    ensures { result ≡ is_sibling state.now.past w v }
{
    state.is_live(v) && (state.parent(v) == state.parent(w) && v != w)
}

/// Whether a window can come there among its siblings: at the top (0) or the bottom (1), or below a sibling; a top-level window
/// also with its topmost flag set (minus one) or cleared (minus two).
fn is_order(state: &CoreState, w: u64, after: i64) -> bool
    ensures { result ≡ is_order state.now.past w after }
{
    match after {
        0 | 1 => true,
        -1 | -2 => state.parent(w) == Hwnd(0),
        _ => after > 1 && is_sibling(state, w, after as u64),
    }
}

/// The answer where a window is to be put at a place.
pub fn place_answer(state: &CoreState, w: u64, placing: Placing) -> Answer
    ensures { result ≡ place_reply state.now.past w placing.after placing.edges.l placing.edges.t placing.edges.r placing.edges.b placing.flags }
{
    if is_no_rect(placing.edges) || is_no_placing(placing.flags) {
        return Answer::Refused(INVALID_PARAMETER);
    }
    let is_live = state.is_live(w);
    if !has_flag(placing.flags, SWP_NOZORDER) && is_live && !is_order(state, w, placing.after) {
        return Answer::Refused(INVALID_PARAMETER);
    }
    if !is_live {
        return Answer::Refused(INVALID_WINDOW_HANDLE);
    }
    Answer::Value(state.placing_changes(w, placing))
}

/// The answer where a window is to be shown or hidden: 1 where it was shown, else 0.
pub fn show_answer(state: &CoreState, w: u64, on: u64) -> Answer
    ensures { result ≡ show_reply state.now.past w on }
{
    if on > 1 {
        return Answer::Refused(INVALID_PARAMETER);
    }
    if !state.is_live(w) {
        return Answer::Refused(INVALID_WINDOW_HANDLE);
    }
    Answer::Value(u64::from(state.is_shown(w)))
}

/// The answer where a window is to be enabled or disabled: 1 where it was disabled, else 0.
pub fn enable_answer(state: &CoreState, w: u64, on: u64) -> Answer
    ensures { result ≡ enable_reply state.now.past w on }
{
    if on > 1 {
        return Answer::Refused(INVALID_PARAMETER);
    }
    if !state.is_live(w) {
        return Answer::Refused(INVALID_WINDOW_HANDLE);
    }
    Answer::Value(u64::from(state.is_disabled(w)))
}

/// The highest top-level window of a title, or 0.
pub fn find_answer(state: &CoreState, title: u32) -> Answer
    ensures { result ≡ find_reply state.now.past title }
{
    Answer::Window(state.titled(title).unwrap_or(Hwnd(0)))
}

/// The highest top-level window of a title, or a wait where there is none.
pub fn await_title_answer(state: &CoreState, title: u32) -> Answer
    ensures { result ≡ await_title_reply state.now.past title }
{
    match state.titled(title) {
        Some(w) => Answer::Window(w),
        None => Answer::Wait,
    }
}

/// The window that owns a pixel of the screen, or 0.
pub fn window_at_answer(state: &CoreState, x: i64, y: i64) -> Answer
    ensures { result ≡ window_at_reply state.now.setup state.now.past x y }
{
    Answer::Window(state.owner_at(x, y))
}

/// The top-level window of least number above this one, or 0.
pub fn next_top_answer(state: &CoreState, w: u64) -> Answer
    ensures { result ≡ next_top_reply state.now.past w }
{
    Answer::Window(state.next_top(w))
}

/// The child of a window of least number above another number, or 0.
pub fn child_after_answer(state: &CoreState, w: u64, above: u64) -> Answer
    ensures { result ≡ child_after_reply state.now.past w above }
{
    if !state.is_live(w) {
        return Answer::Refused(INVALID_WINDOW_HANDLE);
    }
    Answer::Window(state.child_after(w, above))
}

/// The style bits of a window.
pub fn style_of_answer(state: &CoreState, w: u64) -> Answer
    ensures { result ≡ style_of_reply state.now.past w }
{
    if !state.is_live(w) {
        return Answer::Refused(INVALID_WINDOW_HANDLE);
    }
    Answer::Value(state.style_of(w))
}

/// 1 for a live window, else 0.
pub fn is_window_answer(state: &CoreState, w: u64) -> Answer
    ensures { result ≡ is_window_reply state.now.past w }
{
    Answer::Value(u64::from(state.is_live(w)))
}

/// The parent of a child, else the owner, or 0.
pub fn parent_answer(state: &CoreState, w: u64) -> Answer
    ensures { result ≡ parent_reply state.now.past w }
{
    match state.up(w) {
        Some(up) => Answer::Window(up),
        None => Answer::Refused(INVALID_WINDOW_HANDLE),
    }
}
