//! The calls on classes, windows, groups of attached threads, the mouse, keys and dialogs, and the end of a thread: what each answers, and its
//! entry.

ghost use Rattle.std.specs.Prelude.{◌≡◌, ◌<◌, ◌≤◌, ◌+◌, true, false, IfOk, IsOk, OnOk, OnErr};
ghost use Rattle.core_deliver.specs.Groups.{is_window_call};
ghost use Rattle.core_state.specs.OnePlace.{takes_one_place};
ghost use Rattle.core_window.specs.Lookups.{IsLookup};
ghost use Rattle.user_model.specs.Idle.{reply};
ghost use Rattle.user_model.specs.Machines.{after};
ghost use Rattle.user_model.specs.Past.{is_full};
ghost use Rattle.user_model.specs.Replies.{row};

use crate::dialogs::{begin_dialog_answer, dialog_state_answer, end_dialog_answer};
use crate::groups::{
    attach_answer, detach_answer, set_active_answer, set_capture_answer, set_focus_answer,
    value_answer, was_answer,
};
use crate::inputs::{key_answer, key_state_answer, mouse_answer};
use crate::windows::{
    NewWindow, await_title_answer, child_after_answer, doom_answer, drop_answer, enable_answer,
    find_answer, is_window_answer, new_window_answer, next_top_answer, parent_answer, place_answer,
    register_answer, show_answer, style_of_answer, unmake_answer, unregister_answer,
    window_at_answer,
};
use core_deliver::{admit, enter};
use core_state::{CoreState, Edges, Placing};
use input_state::Slot;
use std::alloc::AllocError;
use user_model::{Answer, Call};
use win_num::Thread;

/// The answer of a call on classes, windows, groups, input or dialogs, or of the end of a thread, to a running thread, where its stack allows it.
fn window_row(state: &CoreState, thread: u8, call: &Call) -> Answer
    requires group { is_window_call call.now ≡ true }
    requires room { is_full state.now.past ≡ false }
    requires some { 0 < thread }
    requires known { thread ≤ state.now.setup.threads }
    ensures { result ≡ row state.now.setup state.now.past thread call.now }
{
    match *call {
        Call::Register(name, _, colour) => register_answer(state, name, colour),
        Call::Unregister(name) => unregister_answer(state, name),
        Call::NewWindow(class, _, parent, style, ex, l, t, r, b) => {
            let making = NewWindow {
                class,
                parent,
                style,
                ex,
            };
            new_window_answer(state, thread, making, Edges { l, t, r, b })
        }
        Call::Doom(w) => doom_answer(state, thread, w),
        Call::Unmake(w) => unmake_answer(state, thread, w),
        Call::Drop(w) => drop_answer(state, thread, w),
        Call::Place(w, after, l, t, r, b, flags) => {
            let edges = Edges { l, t, r, b };
            place_answer(
                state,
                w,
                Placing {
                    after,
                    edges,
                    flags,
                },
            )
        }
        Call::Show(w, on) => show_answer(state, w, on),
        Call::Enable(w, on) => enable_answer(state, w, on),
        Call::EndThread => Answer::Ended,
        _ => lookup_row(state, thread, call),
    }
}

/// The answer of a call that looks for windows, or of one on focus, active window, capture, attached threads, the mouse, keys or dialogs.
fn lookup_row(state: &CoreState, thread: u8, call: &Call) -> Answer
    requires group { is_window_call call.now ≡ true }
    requires looks { IsLookup call.now }
    requires room { is_full state.now.past ≡ false }
    requires some { 0 < thread }
    requires known { thread ≤ state.now.setup.threads }
    ensures { result ≡ row state.now.setup state.now.past thread call.now }
{
    match *call {
        Call::Find(title) => find_answer(state, title),
        Call::AwaitTitle(title) => await_title_answer(state, title),
        Call::NextTop(w) => next_top_answer(state, w),
        Call::ChildAfter(w, above) => child_after_answer(state, w, above),
        Call::StyleOf(w) => style_of_answer(state, w),
        Call::WindowAt(x, y) => window_at_answer(state, x, y),
        Call::IsWindow(w) => is_window_answer(state, w),
        Call::Parent(w) => parent_answer(state, w),
        Call::SetFocus(w) => set_focus_answer(state, thread, w),
        Call::SetActive(w) => set_active_answer(state, thread, w),
        Call::SetCapture(w) => set_capture_answer(state, thread, w),
        Call::ReleaseCapture => was_answer(state, thread, Slot::Capture),
        Call::GetFocus => value_answer(state, thread, Slot::Focus),
        Call::GetActive => value_answer(state, thread, Slot::Active),
        Call::GetCapture => value_answer(state, thread, Slot::Capture),
        Call::Attach(t, u) => attach_answer(state, t, u),
        Call::Detach(t, u) => detach_answer(state, t, u),
        Call::Mouse(number, x, y) => mouse_answer(state, number, x, y),
        Call::Key(down, key) => key_answer(state, down, key),
        Call::KeyState(key) => key_state_answer(state, thread, key),
        Call::BeginDialog(w) => begin_dialog_answer(state, thread, w),
        Call::DialogState(w) => dialog_state_answer(state, thread, w),
        Call::EndDialog(w, _) => end_dialog_answer(state, thread, w),
        _ => unreachable!(),
    }
}

/// What a call on classes or windows, or the end of a thread, answers.
pub fn window_answer(state: &CoreState, who: Thread, call: &Call) -> Answer
    requires { is_window_call call.now ≡ true }
    ensures { result ≡ reply state.now.setup state.now.past who.0 call.now }
{
    match admit(state, who, call) {
        Some(code) => Answer::Refused(code),
        None => window_row(state, who.0, call),
    }
}

/// Makes a call on classes or windows, or ends a thread. The answer is the reply of the definitions, and stands with the call
/// as the newest entry, unless the history is full: then it stays as it was. After want of memory nothing
/// has changed, and the call may be made again (Microsoft, CreateWindowEx, SetWindowPos and ExitThread functions).
pub fn window(s: &mut CoreState, who: Thread, call: &Call) -> Result<Answer, AllocError>
    requires { is_window_call call.now ≡ true }
    ensures answer { IfOk result (λ answer. answer ≡ reply s.old.setup s.old.past who.0 call.now) }
    ensures entry { OnOk result (s.new.past ≡ after s.old.setup s.old.past who call.now) }
    ensures err { OnErr result (s.new.past ≡ s.old.past) }
    ensures setup { s.new.setup ≡ s.old.setup }
    ensures spare { s.old.spare ≤ s.new.spare + 1 }
    ensures with_room { takes_one_place call.now ≡ true → 1 ≤ s.old.spare → IsOk result }
{
    let answer = window_answer(s, who, call);
    enter(s, who, call, answer)
}
