//! What the calls on dialogs answer.

ghost use Rattle.std.specs.Prelude.{◌≡◌};
ghost use Rattle.user_model.specs.ReplyDialogs.{begin_dialog_reply, dialog_state_reply, end_dialog_reply, standing_told};

use core_deliver::codes::{ACCESS_DENIED, INVALID_PARAMETER, INVALID_WINDOW_HANDLE};
use core_deliver::if_own;
use core_state::CoreState;
use user_model::{Answer, Dialog};

/// The answer where a dialog is to begin on a window, which is the caller's and has none: the window's owner, or 0.
pub fn begin_dialog_answer(state: &CoreState, who: u8, w: u64) -> Answer
    ensures { result ≡ begin_dialog_reply state.now.past who w }
{
    let is_live = state.is_live(w);
    if is_live && state.dialog(w).is_some() {
        return Answer::Refused(INVALID_PARAMETER);
    }
    if !is_live {
        return Answer::Refused(INVALID_WINDOW_HANDLE);
    }
    if state.thread_of(w) != who {
        return Answer::Refused(ACCESS_DENIED);
    }
    Answer::Window(state.owner(w))
}

/// How the dialog on an own window stands, or that the window is gone.
pub fn dialog_state_answer(state: &CoreState, who: u8, w: u64) -> Answer
    ensures { result ≡ dialog_state_reply state.now.past who w }
{
    if !state.is_live(w) {
        return Answer::Gone;
    }
    let dialog = state.dialog(w);
    if dialog.is_none() {
        return Answer::Refused(INVALID_PARAMETER);
    }
    if state.thread_of(w) != who {
        return Answer::Refused(ACCESS_DENIED);
    }
    standing_told(dialog)
}

/// How a dialog stands, as an answer.
fn standing_told(dialog: Option<Dialog>) -> Answer
    ensures { result ≡ standing_told dialog }
{
    match dialog {
        Some(Dialog::Finished(result)) => Answer::Finished(result),
        Some(Dialog::Running) | None => Answer::Running,
    }
}

/// The answer where the dialog on a window is to get its result: there is one, and the window is the caller's.
pub fn end_dialog_answer(state: &CoreState, who: u8, w: u64) -> Answer
    ensures { result ≡ end_dialog_reply state.now.past who w }
{
    if state.is_live(w) && state.dialog(w).is_none() {
        return Answer::Refused(INVALID_PARAMETER);
    }
    if_own(state, who, w)
}
