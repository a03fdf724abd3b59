//! Loops of messages, and dialogs.

ghost use Rattle.std.specs.Prelude.{◌≡◌};
ghost use Rattle.script_tree.specs.Modals.{turns as turns_of, loop_ends as loop_ends_of, quits as quits_of, dispatches as dispatches_of, handles as handles_of, after_message as message_leads, after_getting as getting_leads, dialog_on, was_enabled as was_enabled_in, opens as opens_of, after_opening as opening_leads, after_disabling as disabling_leads, after_asking as asking_leads, finishes as finishes_of};

use crate::frame::{Begin, Dialog, Lead, Modal, Place};
use crate::notifying::told_number;
use crate::values::{dispatch, translate};
use user_model::{Answer, Call};
use win_num::Msg;
use win_num::names::{WM_KEYDOWN, WM_QUIT};

/// The loop goes on, from its first call.
pub fn turns(modal: Modal) -> Lead
    ensures { result ≡ turns_of modal }
{
    match modal {
        Modal::Pump => Lead::Calls(Call::Get(0, 0, 0), Place::Getting(modal)),
        Modal::Dialog(dialog) => {
            Lead::Calls(Call::DialogState(dialog.window), Place::Asking(dialog))
        }
    }
}

/// The loop is over, with this answer. After that of a dialog its owner is enabled again.
fn loop_ends(modal: Modal, answer: Answer) -> Lead
    ensures { result ≡ loop_ends_of modal answer }
{
    match modal {
        Modal::Pump => Lead::Ends(answer),
        Modal::Dialog(dialog) => {
            if dialog.owner == 0 {
                Lead::Ends(answer)
            } else {
                let enabling = Begin::notifying(Call::Enable(dialog.owner, 1));
                Lead::Runs(enabling, Place::Enabling(answer))
            }
        }
    }
}

/// The thread is to leave its loop of messages, with this code (Microsoft, WM_QUIT message).
fn quits(modal: Modal, code: u64) -> Lead
    ensures { result ≡ quits_of modal code }
{
    match modal {
        Modal::Pump => loop_ends(modal, Answer::Value(code)),
        Modal::Dialog(dialog) => Lead::Calls(Call::PostQuit(code), Place::Requitting(dialog)),
    }
}

/// The message is handed to its window's procedure (Microsoft, DispatchMessage function).
pub fn dispatches(modal: Modal, msg: &Msg) -> Lead
    ensures { result ≡ dispatches_of modal msg.now }
{
    Lead::Calls(dispatch(msg), Place::Dispatching(modal))
}

/// Before that the character of a key that goes down is posted (Microsoft, TranslateMessage function).
fn handles(modal: Modal, msg: &Msg) -> Lead
    ensures { result ≡ handles_of modal msg.now }
{
    if msg.number == WM_KEYDOWN {
        Lead::Calls(translate(msg), Place::Translating(modal, *msg))
    } else {
        dispatches(modal, msg)
    }
}

/// A message comes.
fn after_message(modal: Modal, msg: &Msg) -> Lead
    ensures { result ≡ message_leads modal msg.now }
{
    if msg.number == WM_QUIT {
        quits(modal, msg.wparam)
    } else {
        handles(modal, msg)
    }
}

/// Whether one comes.
pub fn after_getting(modal: Modal, answer: &Answer) -> Lead
    ensures { result ≡ getting_leads modal answer.now }
{
    match answer {
        Answer::Got { msg, .. } => after_message(modal, msg),
        Answer::Refused(code) => loop_ends(modal, Answer::Refused(*code)),
        _ => loop_ends(modal, Answer::Value(0)),
    }
}

fn dialog_of(window: u64, owner: u64) -> Dialog
    ensures { result ≡ dialog_on window owner }
{
    Dialog { window, owner }
}

/// A dialog that has this owner, which is disabled first unless it is 0.
fn opens(window: u64, owner: u64) -> Lead
    ensures { result ≡ opens_of window owner }
{
    if owner == 0 {
        turns(Modal::Dialog(dialog_of(window, 0)))
    } else {
        let disabling = Begin::notifying(Call::Enable(owner, 0));
        Lead::Runs(disabling, Place::Disabling(dialog_of(window, owner)))
    }
}

/// Whether a dialog begins on this window.
pub fn after_opening(window: u64, answer: &Answer) -> Lead
    ensures { result ≡ opening_leads window answer.now }
{
    match answer {
        Answer::Refused(code) => Lead::Ends(Answer::Refused(*code)),
        _ => opens(window, told_number(answer)),
    }
}

/// Whether the answer tells that the window had been enabled before (Microsoft, EnableWindow function).
fn was_enabled(answer: &Answer) -> bool
    ensures { result ≡ was_enabled_in answer.now }
{
    match answer {
        Answer::Value(was) => *was == 0,
        _ => false,
    }
}

/// An owner that had been enabled is enabled again after the dialog.
pub fn after_disabling(dialog: Dialog, answer: &Answer) -> Lead
    ensures { result ≡ disabling_leads dialog answer.now }
{
    if was_enabled(answer) {
        turns(Modal::Dialog(dialog))
    } else {
        turns(Modal::Dialog(dialog_of(dialog.window, 0)))
    }
}

/// Whether the dialog has its result, or its window is gone.
pub fn after_asking(dialog: Dialog, answer: &Answer) -> Lead
    ensures { result ≡ asking_leads dialog answer.now }
{
    let modal = Modal::Dialog(dialog);
    match answer {
        Answer::Running => Lead::Calls(Call::Get(0, 0, 0), Place::Getting(modal)),
        Answer::Finished(value) => loop_ends(modal, Answer::Value(*value)),
        Answer::Refused(code) => loop_ends(modal, Answer::Refused(*code)),
        _ => loop_ends(modal, Answer::Value(0)),
    }
}

/// WM_QUIT ends a dialog with the result 0.
pub fn finishes(dialog: Dialog) -> Lead
    ensures { result ≡ finishes_of dialog }
{
    Lead::Calls(Call::EndDialog(dialog.window, 0), Place::Finishing(dialog))
}
