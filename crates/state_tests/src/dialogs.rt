//! A dialog from its beginning until its result was told.

use crate::facts::hold;
use dialog_state::{Dialogs, turns};
use std::alloc::AllocError;
use std::process::Abort;
use user_model::{Answer, Call, Dialog, Entry};
use win_num::{Hwnd, Thread};

/// An entry of thread 1.
fn entry(call: Call, answer: Answer) -> Entry {
    Entry {
        who: Thread(1),
        call,
        answer,
    }
}

/// These entries come, one after another, and then the dialog on window 17 is so.
fn follow_all(dialogs: &mut Dialogs, entries: &[Entry]) -> Result<Option<Dialog>, AllocError> {
    for entry in entries {
        dialogs.follow(*entry)?;
    }
    Ok(dialogs.on(17))
}

fn run_and_end(rt: &impl Abort, dialogs: &mut Dialogs) -> Result<(), AllocError> {
    let told = entry(Call::DialogState(17), Answer::Finished(6));
    let begun = [
        entry(Call::BeginDialog(17), Answer::Window(Hwnd(16))),
        entry(Call::DialogState(17), Answer::Running),
    ];
    let ended = [
        entry(Call::EndDialog(17, 5), Answer::Okay),
        entry(Call::EndDialog(17, 6), Answer::Okay),
    ];
    let facts = [
        follow_all(dialogs, &begun)? == Some(Dialog::Running),
        follow_all(dialogs, &ended)? == Some(Dialog::Finished(6)),
        follow_all(dialogs, &[told])? == None,
        turns(told),
    ];
    hold(rt, &facts);
    Ok(())
}

#[test]
fn a_dialog_has_its_last_result_until_it_is_told(rt: HostRuntime) -> Result<(), AllocError> {
    let mut dialogs = Dialogs::new(rt.alloc());
    run_and_end(&rt, &mut dialogs)
}
