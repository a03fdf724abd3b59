//! Dialogs by their windows.

ghost use Rattle.std.specs.Prelude.{◌≡◌, [], ℕ, Some, OnOk, OnErr};
ghost use Rattle.user_model.specs.declared.entry.Answer.{Answer};
ghost use Rattle.win_num.specs.declared.message.Hwnd.{Hwnd};
ghost use Rattle.dialog_state.specs.Dialogs.{dialog_in, turns as turns_one, Follows, IsPut};

use std::alloc::{AllocError, Global};
use std::collections::BTreeMap;
use std::marker::Model;
use user_model::{Answer, Call, Dialog, Entry};

/// How the dialog on each window stands that has one. Contracts see them with the numbers of their windows.
#[derive(Drop)]
pub struct Dialogs {
    items: BTreeMap<u64, Dialog>,
}

impl Model for Dialogs {
    ghost use Rattle.std.specs.Prelude.{List, ℕ};
    ghost use Rattle.user_model.specs.declared.dialog.Dialog.{Dialog};

    ghost Value = { List (ℕ × Dialog) };

    ghost view = { λ a. a.items.entries };
}

impl Dialogs {
    /// No dialog. Takes no memory.
    pub fn new(alloc: Global) -> Dialogs
        ensures { result ≡ [] }
    {
        Dialogs {
            items: BTreeMap::new(alloc),
        }
    }

    /// How the dialog on the window of this number stands. None comes where it has none (Microsoft, DialogBox function).
    pub fn on(&self, w: u64) -> Option<Dialog>
        ensures { result ≡ dialog_in self.now w }
    {
        self.items.get(&w).copied()
    }

    /// Does what an entry does: a dialog begins, it gets a result, which takes the place of one that it has, or it is over
    /// once its result was told (Microsoft, DialogBox and EndDialog functions). Any other entry changes nothing. Want of memory is the only
    /// error, and leaves all as it was.
    pub fn follow(&mut self, entry: Entry) -> Result<(), AllocError>
        ensures ok { OnOk result (Follows entry.answer entry.call self.old self.new) }
        ensures err { OnErr result (self.new ≡ self.old) }
    {
        match entry.answer {
            Answer::Window(_) => self.begin(entry.call),
            Answer::Okay => self.finish(entry.call),
            Answer::Finished(_) => {
                self.close(entry.call);
                Ok(())
            }
            _ => Ok(()),
        }
    }

    /// The dialog of a call begins that was answered by its owner.
    fn begin(&mut self, call: Call) -> Result<(), AllocError>
        ensures ok { (owner : Hwnd) → OnOk result (Follows (Answer.Window owner) call self.old self.new) }
        ensures err { OnErr result (self.new ≡ self.old) }
    {
        match call {
            Call::BeginDialog(w) => self.put(w, Dialog::Running),
            _ => Ok(()),
        }
    }

    /// The dialog of a call gets its result.
    fn finish(&mut self, call: Call) -> Result<(), AllocError>
        ensures ok { OnOk result (Follows Answer.Okay call self.old self.new) }
        ensures err { OnErr result (self.new ≡ self.old) }
    {
        match call {
            Call::EndDialog(w, result) => self.put(w, Dialog::Finished(result)),
            _ => Ok(()),
        }
    }

    /// The dialog of a call is over, whose result was told.
    fn close(&mut self, call: Call)
        ensures { (told : ℕ) → Follows (Answer.Finished told) call self.old self.new }
    {
        if let Call::DialogState(w) = call {
            self.items.remove(&w);
        }
    }

    /// The dialog on a window stands so from now on.
    fn put(&mut self, w: u64, dialog: Dialog) -> Result<(), AllocError>
        ensures ok { OnOk result (IsPut w (Some dialog) self.old self.new) }
        ensures err { OnErr result (self.new ≡ self.old) }
    {
        let _was = self.items.insert(w, dialog)?;
        Ok(())
    }
}

/// Whether an entry does something to a dialog.
pub fn turns(entry: Entry) -> bool
    ensures { result ≡ turns_one entry.answer entry.call }
{
    match entry.answer {
        Answer::Window(_) => matches!(entry.call, Call::BeginDialog(_)),
        Answer::Okay => matches!(entry.call, Call::EndDialog(..)),
        Answer::Finished(_) => matches!(entry.call, Call::DialogState(_)),
        _ => false,
    }
}
