//! Laws of dialogs. Each is a function that does nothing; its contract is the law.

ghost use Rattle.std.specs.Prelude.{◌≡◌, ℕ, true, false, List, ◌∷◌, unwrap_or};
ghost use Rattle.user_model.specs.declared.entry.Entry.{Entry};
ghost use Rattle.user_model.specs.Past.{is_refused};
ghost use Rattle.user_model.specs.Dialogs.{dialog, turned};

/// The dialog on a window is after an entry that isn't refused what the entry makes of it: it runs where it begins, it has the result that it is
/// given, and there is none once its result was told; else it is what it was. A refused entry leaves each dialog as it stands (Microsoft,
/// DialogBox and EndDialog functions).
pub fn dialogs_follow()
    ensures next { (past : List Entry) (e : Entry) (w : ℕ) → is_refused e ≡ false → dialog (e ∷ past) w ≡ unwrap_or (turned w e.answer e.call) (dialog past w) }
    ensures refused { (past : List Entry) (e : Entry) (w : ℕ) → is_refused e ≡ true → dialog (e ∷ past) w ≡ dialog past w }
{}
