//! Laws of groups of attached threads. Each is a function that does nothing; its contract is the law.

ghost use Rattle.std.specs.Prelude.{◌≡◌, ◌↔◌, ◌++◌, ℕ, Bool, true, false, not, List, ◌∷◌, filter, unwrap_or};
ghost use Rattle.std.specs.List.{AllByRecursion};
ghost use Rattle.input_state.specs.Groups.{Reaches};
ghost use Rattle.user_model.specs.declared.entry.Entry.{Entry};
ghost use Rattle.user_model.specs.declared.entry.Setup.{Setup};
ghost use Rattle.user_model.specs.Past.{is_refused};
ghost use Rattle.user_model.specs.Threads.{is_thread};
ghost use Rattle.user_model.specs.Groups.{are_attached, attached, attaches, is_in_group, unlinks};
ghost use Rattle.user_model.specs.Focus.{Slot, activates, foreground, if_among, last_set, set_in};
ghost use Rattle.user_model.specs.Legal.{IsLawful};

/// A group has just the threads that some steps reach, each from a thread to one that it is attached to. Attached threads are threads.
/// After an entry that isn't refused the links are those before it that it doesn't undo, by its call or as a thread ends, and behind them the one
/// that it makes (Microsoft, AttachThreadInput function).
pub fn groups_follow()
    ensures reached { (past : List Entry) (t u : ℕ) → (is_in_group past t u ≡ true) ↔ Reaches (λ a b. are_attached past a b ≡ true) t u }
    ensures threads { (setup : Setup) (past : List Entry) → IsLawful setup past → AllByRecursion (λ x. (is_thread setup x.one ≡ true) × (is_thread setup x.other ≡ true)) (attached past) }
    ensures next { (past : List Entry) (e : Entry) → is_refused e ≡ false → attached (e ∷ past) ≡ filter (λ x. not (unlinks e x)) (attached past) ++ attaches e.call }
{}

/// What one of some threads set last is after an entry that isn't refused what the entry sets, where one of them makes it, and else what it was;
/// the foreground thread is the one that makes a window active, and else who it was. No other entry changes either: a window that goes is read
/// as 0, and no more (Microsoft, SetFocus, SetActiveWindow and SetCapture functions).
pub fn settings_follow()
    ensures settings { (among : ℕ → Bool) (slot : Slot) (past : List Entry) (e : Entry) → is_refused e ≡ false → last_set among slot (e ∷ past) ≡ unwrap_or (if_among among e.who.0 (set_in slot e.call)) (last_set among slot past) }
    ensures foreground { (past : List Entry) (e : Entry) → is_refused e ≡ false → foreground (e ∷ past) ≡ unwrap_or (activates e.who.0 e.call) (foreground past) }
{}
