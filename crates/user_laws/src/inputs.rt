//! Laws of input. Each is a function that does nothing; its contract is the law.

ghost use Rattle.std.specs.Prelude.{◌≡◌, ◌++◌, ℕ, Bool, true, false, not, List, ◌∷◌, filter, unwrap_or};
ghost use Rattle.std.specs.List.{AllByRecursion};
ghost use Rattle.user_model.specs.declared.entry.Entry.{Entry};
ghost use Rattle.user_model.specs.declared.entry.Setup.{Setup};
ghost use Rattle.user_model.specs.Past.{is_refused};
ghost use Rattle.user_model.specs.Threads.{is_running};
ghost use Rattle.user_model.specs.Retrievals.{input_got};
ghost use Rattle.user_model.specs.Focus.{if_among};
ghost use Rattle.user_model.specs.Inputs.{ends_element, injects, untaken};
ghost use Rattle.user_model.specs.Keys.{change_of, down_after, last_down};
ghost use Rattle.user_model.specs.Legal.{IsLawful};
ghost use Rattle.user_laws.specs.Stands.{RisesByInput};

/// Input that no thread has taken is meant for a thread that runs, and stands in the order of its numbers. After an entry that isn't refused it
/// is what it was, without what the entry takes, what was meant for a thread that the entry ends and the move that it replaces, and behind it
/// what the entry injects (Microsoft, SendInput function, and WM_MOUSEMOVE message).
pub fn inputs_follow()
    ensures meant { (setup : Setup) (past : List Entry) → IsLawful setup past → AllByRecursion (λ x. is_running setup past x.home ≡ true) (untaken setup past) }
    ensures rising { (setup : Setup) (past : List Entry) → IsLawful setup past → RisesByInput (untaken setup past) }
    ensures next { (setup : Setup) (past : List Entry) (e : Entry) → is_refused e ≡ false → untaken setup (e ∷ past) ≡ filter (λ x. not (ends_element setup e past (untaken setup past) x)) (untaken setup past) ++ injects setup e.answer e.call past }
{}

/// Whether a key is down for some threads is after an entry that isn't refused what the input says that one of them takes by it, where that is of this
/// key, and else what it was (Microsoft, GetKeyState function).
pub fn keys_follow()
    ensures { (among : ℕ → Bool) (key : ℕ) (past : List Entry) (e : Entry) → is_refused e ≡ false → last_down among key (e ∷ past) ≡ unwrap_or (if_among among e.who.0 (down_after key (change_of (input_got e.answer e.call)))) (last_down among key past) }
{}
