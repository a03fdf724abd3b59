//! Laws of the clock and of times. Each is a function that does nothing; its contract is the law.

ghost use Rattle.std.specs.Prelude.{◌≡◌, ◌<◌, ◌≤◌, ◌||◌, ◌++◌, ℕ, true, false, not, List, ◌∷◌, filter, length, unwrap_or, Some};
ghost use Rattle.std.specs.List.{AllByRecursion};
ghost use Rattle.win_num.specs.Clocks.{clock_limit};
ghost use Rattle.user_model.specs.declared.entry.Answer.{Answer};
ghost use Rattle.user_model.specs.declared.entry.Entry.{Entry};
ghost use Rattle.user_model.specs.declared.entry.Setup.{Setup};
ghost use Rattle.user_model.specs.Places.{clock};
ghost use Rattle.user_model.specs.Past.{is_refused};
ghost use Rattle.user_model.specs.Windows.{drops_window, is_live};
ghost use Rattle.user_model.specs.Timers.{WinTimer, base, base_told, ends_timer, timers, timers_set};
ghost use Rattle.user_model.specs.Idle.{is_quiet, soonest};
ghost use Rattle.user_model.specs.Legal.{IsLawful};

/// The clock never goes back.
pub fn clock_never_goes_back()
    ensures { (setup : Setup) (past : List Entry) (e : Entry) → IsLawful setup (e ∷ past) → clock past ≤ clock (e ∷ past) }
{}

/// In a history that is no longer than allowed, the clock stays below its bound.
pub fn clock_has_a_bound()
    ensures { (setup : Setup) (past : List Entry) → IsLawful setup past → length past ≤ 2097152 → clock past < clock_limit }
{}

/// Where every thread is idle, the soonest time that one waits for is still to come.
pub fn soonest_time_is_to_come()
    ensures { (setup : Setup) (past : List Entry) → IsLawful setup past → is_quiet setup past ≡ true → (time : ℕ) → soonest setup past ≡ Some time → clock past < time }
{}

/// Where the clock has gone on to a time, some thread isn't idle: so it doesn't go on twice in a row.
pub fn clock_wakes_a_thread()
    ensures { (setup : Setup) (past : List Entry) (e : Entry) (time : ℕ) → IsLawful setup (e ∷ past) → e.who.0 ≡ 0 → e.answer ≡ Answer.Advanced time → is_quiet setup (e ∷ past) ≡ false }
{}

/// The window of each timer is live. After an entry that isn't refused the timers are those before it that it neither sets anew nor takes
/// back nor drops with their windows, and behind them the one that it sets; the period of one begins at the clock where the entry sets
/// it or removes its WM_TIMER, and else where it began (Microsoft, SetTimer and KillTimer functions).
pub fn timers_follow()
    ensures live { (setup : Setup) (past : List Entry) → IsLawful setup past → AllByRecursion (λ x. is_live past x.hwnd ≡ true) (timers past) }
    ensures next { (past : List Entry) (e : Entry) → is_refused e ≡ false → timers (e ∷ past) ≡ filter (λ x. not (ends_timer e.call x || drops_window e past x.hwnd)) (timers past) ++ timers_set e.call }
    ensures begun { (past : List Entry) (e : Entry) (x : WinTimer) → is_refused e ≡ false → base (e ∷ past) x ≡ unwrap_or (base_told x.hwnd x.id e past) (base past x) }
{}
