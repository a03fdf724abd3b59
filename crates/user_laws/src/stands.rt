//! Laws of what stands: windows, and posted messages. Each is a function that does nothing; its contract is the law.

ghost use Rattle.std.specs.Prelude.{◌≡◌, ◌≤◌, ◌↔◌, ℕ, List, true};
ghost use Rattle.std.specs.List.{AllByRecursion};
ghost use Rattle.user_model.specs.declared.entry.Entry.{Entry};
ghost use Rattle.user_model.specs.declared.entry.Setup.{Setup};
ghost use Rattle.user_model.specs.Windows.{Window, live, is_kin, kin_within};
ghost use Rattle.user_model.specs.Looks.{look};
ghost use Rattle.user_model.specs.Posts.{PostedMsg, posted, posts_to, ends_post};
ghost use Rattle.user_model.specs.Ready.{ReadyMsg, arrives, departs, ready};
ghost use Rattle.user_model.specs.Legal.{IsLawful};
ghost use Rattle.user_laws.specs.Words.{IsIn, IsLastSaid, IsAddedForGood};
ghost use Rattle.user_laws.specs.Looks.{gives_look};
ghost use Rattle.user_laws.specs.Stands.{makes_window, drops_it, IsForItsThread, LeadsTo, RisesByNumber, RisesByPlace};

/// The live windows are exactly those that some unrefused entry made and no later one dropped, by a drop of theirs or of
/// what they stand under, or by the end of their thread (Microsoft, DestroyWindow function).
pub fn windows_live_until_dropped()
    ensures { (past : List Entry) (x : Window) → IsIn x (live past) ↔ IsAddedForGood makes_window drops_it past x }
{}

/// A live window's number, thread, class, title, parent and owner are those that it was made with, as the law above says. How it
/// looks, its style, extended style and place, is what the last entry that made, placed, showed or enabled it has made of how it looked
/// before (Microsoft, SetWindowPos function).
pub fn windows_are_as_last_set()
    ensures { (past : List Entry) (x : Window) → IsIn x (live past) → IsLastSaid (gives_look x.number) past (look past x.number) }
{}

/// The posts that stand are exactly those that some unrefused entry posted to the thread, and that no later retrieval
/// removed, no drop of their window took along and no end of their thread. Each is for no window or for a live window of
/// the thread, and they rise by number (Microsoft, PostMessage function).
pub fn posts_stand_until_taken()
    ensures values { (past : List Entry) (t : ℕ) (x : PostedMsg) → IsIn x (posted past t) ↔ IsAddedForGood (posts_to t) (ends_post t) past x }
    ensures windows { (setup : Setup) (past : List Entry) (t : ℕ) → IsLawful setup past → AllByRecursion (IsForItsThread past t) (posted past t) }
    ensures rising { (setup : Setup) (past : List Entry) (t : ℕ) → IsLawful setup past → RisesByNumber (posted past t) }
{}

/// A window is of another one's kin exactly where a chain of parents and owners leads from it to that one, and no walk
/// that is longer than the window's number finds more.
pub fn kin_is_a_chain()
    ensures chain { (setup : Setup) (past : List Entry) (v w : ℕ) → IsLawful setup past → is_kin (live past) v w ≡ true ↔ LeadsTo (live past) v w }
    ensures enough { (setup : Setup) (past : List Entry) (n v w : ℕ) → IsLawful setup past → w ≤ n → kin_within n (live past) v w ≡ is_kin (live past) v w }
{}

/// What a thread has ready is exactly the sends to it that some unrefused entry began and no later one entered or
/// answered, and the results of its callback sends that some unrefused entry answered and no later one handed over; all of
/// it goes where the thread ends. It stands in order of place, the results of one entry in order of their sends' numbers
/// (Microsoft, SendMessage and SendMessageCallback functions).
pub fn ready_until_served()
    ensures values { (past : List Entry) (t : ℕ) (r : ReadyMsg) → IsIn r (ready past t) ↔ IsAddedForGood (arrives t) (departs t) past r }
    ensures rising { (setup : Setup) (past : List Entry) (t : ℕ) → IsLawful setup past → RisesByPlace (ready past t) }
{}
