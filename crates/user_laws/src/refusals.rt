//! Laws of refusals and of the order of posts. Each is a function that does nothing; its contract is the law.

ghost use Rattle.std.specs.Prelude.{◌≡◌, ◌≢◌, ◌≤◌, ℕ, true, false, List, [], ◌∷◌, Some};
ghost use Rattle.std.specs.List.{AllByRecursion};
ghost use Rattle.win_num.specs.declared.message.Filter.{Filter};
ghost use Rattle.user_model.specs.declared.call.Call.{Call};
ghost use Rattle.user_model.specs.declared.call.Call.TheVariants.{Advance};
ghost use Rattle.user_model.specs.declared.entry.Answer.{Answer};
ghost use Rattle.user_model.specs.declared.entry.Entry.{Entry};
ghost use Rattle.user_model.specs.declared.entry.Setup.{Setup};
ghost use Rattle.user_model.specs.Past.{is_full, is_refused};
ghost use Rattle.user_model.specs.Posts.{PostedMsg, first_post, passes, posted};
ghost use Rattle.user_model.specs.Next.{next_quit};
ghost use Rattle.user_model.specs.Idle.{reply};
ghost use Rattle.user_model.specs.Legal.{IsLawful};
ghost use Rattle.user_laws.specs.Kept.{ChangesNothing};

/// A refused entry changes nothing: after it every value that the definitions keep is the one before it, so as
/// long as there is room each call of a thread is answered as before it, and so is each of the clock's but `advance`, which looks at
/// whether the thread waits still: it doesn't, once it has made another call.
pub fn refusals_change_nothing()
    ensures values { (past : List Entry) (e : Entry) → is_refused e ≡ true → ChangesNothing past e }
    ensures replies { (setup : Setup) (past : List Entry) (e : Entry) → is_refused e ≡ true → is_full (e ∷ past) ≡ false → (who : ℕ) (call : Call) → who ≢ 0 → reply setup (e ∷ past) who call ≡ reply setup past who call }
    ensures clock { (setup : Setup) (past : List Entry) (e : Entry) → is_refused e ≡ true → is_full (e ∷ past) ≡ false → (call : Call) → call ≢ Advance → reply setup (e ∷ past) 0 call ≡ reply setup past 0 call }
{}

/// Posts leave in posted order within a filter: no post that stands and passes has a lesser number than the one
/// that a retrieval takes, and quit comes only where no post is left (Microsoft, GetMessage function).
pub fn posts_leave_in_order()
    ensures order { (setup : Setup) (past : List Entry) (t : ℕ) (f : Filter) (first : PostedMsg) → IsLawful setup past → first_post past t f ≡ Some first → AllByRecursion (λ x. passes past f x ≡ true → first.number ≤ x.number) (posted past t) }
    ensures quit_last { (past : List Entry) (t : ℕ) (answer : Answer) → next_quit past t ≡ Some answer → posted past t ≡ [] }
{}
