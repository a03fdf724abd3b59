//! Laws of runs. Each is a function that does nothing; its contract is the law.

ghost use Rattle.std.specs.Prelude.{◌≡◌, ◌≢◌, ◌≤◌, ℕ, false, List, ◌++◌, map, length, All, Some};
ghost use Rattle.win_num.specs.declared.code.Code.{Code};
ghost use Rattle.user_model.specs.declared.entry.Answer.{Answer};
ghost use Rattle.user_model.specs.declared.entry.Entry.{Entry};
ghost use Rattle.user_model.specs.Past.{is_full};
ghost use Rattle.user_model.specs.Counts.{send_count};
ghost use Rattle.user_model.specs.Idle.{is_barred};
ghost use Rattle.user_model.specs.Legal.{IsLawful};
ghost use Rattle.user_model.specs.SendStories.{IsSendStory, IsSettled};
ghost use Rattle.script_tree.specs.Tree.{Tree};
ghost use Rattle.log_text.specs.declared.end.End.{End};
ghost use Rattle.log_text.specs.Ends.{setup_of, end_of};
ghost use Rattle.user_pool.specs.InTurn.{AreByRow};
ghost use Rattle.user_pool.specs.Interleavings.{IsInterleaving};
ghost use Rattle.user_pool.specs.Runs.{choice, HasEntriesLeft, IsRun, IsListed};

/// A run, whoever moved when, is a legal history in which each thread's own entries are a trace of its
/// program within its budget, and nobody moved who was barred, the clock neither; and each such history
/// is a run. It is decided entry by entry, so what was before any entry of a run is a run.
pub fn runs_are_interleavings()
    ensures interleaves { (s : Tree) (past : List Entry) → IsRun s past → IsInterleaving s past }
    ensures runs { (s : Tree) (past : List Entry) → IsInterleaving s past → IsRun s past }
    ensures fronts { (s : Tree) (newer past : List Entry) → IsRun s (newer ++ past) → IsRun s past }
{}

/// The order in which the actors move decides the run.
pub fn movers_decide_the_run()
    ensures { (s : Tree) (a b : List Entry) → IsRun s a → IsRun s b → map (λ e. e.who.0) a ≡ map (λ e. e.who.0) b → a ≡ b }
{}

/// The listed run is a run, so all that holds of runs holds of it; and whoever is chosen by the order
/// list, by turns or as the clock isn't barred and has entries left.
pub fn listed_runs_are_runs()
    ensures run { (s : Tree) (past : List Entry) → IsListed s past → IsRun s past }
    ensures chosen { (s : Tree) (past : List Entry) (who : ℕ) → choice s past ≡ Some who → (is_barred (setup_of s) past who ≡ false) × HasEntriesLeft s past who }
{}

/// A script has one listed run, so its log is one text.
pub fn one_run()
    ensures { (s : Tree) (a b : List Entry) → IsListed s a → IsListed s b → a ≡ b }
{}

/// Each run, also one that isn't over, is lawful: each answer is the reply at what was before it.
pub fn runs_are_lawful()
    ensures { (s : Tree) (past : List Entry) → IsRun s past → IsLawful (setup_of s) past }
{}

/// No run fills the history, whoever moved when: it has at most 1,966,081 of 2,097,152 entries.
pub fn runs_are_short()
    ensures room { (s : Tree) (past : List Entry) → length s.threads ≤ 15 → s.budget ≤ 65536 → IsRun s past → is_full past ≡ false }
    ensures length { (s : Tree) (past : List Entry) → length s.threads ≤ 15 → s.budget ≤ 65536 → IsRun s past → length past ≤ 1966081 }
{}

/// A listed run is never cut: it goes on until all threads have ended, nothing can go on, or each
/// thread that could go on has used up its budget.
pub fn runs_are_not_cut()
    ensures { (s : Tree) (past : List Entry) → IsListed s past → end_of s past ≢ End.Cut }
{}

/// A run makes no call out of turn: each entry of a thread has the answer that stands for its call
/// where the call may be made, and no entry is refused as not now.
pub fn no_call_out_of_turn()
    ensures row { (s : Tree) (past : List Entry) → IsRun s past → AreByRow s past }
    ensures never { (s : Tree) (past : List Entry) → IsRun s past → All (λ e. e.answer ≢ Answer.Refused Code.NotNow) past }
{}

/// What the threads of a run may rely on: each send is entered at most once and before its answer, which is
/// handed on at most once and with its result; and where the run has ended with all threads, each send was
/// answered, by its procedure, a reply, the loss of its window or the end of its time, and none is
/// unfinished (Microsoft, SendMessage function).
pub fn runs_answer_their_sends()
    ensures story { (s : Tree) (past : List Entry) (send : ℕ) → IsRun s past → IsSendStory past send }
    ensures settled { (s : Tree) (past : List Entry) → IsRun s past → end_of s past ≡ End.Done → IsSettled past (send_count past) }
{}
