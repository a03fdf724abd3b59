//! Laws of logs. Each is a function that does nothing; its contract is the law.

ghost use Rattle.std.specs.Prelude.{◌≡◌, ◌≤◌, ℕ, List, length, map, reverse};
ghost use Rattle.std.specs.List.{AllByRecursion};
ghost use Rattle.user_model.specs.Past.{Past};
ghost use Rattle.user_model.specs.Legal.{IsLawful};
ghost use Rattle.user_model.specs.Counts.{send_count};
ghost use Rattle.script_tree.specs.Tree.{Tree};
ghost use Rattle.script_lines.specs.Known.{known_of};
ghost use Rattle.script_lines.specs.NameLimits.{AreKnown};
ghost use Rattle.script_text.specs.declared.fault.Refusal.{Refusal};
ghost use Rattle.log_text.specs.Ends.{setup_of};
ghost use Rattle.log_text.specs.Logs.{log};
ghost use Rattle.log_read.specs.Limits.{IsEntry, AreCounts, IsLog, HasColours};
ghost use Rattle.log_read.specs.Logs.{LogTree, log_of, spelling};
ghost use Rattle.log_read.specs.Refusals.{IsFirstBad};

/// A text is that of one log of a script at most.
pub fn one_log()
    ensures { (s : Tree) (l m : LogTree) → AreKnown (known_of s) → IsLog s l → IsLog s m → spelling s l ≡ spelling s m → l ≡ m }
{}

/// A text has one first bad line, and of that one first reason: two refusals of it that each tell the first bad line are equal.
pub fn one_refusal()
    ensures { (s : Tree) (bytes : List ℕ) (a b : Refusal) → AreKnown (known_of s) → IsFirstBad s bytes a → IsFirstBad s bytes b → a ≡ b }
{}

/// What is written of a run is the text of a log: that of the run's entries, each with the frame that it kept, of how
/// it ended, of what is told of its threads, and of the counts of its sends. It is a log of the script where the entries
/// and the counts fit their fields and the frames have colours from 0 to 15, as those of each lawful past have; so no
/// other log of the script has this text, and reading it gives that history, those frames and that end back.
pub fn run_is_its_log()
    ensures text { (s : Tree) (past : Past) → log s past ≡ spelling s (log_of s past) }
    ensures history { (s : Tree) (past : Past) → map (λ e. e.entry) (log_of s past).entries ≡ reverse past }
    ensures colours { (s : Tree) (past : Past) → IsLawful (setup_of s) past → HasColours s past }
    ensures fits { (s : Tree) (past : Past) → length s.threads ≤ 15 → AllByRecursion (IsEntry s) past → HasColours s past → AreCounts (send_count past) → IsLog s (log_of s past) }
    ensures read { (s : Tree) (past : Past) (l : LogTree) → AreKnown (known_of s) → length s.threads ≤ 15 → AllByRecursion (IsEntry s) past → HasColours s past → AreCounts (send_count past) → IsLog s l → log s past ≡ spelling s l → l ≡ log_of s past }
{}
