//! Laws of logs that are no runs'. Each is a function that does nothing; its contract is the law.

ghost use Rattle.std.specs.Prelude.{◌≡◌};
ghost use Rattle.user_model.specs.Past.{Past};
ghost use Rattle.user_model.specs.Legal.{IsLawful};
ghost use Rattle.log_text.specs.Ends.{setup_of};
ghost use Rattle.script_tree.specs.Tree.{Tree};
ghost use Rattle.log_read.specs.Logs.{LogTree};
ghost use Rattle.illegal_text.specs.declared.illegal.Illegal.{Illegal};
ghost use Rattle.log_replay.specs.Replays.{IsNoRunLog, IsFirstBad};

/// A log with a bad place is no run's; and all that a machine has made where a replay stops is lawful.
pub fn illegal_logs_are_no_runs()
    ensures no_run { (s : Tree) (l : LogTree) (now : Past) (found : Illegal) → IsFirstBad s l now found → IsNoRunLog s l }
    ensures lawful { (s : Tree) (l : LogTree) (now : Past) (found : Illegal) → IsFirstBad s l now found → IsLawful (setup_of s) now }
{}

/// A log has one first bad place at most, and one reason there.
pub fn one_first_bad_place()
    ensures { (s : Tree) (l : LogTree) (now later : Past) (a b : Illegal) → IsFirstBad s l now a → IsFirstBad s l later b → a ≡ b }
{}
