//! Laws of what is told. Each is a function that does nothing; its contract is the law.

ghost use Rattle.std.specs.Prelude.{◌≡◌, ◌≢◌, ◌<◌, ◌≤◌, ◌*◌, ℕ, true, false, List, length, get_or, Option, Some, None};
ghost use Rattle.user_model.specs.Past.{Past};
ghost use Rattle.script_tree.specs.Tree.{Tree};
ghost use Rattle.log_text.specs.declared.end.End.{End};
ghost use Rattle.log_text.specs.Ends.{end_of};
ghost use Rattle.user_pool.specs.Runs.{choice, IsRun};
ghost use Rattle.run_explorer.specs.declared.part.Part.{Part};
ghost use Rattle.run_explorer.specs.declared.report.Report.{Report};
ghost use Rattle.run_explorer.specs.Orders.{IsWithin};
ghost use Rattle.run_explorer.specs.Parts.{IsPart, IsPartOf, AreFirst};
ghost use Rattle.run_explorer.specs.Marks.{is_marked};
ghost use Rattle.run_explorer.specs.Reports.{Explored};

/// No run is told twice: at two places stand two runs.
pub fn runs_are_told_once()
    ensures { (s : Tree) (bound : ℕ) (part : Part) (runs : List Past) → AreFirst s bound part runs → (i j : ℕ) (d : Past) → i < j → j < length runs → get_or runs i d ≡ get_or runs j d → ⊥ }
{}

/// Each run within a bound is of exactly one of some parts: there is such a part, and each part that it is of has the same number.
pub fn each_run_is_of_one_part()
    ensures some { (s : Tree) (bound count : ℕ) (past : Past) → 0 < count → IsWithin s bound past → (part : Part) × (part.count ≡ count) × IsPart part × IsPartOf s bound part past }
    ensures one { (s : Tree) (bound : ℕ) (a b : Part) (past : Past) → IsPart a → IsPart b → a.count ≡ b.count → IsPartOf s bound a past → IsPartOf s bound b past → a.number ≡ b.number }
    ensures whole { (s : Tree) (bound : ℕ) (part : Part) (past : Past) → IsPart part → part.count ≡ 1 → IsWithin s bound past → IsPartOf s bound part past }
{}

/// No run has more switches than there are entries of threads, and those are no more than all budgets allow together: with as
/// many switches each run that goes on until nobody can move is within the bound.
pub fn all_runs_are_within()
    ensures { (s : Tree) (bound : ℕ) (past : Past) → IsRun s past → choice s past ≡ None → length s.threads * s.budget ≤ bound → IsWithin s bound past }
{}

/// Where all are told and none got stuck, no run of the part gets stuck; and likewise of budgets that are used up, and of a mark.
pub fn none_is_stuck()
    ensures stuck { (s : Tree) (bound limit : ℕ) (part : Part) (name : Option (List ℕ)) (report : Report) → Explored s bound limit part name report → report.is_all ≡ true → report.stuck.count ≡ 0 → (past : Past) → IsPartOf s bound part past → end_of s past ≢ End.Stuck }
    ensures spent { (s : Tree) (bound limit : ℕ) (part : Part) (name : Option (List ℕ)) (report : Report) → Explored s bound limit part name report → report.is_all ≡ true → report.spent.count ≡ 0 → (past : Past) → IsPartOf s bound part past → end_of s past ≢ End.Spent }
    ensures marked { (s : Tree) (bound limit : ℕ) (part : Part) (name : List ℕ) (report : Report) → Explored s bound limit part (Some name) report → report.is_all ≡ true → report.marked.count ≡ 0 → (past : Past) → IsPartOf s bound part past → is_marked s (Some name) past ≡ false }
{}
