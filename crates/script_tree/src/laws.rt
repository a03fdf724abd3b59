//! Laws of traces.

ghost use Rattle.std.specs.Prelude.{◌≡◌, ◌<◌, ◌≤◌, ℕ, true, false, [], ◌∷◌, ◌++◌, length, All};
ghost use Rattle.user_model.specs.declared.call.Call.{Call};
ghost use Rattle.user_model.specs.declared.entry.Answer.{Answer};
ghost use Rattle.script_tree.specs.Tree.{Tree};
ghost use Rattle.script_tree.specs.Pieces.{Trace, End, Whole, Cut};
ghost use Rattle.script_tree.specs.Traces.{IsTrace, Agree, GoesOn, EndsAfter, trace_of};
ghost use Rattle.script_tree.specs.Rows.{ByRows};
ghost use Rattle.script_tree.specs.Stacks.{AreListed, Fits, stack_after};
ghost use Rattle.user_model.specs.Past.{Past};
ghost use Rattle.user_model.specs.Stacks.{stack, top};
ghost use Rattle.user_model.specs.Replies.{is_barred_by, row};
ghost use Rattle.user_model.specs.Legal.{IsLawful};
ghost use Rattle.user_model.specs.Threads.{is_thread};
ghost use Rattle.user_model.specs.Idle.{reply};
ghost use Rattle.user_model.specs.declared.entry.Setup.{Setup};

/// A trace that isn't whole has exactly one next call, and goes on with any answer to it.
pub fn one_next_call()
    ensures one { (s : Tree) (t : ℕ) (tr : Trace) (e f : End) → IsTrace s t tr e → IsTrace s t tr f → e ≡ f }
    ensures goes_on { (s : Tree) (t : ℕ) (tr : Trace) (c : Call) (a : Answer) → IsTrace s t tr (Cut c) → (e : End) × IsTrace s t (tr ++ (c, a) ∷ []) e }
    ensures front { (s : Tree) (t : ℕ) (tr more : Trace) (c : Call) (a : Answer) (e : End) → IsTrace s t (tr ++ (c, a) ∷ more) e → IsTrace s t tr (Cut c) }
    ensures begins { (s : Tree) (t : ℕ) → (e : End) × IsTrace s t [] e }
{}

/// Of two traces of a thread one begins the other, or they first differ in an answer.
pub fn traces_agree()
    ensures { (s : Tree) (t : ℕ) (tr other : Trace) (e f : End) → IsTrace s t tr e → IsTrace s t other f → Agree tr other }
{}

/// A whole trace ends with `end_thread`, whose answer isn't `wait`; before it, and in a trace that is
/// cut, each `end_thread` was only told to wait.
pub fn ends_once()
    ensures whole { (s : Tree) (t : ℕ) (tr : Trace) → IsTrace s t tr Whole → (before : Trace) × EndsAfter before tr × All GoesOn before }
    ensures cut { (s : Tree) (t : ℕ) (tr : Trace) (c : Call) → IsTrace s t tr (Cut c) → All GoesOn tr }
{}

/// Where each answer may stand behind its call, the next call of a thread fits the thread's stack: a
/// `leave` stands on the frame of a procedure, an `await` on that of its send, `end_thread` on none, and
/// any other call on none that waits for a send. So its stack never forbids the call.
pub fn calls_fit_the_stack()
    ensures trace { (s : Tree) (t : ℕ) (tr : Trace) (c : Call) → IsTrace s t tr (Cut c) → AreListed tr → Fits c (stack_after [] tr) }
    ensures past { (s : Tree) (past : Past) (t : ℕ) (c : Call) → IsTrace s t (trace_of past t) (Cut c) → AreListed (trace_of past t) → Fits c (stack past t) }
    ensures allowed { (s : Tree) (past : Past) (t : ℕ) (c : Call) → IsTrace s t (trace_of past t) (Cut c) → AreListed (trace_of past t) → is_barred_by c (top past t) ≡ false }
{}

/// In a lawful past each answer of a thread's trace may stand behind its call. So the next call of a
/// thread is answered by its row: it is never refused as not now while the history has room.
pub fn calls_come_in_turn()
    ensures listed { (s : Tree) (setup : Setup) (past : Past) (t : ℕ) (e : End) → is_thread setup t ≡ true → IsLawful setup past → length past ≤ 2097152 → IsTrace s t (trace_of past t) e → AreListed (trace_of past t) }
    ensures row { (s : Tree) (setup : Setup) (past : Past) (t : ℕ) (c : Call) → is_thread setup t ≡ true → IsLawful setup past → length past < 2097152 → IsTrace s t (trace_of past t) (Cut c) → reply setup past t c ≡ row setup past t c }
{}

/// The traces of a thread by the rows, as a reader of its script tells them, are those of the table of steps.
pub fn rows_are_the_table()
    ensures rows { (s : Tree) (t : ℕ) (tr : Trace) (e : End) → ByRows s t tr e → IsTrace s t tr e }
    ensures table { (s : Tree) (t : ℕ) (tr : Trace) (e : End) → IsTrace s t tr e → ByRows s t tr e }
{}
