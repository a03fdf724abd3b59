//! Laws of what is written. Each is a function that does nothing; its contract is the law.

ghost use Rattle.std.specs.Prelude.{◌≡◌, ℕ, List, Option, Some, None};
ghost use Rattle.user_model.specs.Past.{Past};
ghost use Rattle.win_num.specs.declared.names.TheConstants as names;
ghost use Rattle.script_tree.specs.declared.messages.TheConstants as messages;
ghost use Rattle.script_tree.specs.Tree.{Tree};
ghost use Rattle.script_text.specs.Limits.{IsScript};
ghost use Rattle.script_text.specs.Spelling.{spelling};
ghost use Rattle.log_text.specs.declared.end.End.{End};
ghost use Rattle.log_text.specs.Ends.{end_of};
ghost use Rattle.user_pool.specs.Runs.{choice, IsRun, IsByChoice, IsListed};
ghost use Rattle.user_app.specs.declared.request.LogForm.{LogForm};
ghost use Rattle.user_app.specs.Histories.{history_text};
ghost use Rattle.user_app.specs.Statuses.{status_of};
ghost use Rattle.user_app.specs.Outcomes.{Ran, ReadNoScript};
ghost use Rattle.user_app.specs.Refusals.{Refused};
ghost use Rattle.user_app.specs.Replays.{movers, ordered};

/// The text of a script decides its run: two trees of one text, wherever in memory their statements
/// lie, have the same listed run, and each past has the same log, in either form, and the same end for both.
pub fn one_log()
    ensures run { (s t : Tree) → IsScript s → IsScript t → spelling s ≡ spelling t → (a b : Past) → IsListed s a → IsListed t b → a ≡ b }
    ensures text { (form : LogForm) (s t : Tree) → IsScript s → IsScript t → spelling s ≡ spelling t → (past : Past) → history_text form s past ≡ history_text form t past }
    ensures end { (s t : Tree) → IsScript s → IsScript t → spelling s ≡ spelling t → (past : Past) → end_of s past ≡ end_of t past }
{}

/// The input decides the output: two runs that read the same text to its end, into sinks that held the
/// same, whose logs are written in the same form, and that no fault and no want of memory cut short, leave
/// the same in the sinks, with one status.
pub fn one_output()
    ensures { (form : LogForm) (text held a b : List ℕ) (l m : Option (List ℕ)) (f f' g g' : ℕ) (x y : End) → Ran IsListed form (Some text) l (Some held) (Some a) f f' (status_of x) → Ran IsListed form (Some text) m (Some held) (Some b) g g' (status_of y) → (a ≡ b) × (status_of x ≡ status_of y) }
{}

/// The input decides the refusal: two runs over the same input that is no script, into sinks that held the same,
/// leave the same line in the sinks.
pub fn one_refusal()
    ensures { (text held a b : List ℕ) (l m : Option (List ℕ)) → Refused (ReadNoScript (Some text) l) (Some held) (Some a) → Refused (ReadNoScript (Some text) m) (Some held) (Some b) → a ≡ b }
{}

/// A run can be made again: whoever moved when, each of its entries is by the one whom the script chooses that has the numbers
/// of those that moved as its order list, the clock's left out. Where nobody can move after it, and so where all threads have
/// ended or have used their budgets up, it is that script's one listed run; and the script writes the same log of it, with the same
/// end. After a clock that found that nothing can go on it isn't said that no thread can move.
pub fn runs_are_listed_by_their_movers()
    ensures chosen { (s : Tree) (past : Past) → IsRun s past → IsByChoice (ordered s (movers past)) past }
    ensures listed { (s : Tree) (past : Past) → IsRun s past → choice s past ≡ None → IsListed (ordered s (movers past)) past }
    ensures done { (s : Tree) (past : Past) → IsRun s past → end_of s past ≡ End.Done → IsListed (ordered s (movers past)) past }
    ensures spent { (s : Tree) (past : Past) → IsRun s past → end_of s past ≡ End.Spent → IsListed (ordered s (movers past)) past }
    ensures text { (form : LogForm) (s : Tree) (numbers : List ℕ) (past : Past) → history_text form (ordered s numbers) past ≡ history_text form s past }
    ensures end { (s : Tree) (numbers : List ℕ) (past : Past) → end_of (ordered s numbers) past ≡ end_of s past }
{}

/// The constants of the definitions are those of Windows: numbers of messages, styles, flags, virtual keys and status bits, each with
/// its number (Microsoft, the pages of the messages that `win_num` and `script_tree` name, Window Styles, Extended Window Styles,
/// Virtual-Key Codes, and the SetWindowPos, PeekMessage, SendMessageTimeout and GetQueueStatus functions).
pub fn constants_are_those_of_windows()
    ensures messages { (names.WM_PAINT ≡ 15) × (names.WM_QUIT ≡ 18) × (names.WM_KEYDOWN ≡ 256) × (names.WM_KEYUP ≡ 257) × (names.WM_CHAR ≡ 258) × (names.WM_TIMER ≡ 275) × (names.WM_MOUSEMOVE ≡ 512) × (names.WM_LBUTTONDOWN ≡ 513) × (names.WM_LBUTTONUP ≡ 514) × (names.WM_RBUTTONDOWN ≡ 516) × (names.WM_RBUTTONUP ≡ 517) }
    ensures styles { (names.WS_DISABLED ≡ 134217728) × (names.WS_VISIBLE ≡ 268435456) × (names.WS_CHILD ≡ 1073741824) × (names.WS_POPUP ≡ 2147483648) × (names.WS_EX_TOPMOST ≡ 8) }
    ensures placing { (names.SWP_NOSIZE ≡ 1) × (names.SWP_NOMOVE ≡ 2) × (names.SWP_NOZORDER ≡ 4) × (names.SWP_NOACTIVATE ≡ 16) × (names.SWP_SHOWWINDOW ≡ 64) × (names.SWP_HIDEWINDOW ≡ 128) × (names.SWP_NOCOPYBITS ≡ 256) }
    ensures flags { (names.PM_REMOVE ≡ 1) × (names.SMTO_BLOCK ≡ 1) }
    ensures keys { (names.VK_LBUTTON ≡ 1) × (names.VK_RBUTTON ≡ 2) × (names.VK_SHIFT ≡ 16) × (names.VK_SPACE ≡ 32) }
    ensures status { (names.QS_KEY ≡ 1) × (names.QS_MOUSEMOVE ≡ 2) × (names.QS_MOUSEBUTTON ≡ 4) × (names.QS_POSTMESSAGE ≡ 8) × (names.QS_TIMER ≡ 16) × (names.QS_PAINT ≡ 32) × (names.QS_SENDMESSAGE ≡ 64) }
    ensures no_window { (names.NO_WINDOW ≡ 18446744073709551615) }
    ensures compound_messages { (messages.WM_CREATE ≡ 1) × (messages.WM_DESTROY ≡ 2) × (messages.WM_MOVE ≡ 3) × (messages.WM_SIZE ≡ 5) × (messages.WM_ACTIVATE ≡ 6) × (messages.WM_SETFOCUS ≡ 7) × (messages.WM_KILLFOCUS ≡ 8) × (messages.WM_ENABLE ≡ 10) × (messages.WM_PAINT ≡ 15) × (messages.WM_CLOSE ≡ 16) × (messages.WM_ERASEBKGND ≡ 20) × (messages.WM_SHOWWINDOW ≡ 24) × (messages.WM_CANCELMODE ≡ 31) × (messages.WM_NCCREATE ≡ 129) × (messages.WM_NCDESTROY ≡ 130) × (messages.WM_CAPTURECHANGED ≡ 533) }
{}
