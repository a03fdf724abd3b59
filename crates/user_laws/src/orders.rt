//! Laws of the order in which a window and its kin are destroyed. Each is a function that does nothing; its contract is the law.

ghost use Rattle.std.specs.Prelude.{◌≡◌, ◌≢◌, ◌≤◌, ℕ, true, List, [], ◌∷◌, ◌++◌, map, length};
ghost use Rattle.std.specs.List.{flat_map};
ghost use Rattle.user_model.specs.declared.entry.Entry.{Entry};
ghost use Rattle.user_model.specs.declared.entry.Setup.{Setup};
ghost use Rattle.user_model.specs.Windows.{Window, live, is_kin};
ghost use Rattle.user_model.specs.Destruction.{told, ended, told_step, ended_step, owned_by, children_of, destruction, destruction_of};
ghost use Rattle.user_model.specs.Legal.{IsLawful};
ghost use Rattle.user_laws.specs.Destructions.{subtree_down, subtree_up, times, once_if, ComesBefore};
ghost use Rattle.user_laws.specs.Words.{IsIn};

/// The order in which a live window is destroyed: first, one after the other and each wholly, the windows that it owns; then
/// its subtree is told, each window before its children; then the subtree ends, each window after its children. A bound
/// of the walk that is greater than the number of live windows changes nothing (Microsoft, DestroyWindow function).
pub fn destruction_is_in_order()
    ensures enough { (setup : Setup) (past : List Entry) (n : ℕ) (x : Window) → IsLawful setup past → IsIn x (live past) → length (live past) ≤ n → destruction n (live past) x ≡ destruction_of (live past) x }
    ensures order { (setup : Setup) (past : List Entry) (x : Window) → IsLawful setup past → IsIn x (live past) → destruction_of (live past) x ≡ flat_map (destruction_of (live past)) (owned_by (live past) x) ++ (map told_step (subtree_down (live past) x) ++ map ended_step (subtree_up (live past) x)) }
    ensures down { (setup : Setup) (past : List Entry) (x : Window) → IsLawful setup past → IsIn x (live past) → subtree_down (live past) x ≡ x ∷ flat_map (subtree_down (live past)) (children_of (live past) x) }
    ensures up { (setup : Setup) (past : List Entry) (x : Window) → IsLawful setup past → IsIn x (live past) → subtree_up (live past) x ≡ flat_map (subtree_up (live past)) (children_of (live past) x) ++ x ∷ [] }
{}

/// In the order of a live window's destruction each of its kin is told once and ended once, and no other window is.
pub fn kin_are_destroyed_once()
    ensures told { (setup : Setup) (past : List Entry) (x : Window) (w : ℕ) → IsLawful setup past → IsIn x (live past) → times (told w) (destruction_of (live past) x) ≡ once_if (is_kin (live past) x.number w) }
    ensures ended { (setup : Setup) (past : List Entry) (x : Window) (w : ℕ) → IsLawful setup past → IsIn x (live past) → times (ended w) (destruction_of (live past) x) ≡ once_if (is_kin (live past) x.number w) }
{}

/// In the order of a live window's destruction each of its kin is told before it ends; a parent is told before its child and
/// ends after it; and a window that is owned has ended before its owner is told.
pub fn kin_go_before_what_is_above()
    ensures itself { (setup : Setup) (past : List Entry) (x y : Window) → IsLawful setup past → IsIn x (live past) → IsIn y (live past) → is_kin (live past) x.number y.number ≡ true → ComesBefore (told y.number) (ended y.number) (destruction_of (live past) x) }
    ensures parents { (setup : Setup) (past : List Entry) (x y p : Window) → IsLawful setup past → IsIn x (live past) → IsIn y (live past) → IsIn p (live past) → is_kin (live past) x.number y.number ≡ true → y.number ≢ x.number → y.parent ≡ p.number → ComesBefore (told p.number) (told y.number) (destruction_of (live past) x) × ComesBefore (ended y.number) (ended p.number) (destruction_of (live past) x) }
    ensures owners { (setup : Setup) (past : List Entry) (x y o : Window) → IsLawful setup past → IsIn x (live past) → IsIn y (live past) → IsIn o (live past) → is_kin (live past) x.number y.number ≡ true → y.number ≢ x.number → y.owner ≡ o.number → ComesBefore (ended y.number) (told o.number) (destruction_of (live past) x) }
{}
