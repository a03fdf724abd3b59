//! Laws of the few words over pasts, of which all definitions are made. Each is a function that does nothing; its
//! contract is the law, for values of every type.

ghost use Rattle.std.specs.Prelude.{◌≡◌, ◌↔◌, Bool, List, Option, Some, None, true};
ghost use Rattle.user_model.specs.declared.entry.Entry.{Entry};
ghost use Rattle.user_model.specs.Past.{last_of, first_of, standing, each_of, ever};
ghost use Rattle.user_laws.specs.Words.{IsIn, IsPartOf, SaysNothing, IsLastSaid, IsFirstSaid, IsAdded, IsAddedForGood, IsDone};

/// `last_of` is what the last unrefused entry says that says something; none where none does.
pub fn last_of_is_said_last<A>()
    ensures some { (says : Entry → List Entry → Option A) (past : List Entry) (a : A) → last_of says past ≡ Some a ↔ IsLastSaid says past a }
    ensures none { (says : Entry → List Entry → Option A) (past : List Entry) → last_of says past ≡ None ↔ SaysNothing says past }
{}

/// `first_of` is what the first unrefused entry says that says something; none where none does.
pub fn first_of_is_said_first<A>()
    ensures some { (says : Entry → List Entry → Option A) (past : List Entry) (a : A) → first_of says past ≡ Some a ↔ IsFirstSaid says past a }
    ensures none { (says : Entry → List Entry → Option A) (past : List Entry) → first_of says past ≡ None ↔ SaysNothing says past }
{}

/// `each_of` has exactly the values that some unrefused entry adds.
pub fn each_of_is_added<A>()
    ensures { (adds : Entry → List Entry → List A) (past : List Entry) (a : A) → IsIn a (each_of adds past) ↔ IsAdded adds past a }
{}

/// `standing` has exactly the values that some unrefused entry adds and no later one ends, in the order in which
/// they were added.
pub fn standing_is_added_for_good<A>()
    ensures values { (adds : Entry → List Entry → List A) (ends : Entry → List Entry → A → Bool) (past : List Entry) (a : A) → IsIn a (standing adds ends past) ↔ IsAddedForGood adds ends past a }
    ensures order { (adds : Entry → List Entry → List A) (ends : Entry → List Entry → A → Bool) (past : List Entry) → IsPartOf (standing adds ends past) (each_of adds past) }
{}

/// `ever` is true exactly where some unrefused entry does it.
pub fn ever_is_done()
    ensures { (does : Entry → List Entry → Bool) (past : List Entry) → ever does past ≡ true ↔ IsDone does past }
{}
