//! Laws of mending, each the contract of a function that does nothing.
//!
//! They hold for every list of top-level windows, as `user_model` may have it from the past and as an
//! `Order` keeps it. An age is any number for each window that is smaller for an owner than for what it
//! owns, as the window's own number is.

ghost use Rattle.std.specs.Prelude.{◌≡◌, ℕ, Bool, true, IsTrue, List, map};
ghost use Rattle.std.specs.List.{list_all};
ghost use Rattle.std.specs.List.Sorted.{IsPermutation};
ghost use Rattle.win_order.specs.declared.top_level.TopLevel.{TopLevel};
ghost use Rattle.win_num.specs.declared.message.Hwnd.{Hwnd};
ghost use Rattle.win_order.specs.Standing.{Standing};
ghost use Rattle.win_order.specs.declared.after.After.{After};
ghost use Rattle.win_order.specs.Kept.{IsKept, age_in, top_levels};
ghost use Rattle.win_order.specs.Layers.{Layers, IsNew, IsPlace, may_stay, empty, has_none, inserted, kept, placed, removed, settled, stands};
ghost use Rattle.win_order.specs.Standings.{top_level};
ghost use Rattle.win_order.specs.Mending.{mended};
ghost use Rattle.win_order.specs.Mended.{IsMended, AreOwned, goes_along, staying};

/// Mending only moves windows: none is lost, and none comes twice.
pub fn mending_only_moves()
    ensures { (ts : List TopLevel) → IsPermutation ts (mended ts) }
{}

/// Where every owner is among the windows, older than what it owns, and topmost only where that is:
/// after mending the topmost windows stand above all others, and each owned window stands above its
/// owner.
pub fn mending_mends()
    ensures { (age : ℕ → ℕ) (ts : List TopLevel) → AreOwned age ts → IsMended (mended ts) }
{}

/// A list in which topmost windows stand above all others, and owned windows above their owners, stays
/// as it is: no window is moved without need.
pub fn a_mended_list_stays()
    ensures { (ts : List TopLevel) → IsMended ts → mended ts ≡ ts }
{}

/// Mending a second time changes nothing.
pub fn mending_twice_is_mending()
    ensures { (age : ℕ → ℕ) (ts : List TopLevel) → AreOwned age ts → mended (mended ts) ≡ mended ts }
{}

/// A mended list stays mended, and in its order, without windows that go with all that they own.
pub fn removal_keeps_a_mended_list()
    ensures mended { (gone : ℕ → Bool) (ts : List TopLevel) → list_all (goes_along gone) ts ≡ true → IsMended ts → IsMended (staying gone ts) }
    ensures stays { (gone : ℕ → Bool) (ts : List TopLevel) → list_all (goes_along gone) ts ≡ true → IsMended ts → mended (staying gone ts) ≡ staying gone ts }
{}

/// The list that `Order::insert` and `Order::place` make of the top-level windows has the same windows,
/// and is mended where every owner is among them, older than what it owns, and topmost only where that
/// is.
pub fn the_top_level_windows_are_mended()
    ensures moved { (ss : List Standing) (ws : List Hwnd) → IsPermutation ws (settled ss 0 ws) }
    ensures mended { (age : ℕ → ℕ) (ss : List Standing) (ws : List Hwnd) → AreOwned age (map (top_level ss) ws) → IsMended (map (top_level ss) (settled ss 0 ws)) }
{}

/// An order in which no window stands keeps what every order keeps: owners and parents are older windows
/// that stand, owners and what they own are top-level windows, each window is once in the list of its
/// parent and in no other, and the top-level windows are mended.
pub fn an_empty_order_is_kept()
    ensures { IsKept empty }
{}

/// A new window leaves what every order keeps.
pub fn insertion_keeps_the_order()
    ensures { (w p owner : Hwnd) (topmost : Bool) (z : Layers) → IsKept z → IsNew w.0 p.0 owner.0 z → IsKept (inserted w p owner topmost z) }
{}

/// A window that is put elsewhere leaves what every order keeps.
pub fn placing_keeps_the_order()
    ensures { (w : Hwnd) (after : After) (z : Layers) → IsKept z → IsPlace w.0 after z → IsKept (placed w after z) }
{}

/// Windows that are taken out, one or several at once, leave what every order keeps.
pub fn removal_keeps_the_order()
    ensures one { (w : ℕ) (z : Layers) → IsKept z → IsTrue (stands w z) → IsTrue (has_none w z) → IsKept (removed w z) }
    ensures several { (staying : List Hwnd) (z : Layers) → IsKept z → may_stay staying z.standings ≡ true → IsKept (kept staying z) }
{}

/// What every order keeps has the premises of `mending_mends`, by the place of each window among all,
/// counted from the oldest, as its age.
pub fn kept_orders_meet_the_premises()
    ensures { (z : Layers) → IsKept z → AreOwned (age_in z.standings) (top_levels z) }
{}
