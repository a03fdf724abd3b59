//! Laws of the owners of pixels, each the contract of a function that does nothing.

ghost use Rattle.std.specs.Prelude.{◌≡◌, ℕ, List};
ghost use Rattle.win_num.specs.declared.shapes.Point.{Point};
ghost use Rattle.win_order.specs.Layers.{Layers};
ghost use Rattle.win_rows.specs.declared.window.Window.{Window};
ghost use Rattle.win_rows.specs.Windows.{nobody, IsOrdered, Windows};
ghost use Rattle.user_model.specs.Past.{Past};
ghost use Rattle.window_state.specs.Orders.{IsOrderAt};
ghost use Rattle.window_state.specs.Pixels.{owner_in};
ghost use Rattle.window_state.specs.Trees.{IsTreeAt};
ghost use Rattle.screen_owners.specs.Owners.{AreChildren};
ghost use Rattle.screen_owners.specs.Shown.{NoneIsShown, ShowsSame};

/// Where no live window has WS_VISIBLE, no window owns a pixel.
pub fn hidden_windows_own_nothing()
    ensures { (ws : List Window) (z : Layers) → NoneIsShown ws → (width height : ℕ) (p : Point) → owner_in ws z width height p ≡ nobody }
{}

/// Where two tables of windows and of the z-order show the same, each pixel has the same owner: windows
/// without WS_VISIBLE, and those that stand under them alone, may come, go and change.
pub fn what_is_hidden_changes_no_owner()
    ensures { (ws : List Window) (z : Layers) (last : ℕ) (us : List Window) (y : Layers) (newer : ℕ) → IsOrdered 15 last ws → AreChildren ws z → IsOrdered 15 newer us → AreChildren us y → ShowsSame ws z us y → (width height : ℕ) (p : Point) → owner_in us y width height p ≡ owner_in ws z width height p }
{}

/// The tables that a past has made meet what `owned_regions` asks.
pub fn listed_children_are_children()
    ensures { (past : Past) (t : Windows) (z : Layers) → IsOrdered 15 t.last t.live → IsTreeAt past t → IsOrderAt past z → AreChildren t.live z }
{}
