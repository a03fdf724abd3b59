//! Laws of the z-order and of the owners of pixels. Each is a function that does nothing; its contract is the law.

ghost use Rattle.std.specs.Prelude.{◌≡◌, ◌≢◌, ℕ, List, cond, true};
ghost use Rattle.win_num.specs.declared.message.Hwnd.{Hwnd};
ghost use Rattle.win_num.specs.declared.shapes.Point.{Point};
ghost use Rattle.win_num.specs.PixelSets.{has_pixel};
ghost use Rattle.user_model.specs.Pixels.{covers, owner, screen};
ghost use Rattle.user_model.specs.Windows.{is_live, live, parent_in};
ghost use Rattle.user_model.specs.declared.entry.Entry.{Entry};
ghost use Rattle.user_model.specs.declared.entry.Setup.{Setup};
ghost use Rattle.user_model.specs.Legal.{IsLawful};
ghost use Rattle.user_model.specs.ZOrder.{siblings, standings};
ghost use Rattle.win_order.specs.Kept.{age_in, is_child, times};
ghost use Rattle.win_order.specs.Mended.{AreOwned, IsMended};
ghost use Rattle.user_laws.specs.Ranks.{top_levels};

/// Each live window is once in the list of its parent, or of the screen, and in no other list. Of the top-level windows the
/// topmost ones stand above all others, and each owned window stands above its owner, in every lawful past; for the list has the
/// premises of `win_order`'s law of mending: owners are older windows in it, topmost only where what they own is (Microsoft,
/// SetWindowPos function and Window Features, Z-Order).
pub fn siblings_are_mended()
    ensures listed { (setup : Setup) (past : List Entry) (p w : ℕ) → IsLawful setup past → times w (siblings past p) ≡ cond (is_child w p (standings past)) 1 0 }
    ensures mended { (setup : Setup) (past : List Entry) → IsLawful setup past → IsMended (top_levels past) }
    ensures premises { (setup : Setup) (past : List Entry) → IsLawful setup past → AreOwned (age_in (standings past)) (top_levels past) }
{}

/// Who owns a pixel is a live window that has it and WS_VISIBLE, and the pixel is one of the screen (`live`, `covers`,
/// `on_screen`). Each pixel of the screen under a visible top-level window has an owner (`some`). No pixel has two owners, since
/// the owner is told as one window (Microsoft, WindowFromPoint function).
pub fn owners_have_their_pixels()
    ensures live { (setup : Setup) (past : List Entry) (p : Point) → IsLawful setup past → (owner setup past p).0 ≢ 0 → is_live past (owner setup past p).0 ≡ true }
    ensures covers { (setup : Setup) (past : List Entry) (p : Point) → IsLawful setup past → (owner setup past p).0 ≢ 0 → covers past p (owner setup past p) ≡ true }
    ensures on_screen { (setup : Setup) (past : List Entry) (p : Point) → IsLawful setup past → (owner setup past p).0 ≢ 0 → has_pixel (screen setup) p ≡ true }
    ensures some { (setup : Setup) (past : List Entry) (p : Point) (w : Hwnd) → IsLawful setup past → is_live past w.0 ≡ true → parent_in (live past) w.0 ≡ 0 → covers past p w ≡ true → has_pixel (screen setup) p ≡ true → (owner setup past p).0 ≢ 0 }
{}
