//! Laws of dirty pixels. Each is a function that does nothing; its contract is the law.

ghost use Rattle.std.specs.Prelude.{◌≡◌, ◌&&◌, ◌||◌, not, ℕ, List, ◌∷◌, true, false};
ghost use Rattle.win_num.specs.declared.shapes.Point.{Point};
ghost use Rattle.user_model.specs.declared.entry.Entry.{Entry};
ghost use Rattle.user_model.specs.declared.entry.Setup.{Setup};
ghost use Rattle.user_model.specs.Past.{is_refused};
ghost use Rattle.user_model.specs.Legal.{IsLawful};
ghost use Rattle.user_model.specs.Windows.{is_live};
ghost use Rattle.user_model.specs.Dirty.{came_from, carries, cleans, copies_bits, exposes, exposes_some, invalidates, is_dirty, moves, must_erase, owns};
ghost use Rattle.user_model.specs.Colours.{colour};

/// After an entry that isn't refused a pixel is dirty for a window exactly where the window owns it and it was exposed or
/// invalidated by the entry, or was dirty and neither carried along clean nor made clean (`changed`). A refused entry leaves which pixels
/// are dirty (`refused`) (Microsoft, InvalidateRect, ValidateRect, BeginPaint and SetWindowPos functions).
pub fn dirty_pixels_follow()
    ensures changed { (setup : Setup) (past : List Entry) (e : Entry) (w : ℕ) (p : Point) → is_refused e ≡ false → is_dirty setup (e ∷ past) w p ≡ (owns setup (e ∷ past) w p && ((exposes setup e past w p || invalidates setup e.call past w p) || (not (carries setup e past w p || cleans e.call past w p) && is_dirty setup past w p))) }
    ensures refused { (setup : Setup) (past : List Entry) (e : Entry) (w : ℕ) (p : Point) → is_refused e ≡ true → is_dirty setup (e ∷ past) w p ≡ is_dirty setup past w p }
{}

/// A window with a dirty pixel is live, and owns the pixel (Microsoft, WM_PAINT message).
pub fn painted_windows_are_live()
    ensures live { (setup : Setup) (past : List Entry) (w : ℕ) (p : Point) → IsLawful setup past → is_dirty setup past w p ≡ true → is_live past w ≡ true }
    ensures owned { (setup : Setup) (past : List Entry) (w : ℕ) (p : Point) → is_dirty setup past w p ≡ true → owns setup past w p ≡ true }
{}

/// An entry carries a pixel for a window exactly where it places a window without SWP_NOCOPYBITS, the rectangle of the window on the
/// screen is another one after it, and the window owns the pixel then and owned the one that it came from, which was clean (`carried`).
/// The pixel is clean then (`clean`), and has the colour that was there (`coloured`). What the window owns then, and either didn't own
/// before or has with another rectangle, is exposed where it isn't carried (`exposed`). An entry that exposes a pixel of a window sets
/// its erase flag (`flagged`), and a place that exposes none leaves it (`unflagged`) (Microsoft, SetWindowPos function).
pub fn windows_take_pixels_along()
    ensures carried { (setup : Setup) (past : List Entry) (e : Entry) (w : ℕ) (p : Point) → carries setup e past w p ≡ ((copies_bits e.call && moves e past w) && (owns setup (e ∷ past) w p && (owns setup past w (came_from e past w p) && not (is_dirty setup past w (came_from e past w p))))) }
    ensures clean { (setup : Setup) (past : List Entry) (e : Entry) (w : ℕ) (p : Point) → is_refused e ≡ false → carries setup e past w p ≡ true → is_dirty setup (e ∷ past) w p ≡ false }
    ensures coloured { (setup : Setup) (past : List Entry) (e : Entry) (w : ℕ) (p : Point) → is_refused e ≡ false → carries setup e past w p ≡ true → colour setup (e ∷ past) p ≡ colour setup past (came_from e past w p) }
    ensures exposed { (setup : Setup) (past : List Entry) (e : Entry) (w : ℕ) (p : Point) → exposes setup e past w p ≡ ((owns setup (e ∷ past) w p && (moves e past w || not (owns setup past w p))) && not (carries setup e past w p)) }
    ensures flagged { (setup : Setup) (past : List Entry) (e : Entry) (w : ℕ) → is_refused e ≡ false → exposes_some setup e past w ≡ true → must_erase setup (e ∷ past) w ≡ true }
    ensures unflagged { (setup : Setup) (past : List Entry) (e : Entry) (w : ℕ) → is_refused e ≡ false → copies_bits e.call ≡ true → exposes_some setup e past w ≡ false → must_erase setup (e ∷ past) w ≡ must_erase setup past w }
{}
