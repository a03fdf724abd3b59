//! Laws of colours and frames. Each is a function that does nothing; its contract is the law.

ghost use Rattle.std.specs.Prelude.{if◌then◌else◌, ◌==◌, ◌≡◌, ◌≢◌, ℕ, List, [], ◌∷◌, ◌++◌, Some, true, false};
ghost use Rattle.win_num.specs.declared.shapes.Point.{Point};
ghost use Rattle.user_model.specs.declared.call.Call.TheVariants.{BeginPaint, EndPaint, Snap as CallSnap};
ghost use Rattle.user_model.specs.declared.entry.Answer.TheVariants.{Snap};
ghost use Rattle.user_model.specs.declared.entry.Entry.{Entry};
ghost use Rattle.user_model.specs.declared.entry.Setup.{Setup};
ghost use Rattle.user_model.specs.Past.{is_refused};
ghost use Rattle.user_model.specs.Legal.{IsLawful};
ghost use Rattle.user_model.specs.Pixels.{owner};
ghost use Rattle.user_model.specs.Dirty.{came_from, carries, is_dirty};
ghost use Rattle.user_model.specs.Painting.{is_painting};
ghost use Rattle.user_model.specs.Colours.{colour, frame, frame_of, is_in_clip};
ghost use Rattle.user_laws.specs.Colours.{colour_after};

/// Before any entry each pixel has colour 0 (`first`). After an entry that isn't refused it has colour 0 where no window owns it
/// then; else, where the entry carries it for the window that owns it, the colour that the pixel had before where it came from; else,
/// where the entry painted a rectangle of a window or erased one, the colour of the call or of the window's class exactly where the
/// pixel lies in the rectangle, the window owns it and it is in the window's clip; else the colour as before (`painted`). So a pixel
/// that no window owns has colour 0 (`unowned`). A refused entry changes no colour (`refused`) (Microsoft, FillRect and SetWindowPos
/// functions, WM_ERASEBKGND message).
pub fn colours_follow()
    ensures first { (setup : Setup) (p : Point) → colour setup [] p ≡ 0 }
    ensures painted { (setup : Setup) (past : List Entry) (e : Entry) (p : Point) → is_refused e ≡ false → colour setup (e ∷ past) p ≡ (if (owner setup (e ∷ past) p).0 == 0 then 0 else (if carries setup e past (owner setup (e ∷ past) p).0 p then colour setup past (came_from e past (owner setup (e ∷ past) p).0 p) else colour_after setup p e.call past (colour setup past p))) }
    ensures unowned { (setup : Setup) (past : List Entry) (p : Point) → (owner setup past p).0 ≡ 0 → colour setup past p ≡ 0 }
    ensures refused { (setup : Setup) (past : List Entry) (e : Entry) (p : Point) → is_refused e ≡ true → colour setup (e ∷ past) p ≡ colour setup past p }
{}

/// The clip of a window has every pixel while the window isn't being painted (`all`). Where its painting begins, those alone are in it
/// that were dirty before (`begun`), and they stay so, whatever becomes dirty or clean, until the painting ends or begins anew (`kept`)
/// (Microsoft, BeginPaint function).
pub fn clips_follow()
    ensures all { (setup : Setup) (past : List Entry) (w : ℕ) (p : Point) → is_painting past w ≡ false → is_in_clip setup past w p ≡ true }
    ensures begun { (setup : Setup) (past : List Entry) (e : Entry) (w : ℕ) (p : Point) → is_refused e ≡ false → e.call ≡ BeginPaint w → is_in_clip setup (e ∷ past) w p ≡ is_dirty setup past w p }
    ensures kept { (setup : Setup) (past : List Entry) (e : Entry) (w : ℕ) (p : Point) → e.call ≢ BeginPaint w → e.call ≢ EndPaint w → is_in_clip setup (e ∷ past) w p ≡ is_in_clip setup past w p }
{}

/// A snap that is answered with a number keeps as the frame of this number exactly the colours before it (`snapped`). A frame that is
/// kept stays as it is, whatever comes after (`stays`), and none comes but by a snap (`others`).
pub fn frames_stay()
    ensures snapped { (setup : Setup) (past : List Entry) (e : Entry) (k : ℕ) → IsLawful setup (e ∷ past) → e.answer ≡ Snap k → frame_of setup (e ∷ past) k ≡ Some (frame setup past) }
    ensures stays { (setup : Setup) (past : List Entry) (later : List Entry) (k : ℕ) (f : List ℕ) → frame_of setup past k ≡ Some f → frame_of setup (later ++ past) k ≡ Some f }
    ensures others { (setup : Setup) (past : List Entry) (e : Entry) (k : ℕ) → e.call ≢ CallSnap → frame_of setup (e ∷ past) k ≡ frame_of setup past k }
{}
