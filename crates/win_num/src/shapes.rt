//! Points and rectangles.

ghost use Rattle.std.specs.Prelude.{◌≡◌, ◌↔◌, ◌≤ℤ◌, pos, negsuc, IsTrue};
ghost use Rattle.win_num.specs.PixelSets.{box, has_pixel};

/// A point of the screen, of a window or of a larger plane, in pixels.
#[derive(Clone, Copy, Debug, PartialEq, Eq)]
pub struct Point {
    pub x: i32,
    pub y: i32,
}

/// A rectangle of pixels from its left and top edge up to its right and bottom edge, these two left
/// out (Microsoft, RECT structure). Each edge is from -8388608 to 8388608 pixels, and none is crossed.
#[derive(Clone, Copy, Debug, PartialEq, Eq)]
pub struct Rect {
    pub(crate) l: i32,
    pub(crate) t: i32,
    pub(crate) r: i32,
    pub(crate) b: i32,
    ghost across: { l ≤ℤ r },
    ghost down: { t ≤ℤ b },
    ghost left_near: { negsuc 8388607 ≤ℤ l },
    ghost top_near: { negsuc 8388607 ≤ℤ t },
    ghost right_near: { r ≤ℤ pos 8388608 },
    ghost bottom_near: { b ≤ℤ pos 8388608 },
}

/// The edges are crossed or too far away, so they make no rectangle.
#[derive(Clone, Copy, Debug, PartialEq, Eq)]
pub struct BadRect;

impl Rect {
    /// The left edge, in pixels.
    pub fn l(&self) -> i32
        ensures { result ≡ self.now.l }
    {
        self.l
    }

    /// The top edge, in pixels.
    pub fn t(&self) -> i32
        ensures { result ≡ self.now.t }
    {
        self.t
    }

    /// The right edge, in pixels.
    pub fn r(&self) -> i32
        ensures { result ≡ self.now.r }
    {
        self.r
    }

    /// The bottom edge, in pixels.
    pub fn b(&self) -> i32
        ensures { result ≡ self.now.b }
    {
        self.b
    }

    /// Whether the pixel is one of the rectangle's (Microsoft, PtInRect function).
    pub fn has(&self, p: Point) -> bool
        ensures { IsTrue result ↔ IsTrue (has_pixel (box self.now.l self.now.t self.now.r self.now.b) p) }
    {
        if p.x < self.l || self.r <= p.x {
            return false;
        }
        self.t <= p.y && p.y < self.b
    }
}
