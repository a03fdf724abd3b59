//! Carrying colours from one place of a screen to another.

ghost use Rattle.std.specs.Prelude.{◌≡◌, ℕ, ◌+◌, ◌*◌, ◌≤◌, ◌<◌, pos, ◌-ℤ◌, ◌≤ℤ◌, length, All};
ghost use Rattle.band_region.specs.Regions.{rect_has, region_has, IsFilled};
ghost use Rattle.screen_buf.specs.Pictures.{LiesOn};
ghost use Rattle.screen_buf.specs.Carrying.{IsSpanCarried, IsBlockCarried, IsCopied, Fits};

use win_num::Rect;

/// A rectangle of pixels, so many columns wide and rows high, by its left top corner, and the corner of the rectangle
/// that its colours come from.
#[derive(Clone, Copy)]
pub(crate) struct Block {
    pub(crate) left: usize,
    pub(crate) top: usize,
    pub(crate) columns: usize,
    pub(crate) rows: usize,
    pub(crate) from_left: usize,
    pub(crate) from_top: usize,
}

/// Gives so many pixels from one place on the colours that as many pixels had from another place on.
fn carry_span(pixels: &mut [u8], before: &[u8], to: usize, from: usize, count: usize)
    requires to_within { to + count ≤ length pixels.old }
    requires from_within { from + count ≤ length before.now }
    ensures { IsSpanCarried pixels.old before.now to from count pixels.new }
{
    for i in 0..count {
        pixels[to + i] = before[from + i];
    }
}

/// Gives each pixel of the block the colour that the pixel had where it comes from, on a screen of this width and
/// height, in pixels.
fn carry_block(pixels: &mut [u8], before: &[u8], width: u16, height: u16, block: Block)
    requires to_size { length pixels.old ≡ height * width }
    requires from_size { length before.now ≡ height * width }
    requires fits { Fits width height block }
    ensures { IsBlockCarried pixels.old before.now width height block block.rows pixels.new }
{
    let width = width as usize;
    for row in 0..block.rows {
        let to = (block.top + row) * width + block.left;
        let from = (block.from_top + row) * width + block.from_left;
        carry_span(pixels, before, to, from, block.columns);
    }
}

/// How many pixels an edge lies right of another one, or below it.
fn distance(edge: i32, other: i32) -> usize
    requires least { pos 0 ≤ℤ (edge -ℤ other) }
    requires most { (edge -ℤ other) ≤ℤ pos 16777216 }
    ensures { pos result ≡ edge -ℤ other }
{
    (edge - other) as usize
}

/// Gives each pixel p of the rectangle the colour that p - (dx, dy) had before, on a screen of this width and height,
/// in pixels.
fn carry_rect(
    pixels: &mut [u8],
    before: &[u8],
    width: u16,
    height: u16,
    part: Rect,
    dx: i32,
    dy: i32,
)
    requires to_size { length pixels.old ≡ height * width }
    requires from_size { length before.now ≡ height * width }
    requires filled { IsFilled part }
    requires lies { LiesOn width height (λ p. rect_has part p) dx dy }
    ensures { IsCopied pixels.old before.now width height (λ p. rect_has part p) dx dy pixels.new }
{
    let block = Block {
        left: distance(part.l(), 0),
        top: distance(part.t(), 0),
        columns: distance(part.r(), part.l()),
        rows: distance(part.b(), part.t()),
        from_left: distance(part.l(), dx),
        from_top: distance(part.t(), dy),
    };
    carry_block(pixels, before, width, height, block);
}

/// Gives each pixel p of the rectangles the colour that p - (dx, dy) had before, on a screen of this width and
/// height, in pixels.
pub(crate) fn carry_rects(
    pixels: &mut [u8],
    before: &[u8],
    width: u16,
    height: u16,
    parts: &[Rect],
    dx: i32,
    dy: i32,
)
    requires to_size { length pixels.old ≡ height * width }
    requires from_size { length before.now ≡ height * width }
    requires filled { All IsFilled parts.now }
    requires lies { LiesOn width height (λ p. region_has parts.now p) dx dy }
    ensures { IsCopied pixels.old before.now width height (λ p. region_has parts.now p) dx dy pixels.new }
{
    for part in parts {
        carry_rect(pixels, before, width, height, *part, dx, dy);
    }
}
