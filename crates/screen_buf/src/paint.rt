//! Painting into the rows of a screen, which lie one after the other in a slice.

ghost use Rattle.std.specs.Prelude.{◌≡◌, ℕ, ◌*◌, ◌≤◌, ◌<◌, length};
ghost use Rattle.band_region.specs.Regions.{rect_has, region_has};
ghost use Rattle.screen_buf.specs.Spans.{IsClipped, IsSpanned, IsCoated};

use win_num::Rect;

/// The place, in pixels, of an edge on a screen of this size, or of the nearest edge of the screen.
fn on_screen(edge: i32, size: u16) -> usize
    ensures { IsClipped edge size result }
{
    edge.max(0).min(size as i32) as usize
}

/// Gives the colour to the pixels from one place up to another, that one left out.
fn paint_span(pixels: &mut [u8], from: usize, to: usize, colour: u8)
    requires ordered { from ≤ to }
    requires within { to ≤ length pixels.old }
    ensures { IsSpanned pixels.old from to colour pixels.new }
{
    for place in from..to {
        pixels[place] = colour;
    }
}

/// Gives the colour to the rectangle's pixels on a screen of this width and height, in pixels.
fn paint_rect(pixels: &mut [u8], width: u16, height: u16, part: Rect, colour: u8)
    requires { length pixels.old ≡ height * width }
    ensures { IsCoated pixels.old width height (λ p. rect_has part p) colour pixels.new }
{
    let left = on_screen(part.l(), width);
    let right = on_screen(part.r(), width);
    let top = on_screen(part.t(), height);
    let bottom = on_screen(part.b(), height);
    for y in top..bottom {
        let start = y * width as usize;
        paint_span(pixels, start + left, start + right, colour);
    }
}

/// Gives the colour to the pixels of all the rectangles on a screen of this width and height, in
/// pixels.
pub(crate) fn paint_rects(pixels: &mut [u8], width: u16, height: u16, parts: &[Rect], colour: u8)
    requires { length pixels.old ≡ height * width }
    ensures { IsCoated pixels.old width height (λ p. region_has parts.now p) colour pixels.new }
{
    for part in parts {
        paint_rect(pixels, width, height, *part, colour);
    }
}
