//! Screens.

ghost use Rattle.std.specs.Prelude.{◌≡◌, ℕ, ◌*◌, ◌<◌, get_or, length, IfOk};
ghost use Rattle.band_region.specs.Regions.{region_has};
ghost use Rattle.screen_buf.specs.Pictures.{colour_at, blank, IsCarried, IsPainted, LiesOn};

use crate::carry::carry_rects;
use crate::paint::paint_rects;
use band_region::Region;
use std::alloc::{AllocError, Global};
use std::marker::Model;

/// A colour, 0 to 255, for each pixel of a screen. Beside them is room for as many, which a move of pixels goes through.
#[derive(Drop)]
pub struct Screen {
    width: u16,
    height: u16,
    pixels: Vec<u8>,
    room: Vec<u8>,
}

impl Model for Screen {
    ghost use Rattle.std.specs.Prelude.{◌≡◌, ◌*◌, length};
    ghost use Rattle.screen_buf.specs.Pictures.{Picture};

    ghost Value = { Picture };

    ghost view = { λ a. record { width = a.width; height = a.height; colours = a.pixels.items } };

    ghost invariant = { λ a. (length a.pixels.items ≡ a.height * a.width) × (length a.room.items ≡ a.height * a.width) };
}

impl Screen {
    /// A screen of `w` times `h` pixels, all of colour 0.
    pub fn new(alloc: Global, w: u16, h: u16) -> Result<Screen, AllocError>
        ensures { IfOk result (λ s. s ≡ blank w h) }
    {
        let pixels = vec![in alloc; 0u8; h as usize * w as usize]?;
        let room = vec![in alloc; 0u8; h as usize * w as usize]?;
        Ok(Screen {
            width: w,
            height: h,
            pixels,
            room,
        })
    }

    /// Gives the colour to the region's pixels on the screen (Microsoft, FillRgn function).
    pub fn fill(&mut self, r: &Region, colour: u8)
        ensures { IsPainted self.old (λ p. region_has r.now p) colour self.new }
    {
        paint_rects(
            self.pixels.as_mut_slice(),
            self.width,
            self.height,
            r.rects(),
            colour,
        );
    }

    /// Gives each pixel p of the region the colour that p - (dx, dy) had before, all at once, in pixels (Microsoft,
    /// BitBlt function, from a screen to itself). The region and its pixels moved back lie on the screen.
    pub fn carry(&mut self, to: &Region, dx: i32, dy: i32)
        requires { LiesOn self.old.width self.old.height (λ p. region_has to.now p) dx dy }
        ensures { IsCarried self.old (λ p. region_has to.now p) dx dy self.new }
    {
        let (width, height) = (self.width, self.height);
        let room = self.room.as_mut_slice();
        carry_rects(
            room,
            self.pixels.as_slice(),
            width,
            height,
            to.rects(),
            dx,
            dy,
        );
        let pixels = self.pixels.as_mut_slice();
        carry_rects(
            pixels,
            self.room.as_slice(),
            width,
            height,
            to.rects(),
            0,
            0,
        );
    }

    /// The colours of row `y`, from left to right.
    pub fn row(&self, y: u16) -> &[u8]
        requires { y < self.now.height }
        ensures width { length result.now ≡ self.now.width }
        ensures colours { (x : ℕ) → x < self.now.width → get_or result.now x 0 ≡ colour_at self.now x y }
    {
        let width = self.width as usize;
        let start = y as usize * width;
        &self.pixels[start..start + width]
    }

    /// The colours of all pixels, row by row, each from left to right.
    pub fn frame(&self, alloc: Global) -> Result<Vec<u8>, AllocError>
        ensures colours { IfOk result (λ v. v.items ≡ self.now.colours) }
        ensures size { IfOk result (λ v. length v.items ≡ self.now.height * self.now.width) }
    {
        Vec::from_slice(alloc, self.pixels.as_slice())
    }
}
