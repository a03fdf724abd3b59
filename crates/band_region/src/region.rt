//! Regions.

ghost use Rattle.std.specs.Prelude.{◌≡◌, ◌↔◌, ◌≤◌, [], false, not, ◌&&◌, ◌||◌, pos, IsTrue, IfOk, All};
ghost use Rattle.win_num.specs.declared.shapes.Point.{Point as Pixel};
ghost use Rattle.win_num.specs.PixelSets.{box, has_pixel};
ghost use Rattle.win_num.specs.Rects.{box_in};
ghost use Rattle.band_region.specs.Columns.{kept};
ghost use Rattle.band_region.specs.Regions.{region_has, is_in_one, moved_back, StaysInPlane, IsDisjoint, IsFilled, IsBanded, IsEmpty, IsOneRectangle, IsLeastAround, IsSameSet};

use crate::bands::mixed;
use crate::columns::Mix;
use crate::covering::{least_around, rect_at};
use crate::pieces::{known_rect, moved_all};
use std::alloc::{AllocError, Global};
use std::marker::Model;
use win_num::{Point, Rect};

/// A set of pixels of the plane (Microsoft, Regions). Contracts see it as its list of rectangles.
#[derive(Drop)]
pub struct Region {
    rects: Vec<Rect>,
}

impl Model for Region {
    ghost use Rattle.std.specs.Prelude.{List};
    ghost use Rattle.win_num.specs.declared.shapes.Rect.{Rect};
    ghost use Rattle.band_region.specs.Regions.{IsBanded};

    ghost Value = { List Rect };

    ghost view = { λ a. a.rects.items };

    ghost invariant = { λ a. IsBanded a.rects.items };
}

impl Region {
    /// The region without pixels.
    pub fn empty(alloc: Global) -> Region
        ensures { result ≡ [] }
    {
        Region {
            rects: Vec::new(alloc),
        }
    }

    /// The pixels of the rectangle (Microsoft, CreateRectRgn function).
    pub fn of_rect(alloc: Global, r: Rect) -> Result<Region, AllocError>
        ensures { IfOk result (λ x. (p : Pixel) → region_has x p ≡ has_pixel (box_in r) p) }
    {
        let mut rects = Vec::new(alloc);
        if r.l() < r.r() && r.t() < r.b() {
            rects.push(r)?;
        }
        Ok(Region { rects })
    }

    /// The pixels that both regions have (Microsoft, CombineRgn function, RGN_AND).
    pub fn and(&self, alloc: Global, o: &Region) -> Result<Region, AllocError>
        ensures { IfOk result (λ x. (p : Pixel) → region_has x p ≡ (region_has self.now p && region_has o.now p)) }
    {
        self.mixed(alloc, o, Mix::And)
    }

    /// The pixels that one of the regions has, or both (Microsoft, CombineRgn function, RGN_OR).
    pub fn or(&self, alloc: Global, o: &Region) -> Result<Region, AllocError>
        ensures { IfOk result (λ x. (p : Pixel) → region_has x p ≡ (region_has self.now p || region_has o.now p)) }
    {
        self.mixed(alloc, o, Mix::Or)
    }

    /// The pixels that one of the regions has and the other hasn't (Microsoft, CombineRgn function,
    /// RGN_XOR).
    pub fn xor(&self, alloc: Global, o: &Region) -> Result<Region, AllocError>
        ensures { IfOk result (λ x. (p : Pixel) → region_has x p ≡ is_in_one (region_has self.now p) (region_has o.now p)) }
    {
        self.mixed(alloc, o, Mix::Xor)
    }

    /// The pixels that the region has and the other one hasn't (Microsoft, CombineRgn function,
    /// RGN_DIFF).
    pub fn diff(&self, alloc: Global, o: &Region) -> Result<Region, AllocError>
        ensures { IfOk result (λ x. (p : Pixel) → region_has x p ≡ (region_has self.now p && not (region_has o.now p))) }
    {
        self.mixed(alloc, o, Mix::Diff)
    }

    /// The pixels that are kept of both regions.
    fn mixed(&self, alloc: Global, o: &Region, mix: Mix) -> Result<Region, AllocError>
        ensures { IfOk result (λ x. (p : Pixel) → region_has x p ≡ kept mix (region_has self.now p) (region_has o.now p)) }
    {
        let rects = mixed(alloc, self.rects.as_slice(), o.rects.as_slice(), mix)?;
        Ok(Region { rects })
    }

    /// Each pixel moved by so many pixels to the right and down (Microsoft, OffsetRgn function).
    pub fn shifted(&self, alloc: Global, dx: i32, dy: i32) -> Result<Region, AllocError>
        requires { StaysInPlane self.now dx dy }
        ensures { IfOk result (λ x. (p : Pixel) → region_has x p ≡ region_has self.now (moved_back dx dy p)) }
    {
        let rects = moved_all(alloc, self.rects.as_slice(), dx, dy)?;
        Ok(Region { rects })
    }

    /// The same region again.
    pub fn copy(&self, alloc: Global) -> Result<Region, AllocError>
        ensures { IfOk result (λ x. x ≡ self.now) }
    {
        let rects = Vec::from_slice(alloc, self.rects.as_slice())?;
        Ok(Region { rects })
    }

    /// Whether the region has the pixel (Microsoft, PtInRegion function).
    pub fn has(&self, p: Point) -> bool
        ensures { result ≡ region_has self.now p }
    {
        rect_at(self.rects.as_slice(), p).is_some()
    }

    /// 1 for a region without pixels, 2 where it is all pixels of one rectangle, else 3 (Microsoft,
    /// GetRgnBox function: NULLREGION, SIMPLEREGION and COMPLEXREGION).
    pub fn kind(&self) -> u8
        ensures empty { (result ≡ 1) ↔ IsEmpty self.now }
        ensures one { (result ≡ 2) ↔ IsOneRectangle self.now }
        ensures least { 1 ≤ result }
        ensures most { result ≤ 3 }
    {
        match self.rects.len() {
            0 => 1,
            1 => 2,
            _ => 3,
        }
    }

    /// The least rectangle around the region, or 0 0 0 0 where it has no pixel (Microsoft, GetRgnBox
    /// function).
    pub fn bounds(&self) -> Rect
        ensures around { IsLeastAround self.now (box_in result) }
        ensures empty { IsEmpty self.now → box_in result ≡ box (pos 0) (pos 0) (pos 0) (pos 0) }
    {
        match self.rects.as_slice().split_first() {
            Some((first, others)) => least_around(*first, others),
            None => known_rect(0, 0, 0, 0),
        }
    }

    /// The region's rectangles, in bands from top to bottom, each from left to right. This is the one
    /// list in bands of its pixels: rows that are the same and touch are one band, and rectangles of a
    /// band don't touch.
    pub fn rects(&self) -> &[Rect]
        ensures value { result.now ≡ self.now }
        ensures bands { IsBanded result.now }
        ensures disjoint { IsDisjoint result.now }
        ensures filled { All IsFilled result.now }
    {
        self.rects.as_slice()
    }

    /// Whether both regions have the same pixels (Microsoft, EqualRgn function).
    pub fn same(&self, o: &Region) -> bool
        ensures { IsTrue result ↔ IsSameSet self.now o.now }
    {
        self.rects == o.rects
    }
}
