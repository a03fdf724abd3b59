use band_region::Region;
use std::alloc::{AllocError, Global};
use std::test::Fail;
use win_num::{Point, Rect, rect};

type Edges = (i32, i32, i32, i32);

/// How a region is made of rectangles.
#[derive(Clone, Copy)]
enum Made {
    Or(Edges, Edges),
    Diff(Edges, Edges),
    And(Edges, Edges),
    /// Of a rectangle and a copy of it.
    Xor(Edges),
    /// The square 0 0 2 2, moved by 1 -1.
    Moved,
}

/// A region's kind, its bounds, whether it has these rectangles, whether it has the pixels 0 0 and 1 1, and
/// whether it is the same as its bounds and as no pixel.
type Told = (u8, Edges, bool, (bool, bool), (bool, bool));

fn edges(r: &Rect) -> Edges {
    (r.l(), r.t(), r.r(), r.b())
}

fn of(alloc: Global, edges: Edges) -> Result<Region, AllocError> {
    match rect(edges.0, edges.1, edges.2, edges.3) {
        Ok(x) => Region::of_rect(alloc, x),
        Err(_) => Err(AllocError),
    }
}

fn moved_square(alloc: Global) -> Result<Region, AllocError> {
    let Ok(square) = rect(0, 0, 2, 2) else {
        return Err(AllocError);
    };
    let region = Region::of_rect(alloc, square)?;
    region.shifted(alloc, 1, -1)
}

fn region_of(alloc: Global, made: Made) -> Result<Region, AllocError> {
    match made {
        Made::Or(a, b) => of(alloc, a)?.or(alloc, &of(alloc, b)?),
        Made::Diff(a, b) => of(alloc, a)?.diff(alloc, &of(alloc, b)?),
        Made::And(a, b) => of(alloc, a)?.and(alloc, &of(alloc, b)?),
        Made::Xor(a) => {
            let a = of(alloc, a)?;
            a.xor(alloc, &a.copy(alloc)?)
        }
        Made::Moved => moved_square(alloc),
    }
}

fn are(rects: &[Rect], wanted: &[Edges]) -> bool {
    for (r, w) in rects.iter().zip(wanted.iter()) {
        if edges(r) != *w {
            return false;
        }
    }
    rects.len() == wanted.len()
}

fn look(alloc: Global, region: &Region, wanted: &[Edges]) -> Result<Told, AllocError> {
    let bounds = region.bounds();
    let has = (
        region.has(Point { x: 0, y: 0 }),
        region.has(Point { x: 1, y: 1 }),
    );
    let same = (
        region.same(&Region::of_rect(alloc, bounds)?),
        region.same(&Region::empty(alloc)),
    );
    let rects = are(region.rects(), wanted);
    Ok((region.kind(), edges(&bounds), rects, has, same))
}

/// Neighbours, a hole, a rectangle and its copy, rectangles that overlap, and a square that is moved.
#[test]
fn made_of_rectangles(rt: HostRuntime) -> Result<(), Fail> {
    let around_hole = [(0, 0, 4, 1), (0, 1, 1, 2), (3, 1, 4, 2), (0, 2, 4, 3)];
    for (how, rects, want) in [
        (
            Made::Or((0, 0, 2, 2), (2, 0, 4, 2)),
            [(0, 0, 4, 2)].as_slice(),
            (2, (0, 0, 4, 2), true, (true, true), (true, false)),
        ),
        (
            Made::Diff((0, 0, 4, 3), (1, 1, 3, 2)),
            around_hole.as_slice(),
            (3, (0, 0, 4, 3), true, (true, false), (false, false)),
        ),
        (
            Made::Xor((0, 0, 4, 3)),
            &[],
            (1, (0, 0, 0, 0), true, (false, false), (true, true)),
        ),
        (
            Made::And((0, 0, 4, 2), (1, 1, 9, 9)),
            &[(1, 1, 4, 2)],
            (2, (1, 1, 4, 2), true, (false, true), (true, false)),
        ),
        (
            Made::Moved,
            &[(1, -1, 3, 1)],
            (2, (1, -1, 3, 1), true, (false, false), (true, false)),
        ),
    ] {
        let region = region_of(rt.alloc(), how)?;
        assert_eq!(rt; look(rt.alloc(), &region, rects)?, want);
    }
    Ok(())
}
