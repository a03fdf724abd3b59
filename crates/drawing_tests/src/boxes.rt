use band_region::Region;
use region_box::{told_bounds, told_kind};
use std::alloc::{AllocError, Global};
use win_num::rect;

fn of(alloc: Global, l: i32, t: i32, r: i32, b: i32) -> Result<Region, AllocError> {
    match rect(l, t, r, b) {
        Ok(x) => Region::of_rect(alloc, x),
        Err(_) => Err(AllocError),
    }
}

fn edges(region: &Region) -> (i32, i32, i32, i32) {
    let around = told_bounds(region);
    (around.l(), around.t(), around.r(), around.b())
}

#[test]
fn two_corners_are_no_rectangle(rt: HostRuntime) {
    let first = of(rt.alloc(), 0, 0, 2, 1).expect(&rt, "memory");
    let last = of(rt.alloc(), 3, 1, 5, 4).expect(&rt, "memory");
    let both = first.or(rt.alloc(), &last).expect(&rt, "memory");
    assert!(rt; told_kind(&both) == 3);
    assert!(rt; edges(&both) == (0, 0, 5, 4));
    let none = both.diff(rt.alloc(), &both).expect(&rt, "memory");
    assert!(rt; told_kind(&none) == 1);
    assert!(rt; edges(&none) == (0, 0, 0, 0));
    assert!(rt; told_kind(&last) == 2);
    assert!(rt; edges(&last) == (3, 1, 5, 4));
}
