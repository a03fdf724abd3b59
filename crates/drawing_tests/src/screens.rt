use band_region::Region;
use screen_buf::Screen;
use std::alloc::{AllocError, Global};
use win_num::rect;

fn of(alloc: Global, l: i32, t: i32, r: i32, b: i32) -> Result<Region, AllocError> {
    match rect(l, t, r, b) {
        Ok(x) => Region::of_rect(alloc, x),
        Err(_) => Err(AllocError),
    }
}

#[test]
fn one_pixel_of_two_is_filled(rt: HostRuntime) {
    let mut screen = Screen::new(rt.alloc(), 2, 1).expect(&rt, "memory");
    let first = of(rt.alloc(), 0, 0, 1, 1).expect(&rt, "memory");
    screen.fill(&first, 7);
    let frame = screen.frame(rt.alloc()).expect(&rt, "memory");
    assert!(rt; frame.as_slice() == [7, 0].as_slice());
}

#[test]
fn region_reaches_past_every_edge(rt: HostRuntime) {
    let mut screen = Screen::new(rt.alloc(), 2, 3).expect(&rt, "memory");
    let wide = of(rt.alloc(), -5, 1, 9, 2).expect(&rt, "memory");
    let high = of(rt.alloc(), 1, -5, 2, 9).expect(&rt, "memory");
    screen.fill(&wide.or(rt.alloc(), &high).expect(&rt, "memory"), 5);
    let frame = screen.frame(rt.alloc()).expect(&rt, "memory");
    assert!(rt; frame.as_slice() == [0, 5, 5, 5, 0, 5].as_slice());
    assert!(rt; screen.row(1) == [5, 5].as_slice());
}

/// A row of three pixels with the colours 1, 2 and 0, after its last two pixels were given the colours of the first two.
fn moved_right(alloc: Global) -> Result<Vec<u8>, AllocError> {
    let first = of(alloc, 0, 0, 1, 1)?;
    let second = of(alloc, 1, 0, 2, 1)?;
    let Ok(part) = rect(1, 0, 3, 1) else {
        return Err(AllocError);
    };
    let last_two = Region::of_rect(alloc, part)?;
    let mut screen = Screen::new(alloc, 3, 1)?;
    screen.fill(&first, 1);
    screen.fill(&second, 2);
    screen.carry(&last_two, 1, 0);
    screen.frame(alloc)
}

#[test]
fn pixels_move_over_themselves(rt: HostRuntime) {
    let frame = moved_right(rt.alloc()).expect(&rt, "memory");
    assert!(rt; frame.as_slice() == [1, 1, 2].as_slice());
}
