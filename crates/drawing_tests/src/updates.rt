use crate::facts::hold;
use band_region::Region;
use std::alloc::{AllocError, Global};
use std::process::Abort;
use std::test::Fail;
use update_region::Update;
use win_num::rect;

fn of(alloc: Global, l: i32, t: i32, r: i32, b: i32) -> Result<Region, AllocError> {
    match rect(l, t, r, b) {
        Ok(x) => Region::of_rect(alloc, x),
        Err(_) => Err(AllocError),
    }
}

fn invalidated(alloc: Global, update: &mut Update) -> Result<(), AllocError> {
    let whole = of(alloc, 0, 0, 4, 1)?;
    update.invalidate(alloc, &whole, true)
}

fn validated(alloc: Global, update: &mut Update) -> Result<(), AllocError> {
    let left = of(alloc, 0, 0, 2, 1)?;
    update.validate(alloc, &left)
}

fn kept(alloc: Global, update: &mut Update) -> Result<(), AllocError> {
    let owned = of(alloc, 0, 0, 3, 1)?;
    update.keep(alloc, &owned)
}

/// The first of the dirty pixels is carried, and then the other one.
fn carried(rt: &impl Abort, alloc: Global, update: &mut Update) -> Result<(), AllocError> {
    let first = of(alloc, 2, 0, 3, 1)?;
    let second = of(alloc, 3, 0, 4, 1)?;
    update.carry(&first)?;
    let around = update.dirty().bounds();
    let one = (around.l(), around.t(), around.r(), around.b()) == (3, 0, 4, 1);
    update.carry(&second)?;
    hold(rt, &[one, update.is_empty(), update.erase()]);
    Ok(())
}

/// What is dirty, and the flag, are taken.
fn taken(rt: &impl Abort, update: &mut Update) {
    let (region, erase) = update.take();
    let around = region.bounds();
    let facts = [
        (around.l(), around.t(), around.r(), around.b()) == (2, 0, 3, 1),
        erase,
        update.is_empty(),
        !update.erase(),
    ];
    hold(rt, &facts);
}

#[test]
fn one_pixel_stays_dirty(rt: HostRuntime) -> Result<(), Fail> {
    let alloc = rt.alloc();
    let mut update = Update::new(alloc);
    assert!(rt; update.is_empty());
    invalidated(alloc, &mut update)?;
    validated(alloc, &mut update)?;
    kept(alloc, &mut update)?;
    let mut again = update.copy(alloc)?;
    hold(&rt, &[update.erase(), update.dirty().kind() == 2]);
    taken(&rt, &mut again);
    Ok(())
}

#[test]
fn carried_pixels_leave_the_flag(rt: HostRuntime) -> Result<(), Fail> {
    let alloc = rt.alloc();
    let mut update = Update::new(alloc);
    invalidated(alloc, &mut update)?;
    validated(alloc, &mut update)?;
    carried(&rt, alloc, &mut update)?;
    Ok(())
}
