use clip_region::owned;
use win_num::rect;

#[test]
fn window_under_another_owns_two_rectangles(rt: HostRuntime) {
    let screen = rect(0, 0, 8, 4).expect(&rt, "a rectangle");
    let own = rect(0, 0, 5, 3).expect(&rt, "a rectangle");
    let above = [rect(3, 1, 8, 4).expect(&rt, "a rectangle")];
    let region = owned(rt.alloc(), screen, own, &above, &[]).expect(&rt, "memory");
    let wanted = [(0, 0, 5, 1), (0, 1, 3, 3)];
    assert!(rt; region.rects().len() == 2);
    for (r, w) in region.rects().iter().zip(wanted.iter()) {
        assert!(rt; (r.l(), r.t(), r.r(), r.b()) == *w);
    }
}
