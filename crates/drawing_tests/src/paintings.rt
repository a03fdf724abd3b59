use band_region::Region;
use paint_sessions::PaintSessions;
use win_num::{Hwnd, rect};

#[test]
fn painting_begins_gets_its_clip_and_ends(rt: HostRuntime) {
    let alloc = rt.alloc();
    let mut sessions = PaintSessions::new(alloc);
    sessions
        .begin(Hwnd(17), Region::empty(alloc))
        .expect(&rt, "memory");
    sessions
        .begin(Hwnd(16), Region::empty(alloc))
        .expect(&rt, "memory");
    let part = rect(2, 1, 5, 3).expect(&rt, "a rectangle");
    let clip = Region::of_rect(alloc, part).expect(&rt, "memory");
    sessions.set_clip(Hwnd(17), clip);
    let clip = sessions.clip_of(Hwnd(17)).expect(&rt, "a clip");
    assert!(rt; clip.rects().len() == 1);
    assert!(rt; !sessions.is_begun(Hwnd(18)));
    sessions.keep(&[Hwnd(16), Hwnd(17)]);
    sessions.end(Hwnd(16));
    assert!(rt; !sessions.is_begun(Hwnd(16)) && sessions.is_begun(Hwnd(17)));
}
