//! A state without sends, counts and stories. Changes of a state are tested with `user_core`, whose calls ask
//! nothing of it.

use crate::facts::hold;
use send_state::*;
use std::alloc::Global;
use std::test::Fail;

#[test]
fn a_new_state_has_no_sends(rt: HostRuntime) -> Result<(), Fail> {
    let state = SendState::new(rt.alloc(), 2)?;
    let facts = [
        state.unfinished() == 0,
        state.begun() == 0,
        state.answered(SendId(1)) == None,
        state.row(SendId(1)).is_none(),
        !state.blocks(SendId(1)),
        state.top(Thread(2)) == None,
        state.has_room(Thread(2)),
        !state.is_full(),
        state.next_window(Thread(1)) == None,
        !state.has_some(Thread(1)),
        !state.has_new(Thread(1)),
        state.next_ready(Thread(1), 1) == None,
    ];
    hold(&rt, &facts);
    Ok(())
}

#[test]
fn a_send_is_counted_by_its_answer(rt: HostRuntime) {
    let start = Tally::new();
    let entered = start.with(Answer::Inside(SendId(1), 1), None, 0);
    let left = start.with(Answer::Left(SendId(1)), Some(Cause::Proc), 0);
    let replied = start.with(Answer::Value(1), Some(Cause::Reply), 0);
    let lost = start.with(Answer::Okay, None, 3);
    let facts = [
        entered.entered == 1,
        left.by_proc == 1,
        replied.by_reply == 1,
        lost.by_loss == 3,
    ];
    hold(&rt, &facts);
}

#[test]
fn what_came_first_is_told(rt: HostRuntime) -> Result<(), Fail> {
    let alloc: Global = rt.alloc();
    let state = SendState::new(alloc, 2)?;
    let mut stories = Vec::new(alloc);
    stories.reserve(1)?;
    add_story(&mut stories, Answer::Begun(SendId(1)));
    let left = Some((SendId(1), Cause::Proc));
    let replied = Some((SendId(1), Cause::Reply));
    note_answer(&mut stories, Answer::Left(SendId(1)), left, 3);
    note_answer(&mut stories, Answer::Value(1), replied, 4);
    state.note_losses(&mut stories, &|_w: Hwnd| -> bool { true }, 5);
    let told = SendStory {
        entered_at: None,
        answered_at: Some(3),
        cause: Some(Cause::Proc),
    };
    assert_eq!(rt; stories.first().copied(), Some(told));
    Ok(())
}
