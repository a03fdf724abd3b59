//! What became of each send.

ghost use Rattle.std.specs.Prelude.{◌≡◌, ◌+◌, ◌≤◌, vec_capacity, vec_len};
ghost use Rattle.send_state.specs.Stories.{EachStory, noted, noted_answer, told, with_begun};

use user_model::{Answer, SendStory};
use win_num::{Cause, SendId};

/// What happens to a send.
#[derive(Clone, Copy)]
pub(crate) enum Event {
    /// Its procedure is run.
    Entered,
    /// It is answered.
    Answered(Cause),
    /// Its window goes: it is answered, unless it was entered.
    Lost,
}

/// A story with what happened at a place. What happened first stands.
fn told(story: SendStory, event: Event, place: u32) -> SendStory
    ensures { result ≡ told event place story }
{
    match event {
        Event::Entered => SendStory {
            entered_at: story.entered_at.or(Some(place)),
            ..story
        },
        Event::Answered(cause) => answered(story, cause, place),
        Event::Lost if story.entered_at.is_none() => answered(story, Cause::Loss, place),
        Event::Lost => story,
    }
}

/// A story with an answer, where there was none.
fn answered(story: SendStory, cause: Cause, place: u32) -> SendStory
    ensures { result ≡ told (Event.Answered cause) place story }
{
    if story.answered_at.is_some() {
        return story;
    }
    SendStory {
        answered_at: Some(place),
        cause: Some(cause),
        ..story
    }
}

/// Notes in the stories of sends from 1 on what happened to one of them at a place.
pub(crate) fn note(stories: &mut [SendStory], send: SendId, event: Event, place: u32)
    ensures { EachStory (noted send.0 event place) stories.old stories.new }
{
    let number = send.0 as usize;
    if number == 0 || number > stories.len() {
        return;
    }
    stories[number - 1] = told(stories[number - 1], event, place);
}

/// Adds a story to those of sends from 1 on where an answer begins a send. There has to be room for it.
pub fn add_story(stories: &mut Vec<SendStory>, answer: Answer)
    requires { vec_len stories.old + 1 ≤ vec_capacity stories.old }
    ensures { stories.new.items ≡ with_begun answer stories.old.items }
{
    if let Answer::Inside(..) | Answer::Begun(_) = answer {
        stories.push(SendStory::new()).unwrap();
    }
}

/// Notes in the stories of sends from 1 on what an answer at a place says: the send that it enters, and the
/// one that the entry names as answered.
pub fn note_answer(
    stories: &mut [SendStory],
    answer: Answer,
    named: Option<(SendId, Cause)>,
    place: u32,
)
    ensures { EachStory (noted_answer answer named place) stories.old stories.new }
{
    if let Answer::Inside(send, _) | Answer::Enter { send, .. } = answer {
        note(stories, send, Event::Entered, place);
    }
    if let Some((send, cause)) = named {
        note(stories, send, Event::Answered(cause), place);
    }
}
