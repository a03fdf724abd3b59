//! What a state without entries answers.

ghost use Rattle.std.specs.Prelude.{◌≡◌, false};
ghost use Rattle.user_model.specs.Past.{is_full};

use crate::told::{both, one, pair};
use core_state::CoreState;
use std::io::Print;
use win_num::{Filter, SendId};

/// Every message of a thread.
const ALL: Filter = Filter {
    hwnd: 0,
    min: 0,
    max: 0,
};

fn tell_threads(rt: &impl Print, state: &CoreState) -> anyhow::Result<()>
    requires { state.now.setup.threads ≡ 2 }
{
    one(rt, "threads", &state.thread_count())?;
    both(rt, "is_thread", &state.is_thread(2), &state.is_thread(3))?;
    both(
        rt,
        "is_running",
        &state.is_running(1),
        &state.is_running(257),
    )?;
    one(rt, "has_ended", &state.has_ended(2))?;
    one(rt, "waiting", &state.waiting(2))
}

fn tell_entries(rt: &impl Print, state: &CoreState) -> anyhow::Result<()> {
    one(rt, "history", &state.history().len())?;
    pair(
        rt,
        "is_full",
        &state.is_full(),
        "ends_stuck",
        &state.ends_stuck(),
    )?;
    pair(rt, "time", &state.time(), "cursor", &state.cursor())
}

fn tell_window(rt: &impl Print, state: &CoreState) -> anyhow::Result<()> {
    println!(rt;
        "is_live {} is_marked {} has_last {}",
        state.is_live(16),
        state.is_marked(16),
        state.has_last(16)
    )?;
    pair(rt, "thread_of", &state.thread_of(16), "up", &state.up(16))?;
    pair(rt, "owner", &state.owner(16), "dialog", &state.dialog(16))
}

fn tell_windows(rt: &impl Print, state: &CoreState) -> anyhow::Result<()> {
    one(rt, "next_top", &state.next_top(4294967296))?;
    pair(
        rt,
        "titled",
        &state.titled(2),
        "owner_at",
        &state.owner_at(0, 0),
    )?;
    one(rt, "window_count", &state.window_count())?;
    one(rt, "proc_of", &state.proc_of(16))
}

fn tell_classes(rt: &impl Print, state: &CoreState) -> anyhow::Result<()> {
    pair(
        rt,
        "has_class",
        &state.has_class(1),
        "is_used",
        &state.is_used(1),
    )?;
    let full = state.classes_are_full();
    pair(
        rt,
        "classes_are_full",
        &full,
        "registered_count",
        &state.registered_count(),
    )?;
    let full = state.messages_are_full();
    pair(
        rt,
        "messages_are_full",
        &full,
        "message_count",
        &state.message_count(),
    )?;
    one(rt, "message_number", &state.message_number(1))
}

fn tell_posts(rt: &impl Print, state: &CoreState) -> anyhow::Result<()>
    requires threads { state.now.setup.threads ≡ 2 }
    requires room { is_full state.now.past ≡ false }
{
    pair(
        rt,
        "post_limit",
        &state.post_limit(2),
        "timeout_flags",
        &state.timeout_flags(),
    )?;
    pair(
        rt,
        "queue_len",
        &state.queue_len(2),
        "first_post",
        &state.first_post(2, ALL),
    )?;
    pair(
        rt,
        "quit",
        &state.quit(2),
        "next_post_number",
        &state.next_post_number(),
    )
}

fn tell_sends(rt: &impl Print, state: &CoreState) -> anyhow::Result<()>
    requires threads { state.now.setup.threads ≡ 2 }
    requires room { is_full state.now.past ≡ false }
{
    pair(
        rt,
        "sends_are_full",
        &state.sends_are_full(),
        "next_send",
        &state.next_send(),
    )?;
    one(rt, "send_story", &state.send_story(SendId(1)))?;
    one(rt, "send_count", &state.send_count())?;
    pair(rt, "top", &state.top(1), "has_room", &state.has_room(1))?;
    pair(
        rt,
        "next_ready",
        &state.next_ready(2),
        "wake_time",
        &state.wake_time(2),
    )
}

fn tell_inputs(rt: &impl Print, state: &CoreState) -> anyhow::Result<()>
    requires threads { state.now.setup.threads ≡ 2 }
    requires room { is_full state.now.past ≡ false }
{
    pair(
        rt,
        "mouse_home",
        &state.mouse_home(0, 0),
        "key_home",
        &state.key_home(),
    )?;
    pair(
        rt,
        "is_key_down",
        &state.is_key_down(1, 16),
        "lacks_place",
        &state.lacks_place(1, 512),
    )?;
    both(
        rt,
        "is_on_screen",
        &state.is_on_screen(7, 3),
        &state.is_on_screen(8, 0),
    )?;
    let input = state.next_input(2, ALL);
    pair(
        rt,
        "next_input",
        &input,
        "next_input_number",
        &state.next_input_number(),
    )
}

fn tell_bits(rt: &impl Print, state: &CoreState) -> anyhow::Result<()>
    requires { state.now.setup.threads ≡ 2 }
{
    pair(
        rt,
        "bits_now",
        &state.bits_now(2)?,
        "bits_since_look",
        &state.bits_since_look(2)?,
    )
}

/// Asks a state of two threads without entries all of this.
pub fn tell_all(rt: &impl Print, state: &CoreState) -> anyhow::Result<()>
    requires threads { state.now.setup.threads ≡ 2 }
    requires room { is_full state.now.past ≡ false }
{
    tell_threads(rt, state)?;
    tell_entries(rt, state)?;
    tell_window(rt, state)?;
    tell_windows(rt, state)?;
    tell_classes(rt, state)?;
    tell_posts(rt, state)?;
    tell_sends(rt, state)?;
    tell_inputs(rt, state)?;
    tell_bits(rt, state)
}
