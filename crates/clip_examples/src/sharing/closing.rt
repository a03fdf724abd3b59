//! How the desk and the clipboard's lock are closed, and what their histories say.

ghost use Rattle.std.specs.Prelude.{◌≡◌, All};
ghost use Rattle.turn_lock.specs.Seats.{IsSeatOf};
ghost use Rattle.user_desk.specs.Desks.{IsDeskSeat};

use crate::sharing::reader::Pasted;
use crate::sharing::{ClipSeat, SharedClip, TEXTS};
use clip_board::{Clip, get_law};
use std::io::Print;
use user_desk::{Desk, DeskSeat};
use user_model::{Answer, Entry, Machine};

/// The text of this place.
fn text_at(place: u64) -> &'static str {
    match usize::try_from(place) {
        Ok(at) if at < TEXTS.len() => TEXTS[at],
        _ => "no text",
    }
}

/// Tells what was pasted.
pub fn tell_pasted(rt: &impl Print, pasted: Pasted) -> anyhow::Result<()> {
    let Pasted::Ended { r, err } = pasted else {
        anyhow::bail!("the get didn't end");
    };
    println!(rt; "pasted with err {err}: {}", text_at(r))?;
    Ok(())
}

/// Tells the calls of the machine's history but for those that wait: whether one did depends on who moved when.
fn tell_history(rt: &impl Print, history: &[Entry]) -> anyhow::Result<()> {
    for entry in history {
        if entry.answer != Answer::Wait {
            println!(rt; "{}: {:?} = {:?}", entry.who.0, entry.call, entry.answer)?;
        }
    }
    Ok(())
}

/// Closes the desk, and tells the machine's history.
pub fn close_desk<M: Machine + Drop>(
    rt: &impl Print,
    desk: Desk<M>,
    seats: Vec<DeskSeat<M>>,
) -> anyhow::Result<()>
    requires { All (IsDeskSeat desk) seats.items }
{
    let Ok(machine) = desk.close(seats) else {
        anyhow::bail!("a seat at the desk is missing");
    };
    tell_history(rt, machine.history())
}

/// Tells the clipboard's history, and where the text was set that the second of its two gets was told.
fn tell_clip(rt: &impl Print, clip: &Clip) -> anyhow::Result<()> {
    for entry in clip.history() {
        println!(rt; "{}: {:?} = {:?}", entry.who.0, entry.call, entry.answer)?;
    }
    println!(rt; "set at place {:?}", get_law(clip, 5, 7))?;
    Ok(())
}

/// Closes the clipboard's lock, and tells its history.
pub fn close_clip(rt: &impl Print, clip: SharedClip, places: Vec<ClipSeat>) -> anyhow::Result<()>
    requires { All (IsSeatOf clip) places.items }
{
    let Ok(clip) = clip.close(places) else {
        anyhow::bail!("a seat at the clipboard is missing");
    };
    let told = tell_clip(rt, &clip);
    drop(clip);
    told
}
