//! What an entry does to the sends.

ghost use Rattle.std.specs.Prelude.{◌≡◌, ◌&&◌, ◌==◌, ◌+◌, ◌≤◌, OnOk, OnErr, true, vec_capacity, vec_len};
ghost use Rattle.win_num.specs.declared.send.Kind.{Kind};
ghost use Rattle.win_rows.specs.Windows.{is_live};
ghost use Rattle.send_frames.specs.Book.{IsThread};
ghost use Rattle.send_state.specs.Parts.{lost_count};
ghost use Rattle.send_state.specs.Stories.{EachStory, noted_answer, noted_loss, with_begun};
ghost use Rattle.thread_queues.specs.Deliveries.{goes_with};
ghost use Rattle.core_state.specs.Sendings.{AreTold, FitsCallback, FitsDropped, FitsLeave, FitsLook, FitsLosing, FitsOption, FitsReply, FitsSending, FitsSendEffect, FitsWait, begun_with, called_back, dropped_count, dropped_losses, dropped_sends, ended_sends, is_looking, is_of, left_by_call, looked_by, losses_by, noted_losses, replied_by_call, row_to, sending, affected_sends, waited};

use send_state::{SendRow, SendState, add_story, note_answer};
use std::alloc::AllocError;
use thread_queues::Stamp;
use thread_state::{is_look, is_refusal};
use user_model::{Answer, Call, Entry, SendStory};
use win_num::{Cause, Fault, Hwnd, Kind, SendId, Thread};
use win_tree::Tree;
use window_state::{thread_of, window_or_none};

/// What a send hands over: its window's number, the message's number and its parameters.
#[derive(Clone, Copy)]
struct Sent {
    hwnd: u64,
    number: u64,
    wparam: u64,
    lparam: u64,
}

/// A send to a live window.
fn row_to(tree: &Tree, time: u64, who: Thread, sent: Sent, kind: Kind) -> SendRow
    requires live { is_live tree.now.live sent.hwnd ≡ true }
    requires number { sent.number ≤ 65535 }
    ensures { result ≡ row_to tree.now.live time who sent.hwnd sent.number sent.wparam sent.lparam kind }
{
    let hwnd = window_or_none(tree, sent.hwnd);
    SendRow {
        from: who,
        to: Thread(thread_of(tree, hwnd)),
        hwnd,
        number: sent.number as u32,
        wparam: sent.wparam,
        lparam: sent.lparam,
        kind,
        time,
    }
}

/// The send that a call makes.
fn sending(tree: &Tree, time: u64, entry: Entry) -> Option<SendRow>
    requires { FitsSending tree.now.live entry.call }
    ensures { result ≡ sending tree.now.live time entry.who entry.call }
{
    let (hwnd, number, wparam, lparam, kind) = match entry.call {
        Call::Send(w, number, wparam, lparam) => (w, number, wparam, lparam, Kind::Wait),
        Call::SendTimeout(w, number, wparam, lparam, flags, ms) => {
            let kind = Kind::Timeout {
                flags: flags as u8,
                ms: ms as u32,
            };
            (w, number, wparam, lparam, kind)
        }
        Call::SendNotify(w, number, wparam, lparam) => (w, number, wparam, lparam, Kind::Notify),
        Call::SendCallback(w, number, wparam, lparam, proc_no, extra) => {
            let kind = Kind::Callback { proc_no, extra };
            (w, number, wparam, lparam, kind)
        }
        _ => return None,
    };
    let sent = Sent {
        hwnd,
        number,
        wparam,
        lparam,
    };
    Some(row_to(tree, time, entry.who, sent, kind))
}

/// Begins the send that a call makes. After want of memory nothing has changed.
pub fn begin(
    sends: &mut SendState,
    tree: &Tree,
    stamp: Stamp,
    entry: Entry,
) -> Result<(), AllocError>
    requires call { FitsSending tree.now.live entry.call }
    requires row { FitsOption sends.old stamp.place (sending tree.now.live stamp.time entry.who entry.call) }
    ensures ok { OnOk result (sends.new ≡ begun_with stamp.place (sending tree.now.live stamp.time entry.who entry.call) sends.old) }
    ensures err { OnErr result (sends.new ≡ sends.old) }
{
    match sending(tree, stamp.time, entry) {
        Some(row) => match sends.begin(row, stamp.place) {
            Ok(_) => Ok(()),
            Err(Fault::Memory) => Err(AllocError),
            Err(Fault::Refused(_)) => unreachable!(),
        },
        None => Ok(()),
    }
}

/// Does to the sends what takes no memory: runs what is ready, calls and leaves procedures, replies, ends
/// waits, and loses the sends to windows that go, which their stories note. The result is how many sends
/// it lost.
fn take_effect_on_sends(
    sends: &mut SendState,
    stories: &mut [SendStory],
    tree: &Tree,
    place: u32,
    entry: Entry,
) -> u32
    requires { FitsSendEffect tree.now.live place entry.who.0 entry.answer entry.call sends.old }
    ensures sends { sends.new ≡ affected_sends tree.now.live place entry.who.0 entry.answer entry.call sends.old }
    ensures stories { EachStory (noted_losses tree.now.live place entry.who.0 entry.answer entry.call sends.old) stories.old stories.new }
    ensures lost { result ≡ losses_by tree.now.live place entry.who.0 entry.answer entry.call sends.old }
{
    match entry.answer {
        Answer::Enter { .. } => {
            sends.serve(entry.who);
            0
        }
        Answer::Callback { .. } => {
            call_back(sends, place, entry);
            0
        }
        Answer::Called(_) => {
            sends.dispatch(entry.who);
            0
        }
        Answer::Left(_) => {
            leave(sends, place, entry);
            0
        }
        Answer::Value(1) => {
            reply(sends, place, entry);
            0
        }
        Answer::Done { .. } => {
            end_wait(sends, entry);
            0
        }
        Answer::Okay => lose_dropped(sends, stories, tree, place, entry.call),
        Answer::Ended => end_thread(sends, stories, tree, place, entry.who),
        _ => 0,
    }
}

/// Brings the sends up to date with what takes no memory, and what is kept of what became of them: the story of a
/// send that is begun, losses, and what the answer enters or the entry answers, `named`. The result is how many sends it
/// lost.
pub fn settle_sends(
    sends: &mut SendState,
    stories: &mut Vec<SendStory>,
    tree: &Tree,
    place: u32,
    named: Option<(SendId, Cause)>,
    entry: Entry,
) -> u32
    requires sends { FitsSendEffect tree.now.live place entry.who.0 entry.answer entry.call sends.old }
    requires room { vec_len stories.old + 1 ≤ vec_capacity stories.old }
    ensures sends { sends.new ≡ affected_sends tree.now.live place entry.who.0 entry.answer entry.call sends.old }
    ensures stories { AreTold (noted_losses tree.now.live place entry.who.0 entry.answer entry.call sends.old) (noted_answer entry.answer named place) (with_begun entry.answer stories.old.items) stories.new.items }
    ensures lost { result ≡ losses_by tree.now.live place entry.who.0 entry.answer entry.call sends.old }
{
    add_story(stories, entry.answer);
    let lost = take_effect_on_sends(sends, stories, tree, place, entry);
    note_answer(stories, entry.answer, named, place);
    lost
}

/// Notes a look at what is there, where an entry is one that wasn't refused. `place` is that of the next entry.
pub fn note_look(sends: &mut SendState, entry: &Entry, place: u32)
    requires { is_looking entry.now ≡ true → FitsLook sends.old entry.now.who.0 place }
    ensures { sends.new ≡ looked_by entry.now place sends.old }
{
    if is_look(entry.call) && !is_refusal(entry.answer) {
        sends.look(entry.who, place);
    }
}

/// Leaves an own procedure, whose callback procedure runs, or runs the one that is ready.
fn call_back(sends: &mut SendState, place: u32, entry: Entry)
    requires { FitsCallback place entry.who.0 entry.call sends.old }
    ensures { sends.new ≡ called_back place entry.who.0 entry.call sends.old }
{
    match entry.call {
        Call::Leave(value) => sends.leave(entry.who, value, place),
        _ => sends.serve(entry.who),
    }
}

/// Leaves the procedure on top.
fn leave(sends: &mut SendState, place: u32, entry: Entry)
    requires { FitsLeave place entry.who.0 entry.call sends.old }
    ensures { sends.new ≡ left_by_call place entry.who.0 entry.call sends.old }
{
    if let Call::Leave(value) = entry.call {
        sends.leave(entry.who, value, place);
    }
}

/// Answers the send on top before its procedure is left.
fn reply(sends: &mut SendState, place: u32, entry: Entry)
    requires { FitsReply place entry.who.0 entry.call sends.old }
    ensures { sends.new ≡ replied_by_call place entry.who.0 entry.call sends.old }
{
    if let Call::Reply(value) = entry.call {
        sends.reply(entry.who, value, place);
    }
}

/// Ends the wait on top: its send was answered, or its time is over.
fn end_wait(sends: &mut SendState, entry: Entry)
    requires { FitsWait entry.who.0 entry.call sends.old }
    ensures { sends.new ≡ waited entry.who.0 entry.call sends.old }
{
    if let Call::Await(number) = entry.call {
        let send = SendId(number as u32);
        if sends.answered(send).is_some() {
            sends.finish(entry.who);
        } else {
            sends.time_out(entry.who, send);
        }
    }
}

/// Loses the sends to a window that is dropped and its kin. The result is how many these are.
fn lose_dropped(
    sends: &mut SendState,
    stories: &mut [SendStory],
    tree: &Tree,
    place: u32,
    call: Call,
) -> u32
    requires { FitsDropped tree.now.live place call sends.old }
    ensures sends { sends.new ≡ dropped_sends tree.now.live place call sends.old }
    ensures stories { EachStory (dropped_losses tree.now.live place call sends.old) stories.old stories.new }
    ensures lost { result ≡ dropped_count tree.now.live place call sends.old }
{
    if let Call::Drop(w) = call {
        let window = window_or_none(tree, w);
        let goes = |w: Hwnd| -> bool
            ensures { result ≡ goes_with tree.entry.now.live window.0 w.0 }
        { tree.row(w).is_some() && tree.is_kin(window, w) };
        sends.note_losses(stories, &goes, place);
        return sends.lose(goes, place);
    }
    0
}

/// Loses the sends to the windows of a thread, and ends it. The result is how many sends these are.
fn end_thread(
    sends: &mut SendState,
    stories: &mut [SendStory],
    tree: &Tree,
    place: u32,
    who: Thread,
) -> u32
    requires thread { IsThread sends.old.book who.0 }
    requires losing { FitsLosing (is_of tree.now.live who.0) sends.old place }
    ensures sends { sends.new ≡ ended_sends tree.now.live place who.0 sends.old }
    ensures stories { EachStory (noted_loss (is_of tree.now.live who.0) sends.old place) stories.old stories.new }
    ensures lost { result ≡ lost_count (is_of tree.now.live who.0) sends.old place }
{
    let goes = |w: Hwnd| -> bool
        ensures { result ≡ is_of tree.entry.now.live who.0 w.0 }
    { tree.row(w).is_some() && thread_of(tree, w) == who.0 };
    sends.note_losses(stories, &goes, place);
    let lost = sends.lose(goes, place);
    sends.end(who);
    lost
}
