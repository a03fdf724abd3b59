//! What one more entry does to the parts. First comes the one change that may want memory, then what
//! can't fail.

ghost use Rattle.std.specs.Prelude.{◌≡◌, ◌<◌, true, false, OnOk, OnErr};
ghost use Rattle.thread_queues.specs.Changes.{changed};
ghost use Rattle.thread_queues.specs.Deliveries.{carried_in, adding_in, effect_in};
ghost use Rattle.window_state.specs.Effects.{IsAddedBy, named_by, carried_classes, carried_tree, added_classes, affected_classes, IsAffected};
ghost use Rattle.dialog_state.specs.Dialogs.{Follows};
ghost use Rattle.core_state.specs.Needs.{FitsCarrying, FitsAdding, FitsEffect};
ghost use Rattle.window_state.specs.Needs.{FitsNaming};
ghost use Rattle.core_state.specs.Sendings.{FitsAddedSends, added_sends};
ghost use Rattle.thread_queues.specs.Queues.{EachBy};
ghost use Rattle.display_state.specs.Displays.{DrawsDisplay, IsPainting};
ghost use Rattle.screen_state.specs.Screens.{draws};
ghost use Rattle.timer_state.specs.Changes.{FitsAddedTimers, added_timers};
ghost use Rattle.pending_state.specs.Changes.{FitsInjecting, added_by};
ghost use Rattle.win_num.specs.Clocks.{clock_limit};
ghost use Rattle.window_state.specs.Orders.{FitsLeaving, FitsOrder, FitsOrderEffect, FitsReordering, IsOrderAdded, affected_order, carried_order, reordered_by};

use crate::sendings::begin;
use dialog_state::{Dialogs, turns};
use display_state::Display;
use input_queue::Inputs;
use pending_state::{Meant, add_input};
use send_state::SendState;
use std::alloc::{AllocError, Global};
use thread_queues::{Stamp, end, post, posting, purge_kin, set_quit, take};
use thread_state::ThreadState;
use timer_source::Timers;
use timer_state::set_timer;
use user_model::{Answer, Call, Entry};
use win_class::Classes;
use win_num::Thread;
use win_order::Order;
use win_tree::Tree;
use window_state::{
    doom, drop_window, leave, make, name, relook, reorder, unmake, unregister, window_or_none,
};

/// Adds a post, a class, a message's name, a window, a send, a timer or an input, puts a window elsewhere among its siblings, changes
/// dirty pixels, begun painting and colours, or keeps a frame, as the answer says. After want of memory nothing has changed.
fn add_item(
    classes: &mut Classes,
    tree: &mut Tree,
    order: &mut Order,
    threads: &mut Vec<ThreadState>,
    timers: &mut Timers,
    inputs: &mut Inputs,
    sends: &mut SendState,
    display: &mut Display,
    stamp: Stamp,
    meant: Meant,
    entry: Entry,
) -> Result<(), AllocError>
    requires parts { FitsAdding classes.old tree.old threads.old.items stamp.time stamp.cursor stamp.shift entry.who.0 entry.answer entry.call }
    requires order { FitsOrder entry.who.0 entry.answer entry.call tree.old order.old }
    requires sends { FitsAddedSends tree.old.live stamp.time stamp.place entry.who entry.answer entry.call sends.old }
    requires drawing { IsPainting tree.old classes.old entry }
    requires timers { FitsAddedTimers tree.old.live entry.who timers.old entry.answer entry.call }
    requires inputs { FitsInjecting meant inputs.old entry.answer entry.call }
    requires early { stamp.time < clock_limit }
    ensures classes { OnOk result (classes.new ≡ added_classes entry.answer entry.call classes.old) }
    ensures tree { OnOk result (IsAddedBy entry.who.0 entry.answer entry.call tree.old tree.new) }
    ensures order { OnOk result (IsOrderAdded entry.answer entry.call tree.old tree.new order.old order.new) }
    ensures threads { OnOk result (EachBy (λ t. changed t (adding_in tree.old.live stamp.time stamp.cursor stamp.shift entry.who.0 entry.answer entry.call)) threads.old.items threads.new.items) }
    ensures sends { OnOk result (sends.new ≡ added_sends tree.old.live stamp.time stamp.place entry.who entry.answer entry.call sends.old) }
    ensures timers { OnOk result (timers.new ≡ added_timers entry.who stamp.time entry.answer entry.call timers.old) }
    ensures inputs { OnOk result (inputs.new ≡ added_by meant entry.answer entry.call inputs.old) }
    ensures drawn { OnOk result (draws entry.call entry.answer ≡ true → DrawsDisplay tree.old classes.old entry display.old display.new) }
    ensures display { OnOk result (draws entry.call entry.answer ≡ false → display.new ≡ display.old) }
    ensures classes_stay { OnErr result (classes.new ≡ classes.old) }
    ensures tree_stays { OnErr result (tree.new ≡ tree.old) }
    ensures order_stays { OnErr result (order.new ≡ order.old) }
    ensures threads_stay { OnErr result (threads.new.items ≡ threads.old.items) }
    ensures sends_stay { OnErr result (sends.new ≡ sends.old) }
    ensures timers_stay { OnErr result (timers.new ≡ timers.old) }
    ensures inputs_stay { OnErr result (inputs.new ≡ inputs.old) }
    ensures display_stays { OnErr result (display.new ≡ display.old) }
{
    let alloc = *threads.allocator();
    match entry.answer {
        Answer::Posted(number) => match posting(tree, stamp, &entry) {
            Some((to, msg)) => post(threads, to, number, msg),
            None => Ok(()),
        },
        Answer::Value(_) => register(alloc, classes, order, entry.call),
        Answer::Window(_) => make(alloc, tree, order, entry.who, entry.call),
        Answer::Inside(_, _) | Answer::Begun(_) => begin(sends, tree, stamp, entry),
        Answer::Okay => match entry.call {
            Call::SetTimer(..) => set_timer(timers, tree, entry.who, entry.call, stamp.time),
            _ => display.draw(alloc, tree, classes, entry),
        },
        Answer::Input(_) => add_input(inputs, entry, meant),
        Answer::Painting { .. } | Answer::Snap(_) => display.draw(alloc, tree, classes, entry),
        _ => Ok(()),
    }
}

/// Begins, ends or closes a dialog, or else adds an item, as the answer says. After want of memory nothing has changed.
pub fn add_change(
    classes: &mut Classes,
    tree: &mut Tree,
    order: &mut Order,
    threads: &mut Vec<ThreadState>,
    timers: &mut Timers,
    inputs: &mut Inputs,
    sends: &mut SendState,
    display: &mut Display,
    dialogs: &mut Dialogs,
    stamp: Stamp,
    meant: Meant,
    entry: Entry,
) -> Result<(), AllocError>
    requires parts { FitsAdding classes.old tree.old threads.old.items stamp.time stamp.cursor stamp.shift entry.who.0 entry.answer entry.call }
    requires order { FitsOrder entry.who.0 entry.answer entry.call tree.old order.old }
    requires sends { FitsAddedSends tree.old.live stamp.time stamp.place entry.who entry.answer entry.call sends.old }
    requires drawing { IsPainting tree.old classes.old entry }
    requires timers { FitsAddedTimers tree.old.live entry.who timers.old entry.answer entry.call }
    requires inputs { FitsInjecting meant inputs.old entry.answer entry.call }
    requires early { stamp.time < clock_limit }
    ensures classes { OnOk result (classes.new ≡ added_classes entry.answer entry.call classes.old) }
    ensures tree { OnOk result (IsAddedBy entry.who.0 entry.answer entry.call tree.old tree.new) }
    ensures order { OnOk result (IsOrderAdded entry.answer entry.call tree.old tree.new order.old order.new) }
    ensures threads { OnOk result (EachBy (λ t. changed t (adding_in tree.old.live stamp.time stamp.cursor stamp.shift entry.who.0 entry.answer entry.call)) threads.old.items threads.new.items) }
    ensures sends { OnOk result (sends.new ≡ added_sends tree.old.live stamp.time stamp.place entry.who entry.answer entry.call sends.old) }
    ensures timers { OnOk result (timers.new ≡ added_timers entry.who stamp.time entry.answer entry.call timers.old) }
    ensures inputs { OnOk result (inputs.new ≡ added_by meant entry.answer entry.call inputs.old) }
    ensures drawn { OnOk result (draws entry.call entry.answer ≡ true → DrawsDisplay tree.old classes.old entry display.old display.new) }
    ensures display { OnOk result (draws entry.call entry.answer ≡ false → display.new ≡ display.old) }
    ensures dialogs { OnOk result (Follows entry.answer entry.call dialogs.old dialogs.new) }
    ensures classes_stay { OnErr result (classes.new ≡ classes.old) }
    ensures tree_stays { OnErr result (tree.new ≡ tree.old) }
    ensures order_stays { OnErr result (order.new ≡ order.old) }
    ensures threads_stay { OnErr result (threads.new.items ≡ threads.old.items) }
    ensures sends_stay { OnErr result (sends.new ≡ sends.old) }
    ensures timers_stay { OnErr result (timers.new ≡ timers.old) }
    ensures inputs_stay { OnErr result (inputs.new ≡ inputs.old) }
    ensures display_stays { OnErr result (display.new ≡ display.old) }
    ensures dialogs_stay { OnErr result (dialogs.new ≡ dialogs.old) }
{
    if turns(entry) {
        return dialogs.follow(entry);
    }
    add_item(
        classes, tree, order, threads, timers, inputs, sends, display, stamp, meant, entry,
    )
}

/// Registers a class or the name of a message, or puts a window elsewhere among its siblings, as the call
/// says. After want of memory nothing has changed.
fn register(
    alloc: Global,
    classes: &mut Classes,
    order: &mut Order,
    call: Call,
) -> Result<(), AllocError>
    requires classes { FitsNaming classes.old call }
    requires order { FitsReordering call order.old }
    ensures classes { OnOk result (classes.new ≡ named_by call classes.old) }
    ensures order { OnOk result (order.new ≡ reordered_by call order.old) }
    ensures classes_stay { OnErr result (classes.new ≡ classes.old) }
    ensures order_stays { OnErr result (order.new ≡ order.old) }
{
    match call {
        Call::Place(..) => reorder(alloc, order, call),
        _ => name(classes, call),
    }
}

/// Does what takes no memory: takes out a message or quit, posts quit, takes a class back, marks windows,
/// gives a step of a destruction, puts windows at a place, shows or hides them, drops windows with their messages, or ends a thread.
pub fn take_effect(
    classes: &mut Classes,
    tree: &mut Tree,
    order: &mut Order,
    threads: &mut Vec<ThreadState>,
    entry: Entry,
)
    requires parts { FitsEffect classes.old tree.old threads.old.items entry.who.0 entry.answer entry.call }
    requires order { FitsOrderEffect entry.who.0 entry.answer entry.call tree.old order.old }
    ensures classes { classes.new ≡ affected_classes entry.answer entry.call classes.old }
    ensures tree { IsAffected entry.who.0 entry.answer entry.call tree.old tree.new }
    ensures order { order.new ≡ affected_order entry.answer entry.call tree.new order.old }
    ensures threads { EachBy (λ t. changed t (effect_in tree.old.live entry.who.0 entry.answer entry.call)) threads.old.items threads.new.items }
{
    match entry.answer {
        Answer::Okay => carry_out(classes, tree, order, threads, entry),
        Answer::Value(_) => relook(tree, entry.call),
        Answer::Tell(_) | Answer::Last(_) => unmake(tree, entry.call),
        Answer::Got { origin, number, .. } => take(threads, &entry, origin, number),
        Answer::Ended => {
            end(threads, entry.who);
            tree.drop_thread(entry.who);
            leave(tree, order);
        }
        _ => {}
    }
}

/// Does what a call says that was answered by ok.
fn carry_out(
    classes: &mut Classes,
    tree: &mut Tree,
    order: &mut Order,
    threads: &mut Vec<ThreadState>,
    entry: Entry,
)
    requires parts { FitsCarrying classes.old tree.old threads.old.items entry.who.0 entry.call }
    requires order { FitsLeaving entry.call tree.old order.old }
    ensures classes { classes.new ≡ carried_classes entry.call classes.old }
    ensures tree { tree.new ≡ carried_tree entry.call tree.old }
    ensures order { order.new ≡ carried_order entry.call tree.new order.old }
    ensures threads { EachBy (λ t. changed t (carried_in tree.old.live entry.who.0 entry.call)) threads.old.items threads.new.items }
{
    match entry.call {
        Call::PostQuit(code) => set_quit(threads, entry.who, Some(code)),
        Call::Unregister(name) => unregister(classes, name),
        Call::Doom(w) => doom(tree, w),
        Call::Drop(w) => {
            let window = window_or_none(tree, w);
            purge_kin(threads, tree, entry.who, window);
            drop_window(tree, window);
            leave(tree, order);
        }
        _ => {}
    }
}
