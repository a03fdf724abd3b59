//! Who moves next.

ghost use Rattle.std.specs.Prelude.{◌≡◌, ◌<◌, ◌≤◌, length, drop, IsNone, IfSome, None};
ghost use Rattle.user_pool.specs.Runs.{is_runnable, first_above, last_thread, left, in_turn, choice};
ghost use Rattle.user_pool.specs.Moves.{IsNextPlace, first_between, left_after};
ghost use Rattle.user_pool.specs.Seats.{SeatsCount};
ghost use Rattle.log_text.specs.Ends.{setup_of};

use crate::seat::Seat;
use script_tree::Script;
use user_model::Machine;
use win_num::Thread;

/// An actor that moves next, and the place at which the order list goes on behind its move.
#[derive(Clone, Copy)]
pub struct Choice {
    pub actor: u8,
    pub place: usize,
}

/// Whether a number is a thread's that can move: it isn't idle, and has some of its budget left.
pub fn runnable<M: Machine>(script: &Script, machine: &M, seats: &[Seat], number: u8) -> bool
    requires setup { M.setup machine.now ≡ setup_of script.now }
    requires seats { SeatsCount script.now (M.past machine.now) seats.now }
    ensures { result ≡ is_runnable script.now (M.past machine.now) number }
{
    if number == 0 || number as usize > seats.len() {
        return false;
    }
    !machine.barred(Thread(number)) && seats[(number - 1) as usize].worker.used() < script.budget()
}

/// The least thread above one number, and no higher than another, that can move.
fn first_between<M: Machine>(
    script: &Script,
    machine: &M,
    seats: &[Seat],
    low: u8,
    high: u8,
) -> Option<u8>
    requires few { length script.now.threads ≤ 15 }
    requires known { high ≤ length script.now.threads }
    requires setup { M.setup machine.now ≡ setup_of script.now }
    requires seats { SeatsCount script.now (M.past machine.now) seats.now }
    ensures { result ≡ first_between script.now (M.past machine.now) low high }
{
    for thread in low..high {
        if runnable(script, machine, seats, thread + 1) {
            return Some(thread + 1);
        }
    }
    None
}

/// The least thread above a number that can move.
pub fn first_above<M: Machine>(script: &Script, machine: &M, seats: &[Seat], low: u8) -> Option<u8>
    requires few { length script.now.threads ≤ 15 }
    requires setup { M.setup machine.now ≡ setup_of script.now }
    requires seats { SeatsCount script.now (M.past machine.now) seats.now }
    ensures { result ≡ first_above script.now (M.past machine.now) low }
{
    first_between(script, machine, seats, low, script.thread_count())
}

/// The thread in turn behind the one that moved last: each thread is asked once at most, up to the first that can
/// move.
fn next_in_turn<M: Machine>(script: &Script, machine: &M, seats: &[Seat], last: u8) -> Option<u8>
    requires few { length script.now.threads ≤ 15 }
    requires setup { M.setup machine.now ≡ setup_of script.now }
    requires seats { SeatsCount script.now (M.past machine.now) seats.now }
    requires last { last ≡ last_thread (M.past machine.now) }
    ensures { result ≡ in_turn script.now (M.past machine.now) }
{
    if let Some(thread) = first_above(script, machine, seats, last) {
        return Some(thread);
    }
    let high = last.min(script.thread_count());
    first_between(script, machine, seats, 0, high)
}

/// The first place of the order list, from a place on, of a thread that can move; the list's end where
/// there is none.
fn next_place<M: Machine>(script: &Script, machine: &M, seats: &[Seat], from: usize) -> usize
    requires from { from ≤ length script.now.order }
    requires setup { M.setup machine.now ≡ setup_of script.now }
    requires seats { SeatsCount script.now (M.past machine.now) seats.now }
    ensures { IsNextPlace (is_runnable script.now (M.past machine.now)) script.now.order from result }
{
    let order = script.order();
    for place in from..order.len() {
        if runnable(script, machine, seats, order[place]) {
            return place;
        }
    }
    order.len()
}

/// Who moves next where some thread can: `lowest` is the least one that can.
fn choose_thread<M: Machine>(
    script: &Script,
    machine: &M,
    seats: &[Seat],
    lowest: u8,
    last: u8,
    from: usize,
) -> Choice
    requires few { length script.now.threads ≤ 15 }
    requires setup { M.setup machine.now ≡ setup_of script.now }
    requires seats { SeatsCount script.now (M.past machine.now) seats.now }
    requires last { last ≡ last_thread (M.past machine.now) }
    requires from { from ≤ length script.now.order }
    requires left { left script.now (M.past machine.now) ≡ drop from script.now.order }
    requires lowest { first_above script.now (M.past machine.now) 0 ≡ Some lowest }
    ensures chosen { choice script.now (M.past machine.now) ≡ Some result.actor }
    ensures within { result.place ≤ length script.now.order }
    ensures left { left_after script.now (M.past machine.now) result.actor ≡ drop result.place script.now.order }
{
    let place = next_place(script, machine, seats, from);
    if let Some(actor) = script.order().get(place) {
        return Choice {
            actor: *actor,
            place: place + 1,
        };
    }
    let actor = first_above(script, machine, seats, last).unwrap_or(lowest);
    Choice { actor, place }
}

/// Which thread moves next, where `last` is the one that moved last, or 0, and the order list goes on from a place.
fn choose_in_order<M: Machine>(
    script: &Script,
    machine: &M,
    seats: &[Seat],
    last: u8,
    from: usize,
) -> Option<Choice>
    requires few { length script.now.threads ≤ 15 }
    requires setup { M.setup machine.now ≡ setup_of script.now }
    requires seats { SeatsCount script.now (M.past machine.now) seats.now }
    requires last { last ≡ last_thread (M.past machine.now) }
    requires from { from ≤ length script.now.order }
    requires left { left script.now (M.past machine.now) ≡ drop from script.now.order }
    ensures none { IsNone result → first_above script.now (M.past machine.now) 0 ≡ None }
    ensures chosen { IfSome result (λ c. choice script.now (M.past machine.now) ≡ Some c.actor) }
    ensures within { IfSome result (λ c. c.place ≤ length script.now.order) }
    ensures left { IfSome result (λ c. left_after script.now (M.past machine.now) c.actor ≡ drop c.place script.now.order) }
{
    if from < script.order().len() {
        let lowest = first_above(script, machine, seats, 0)?;
        return Some(choose_thread(script, machine, seats, lowest, last, from));
    }
    let actor = next_in_turn(script, machine, seats, last)?;
    Some(Choice { actor, place: from })
}

/// Who moves next, where `last` is the thread that moved last, or 0, and the order list goes on from a
/// place: a thread, 0 for the clock, or nobody.
pub fn choose<M: Machine>(
    script: &Script,
    machine: &M,
    seats: &[Seat],
    last: u8,
    from: usize,
) -> Option<Choice>
    requires few { length script.now.threads ≤ 15 }
    requires setup { M.setup machine.now ≡ setup_of script.now }
    requires seats { SeatsCount script.now (M.past machine.now) seats.now }
    requires last { last ≡ last_thread (M.past machine.now) }
    requires from { from ≤ length script.now.order }
    requires left { left script.now (M.past machine.now) ≡ drop from script.now.order }
    ensures none { IsNone result → choice script.now (M.past machine.now) ≡ None }
    ensures chosen { IfSome result (λ c. choice script.now (M.past machine.now) ≡ Some c.actor) }
    ensures within { IfSome result (λ c. c.place ≤ length script.now.order) }
    ensures left { IfSome result (λ c. left_after script.now (M.past machine.now) c.actor ≡ drop c.place script.now.order) }
{
    if let Some(chosen) = choose_in_order(script, machine, seats, last, from) {
        return Some(chosen);
    }
    if machine.barred(Thread(0)) {
        return None;
    }
    Some(Choice {
        actor: 0,
        place: from,
    })
}
