//! The lock, and how it is opened.
ghost use Rattle.std.specs.Prelude.{◌≡◌, ◌<◌, ◌≤◌, [], IfOk, IfErr};
ghost use Rattle.std.specs.Vec.{vec_capacity};
ghost use Rattle.turn_lock.specs.Views.{first_view};
ghost use Rattle.turn_lock.specs.Seats.{new_seats};

use crate::bell::Hall;
use crate::journaled::Journaled;
use crate::plays::{Deal, Turns};
use crate::seat::{Place, TurnSeat};
use crate::view::{Opening, View};
use atomic_table::{Refused, Shared, Table};
use std::alloc::{AllocError, AllocFailed, Global};
use std::marker::Model;
use std::snapshot::Snapshot;

pub(crate) type Top<S> = Shared<
    Option<S>,
    View<S, <S as Journaled>::Call, <S as Journaled>::Answer>,
    Opening<S>,
    Turns<S>,
>;

pub(crate) type Board<S> = Table<
    Option<S>,
    View<S, <S as Journaled>::Call, <S as Journaled>::Answer>,
    Opening<S>,
    Turns<S>,
    Global,
>;

/// A state that threads share, each by a seat of its own. Contracts see which lock it is, the state that it was
/// opened with, and how many seats it has.
pub struct TurnLock<S: Journaled> {
    pub(crate) board: Board<S>,
    pub(crate) seats: u32,
    pub(crate) hall: Hall,
}

impl<S: Journaled> Model for TurnLock<S> {
    ghost use Rattle.std.specs.Prelude.{◌≡◌, ◌<◌};
    ghost use Rattle.turn_lock.specs.Seats.{Lock};

    ghost Value = { Lock S };

    ghost view = { λ l. record { table = l.board.shared.table_id; opening = l.board.shared.key.state.value; seats = l.seats } };

    ghost invariant = { λ l. (l.board.shared.table_id.words ≡ 3) × (l.board.shared.table_id.slots ≡ 1) × (l.board.shared.key.seats ≡ l.seats) × (0 < l.seats) };
}

impl<S: Journaled + Drop> Drop for TurnLock<S> {
    fn drop(self) {
        let Self {
            board,
            seats: _,
            hall,
        } = self;
        drop(board);
        drop(hall);
    }
}

// The table over the state, and its first seat.
fn open<S: Journaled>(
    alloc: Global,
    state: S,
    seats: u32,
) -> Result<(Board<S>, Place<S>), (AllocError, S)>
    requires some { 0 < seats }
    requires lawful { S.lawful (S.setting state) (S.history state) }
    ensures board { IfOk result (λ r. (r.0.shared.table_id.words ≡ 3) × (r.0.shared.table_id.slots ≡ 1) × (r.0.shared.key.state.value ≡ state) × (r.0.shared.key.seats ≡ seats)) }
    ensures first { IfOk result (λ r. (r.1.table_id ≡ r.0.shared.table_id) × (r.1.me ≡ (first_view state, []))) }
    ensures err { IfErr result (λ e. e.1 ≡ state) }
{
    let opening = Opening {
        state: Snapshot::of(&state),
        seats,
    };
    let mut slots = Vec::new(alloc);
    if let Err(failed) = slots.push(Some(state)) {
        let AllocFailed { value } = failed;
        slots.destroy_empty();
        return Err((AllocError, value.unwrap()));
    }
    match Table::new(alloc, &[0, 0, 0], slots, &opening) {
        Ok(opened) => Ok(opened),
        Err(Refused { mut slots }) => {
            let state = slots.pop().unwrap().unwrap();
            slots.destroy_empty();
            Err((AllocError, state))
        }
    }
}

// The first seat makes the others, and they lie in order in a list that has room for all.
fn deal<S: Journaled>(top: &Top<S>, mut first: Place<S>, seats: u32, made: &mut Vec<TurnSeat<S>>)
    requires table { (first.table_id ≡ top.now.table_id) × (0 < top.now.table_id.words) × (top.now.key.seats ≡ seats) × (0 < seats) }
    requires first { first.me ≡ (first_view top.now.key.state.value, []) }
    requires room { (made.old.items ≡ []) × (seats ≤ vec_capacity made.old) }
    ensures { made.new.items ≡ new_seats (record { table = top.now.table_id; opening = top.now.key.state.value; seats = seats }) seats }
{
    let mut number = 1;
    while number < seats {
        let place = top.split_seat::<Deal>(&mut first);
        made.push(TurnSeat::of(place, number)).unwrap();
        number += 1;
    }
    made.insert(0, TurnSeat::of(first, 0)).unwrap();
}

impl<S: Journaled> TurnLock<S> {
    /// What is left of a lock that no thread shares any more.
    pub(crate) fn into_board(self) -> Board<S>
        ensures table { (result.shared.table_id ≡ self.table) × (result.shared.table_id.words ≡ 3) × (result.shared.table_id.slots ≡ 1) }
        ensures key { (result.shared.key.state.value ≡ self.opening) × (result.shared.key.seats ≡ self.seats) }
    {
        let Self {
            board,
            seats: _,
            hall: _,
        } = self;
        board
    }

    /// A lock over the state, and its seats with the numbers from 0 up, in order. There is at least one seat.
    /// Where memory runs out the state comes back.
    pub fn new(
        alloc: Global,
        state: S,
        seats: u32,
    ) -> Result<(TurnLock<S>, Vec<TurnSeat<S>>), (AllocError, S)>
        requires some { 0 < seats }
        requires lawful { S.lawful (S.setting state) (S.history state) }
        ensures lock { IfOk result (λ r. (r.0.opening ≡ state) × (r.0.seats ≡ seats)) }
        ensures seats { IfOk result (λ r. r.1.items ≡ new_seats r.0 seats) }
        ensures err { IfErr result (λ e. e.1 ≡ state) }
    {
        let Ok(mut made) = Vec::with_capacity(alloc, seats as usize) else {
            return Err((AllocError, state));
        };
        let Ok(hall) = Hall::new(alloc, seats) else {
            return Err((AllocError, state));
        };
        match open(alloc, state, seats) {
            Ok((board, first)) => {
                deal(&board.shared, first, seats, &mut made);
                Ok((TurnLock { board, seats, hall }, made))
            }
            Err(failed) => Err(failed),
        }
    }
}
