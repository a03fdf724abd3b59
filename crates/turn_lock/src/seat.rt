//! A seat of a lock.
ghost use Rattle.std.specs.Prelude.{◌≡◌};
ghost use Rattle.turn_lock.specs.Seats.{sitting, at_rest};

use crate::journaled::Journaled;
use crate::view::View;
use atomic_table::Seat;
use std::marker::Model;

/// What the table knows of a seat.
pub(crate) type Place<S> = Seat<
    Option<S>,
    View<S, <S as Journaled>::Call, <S as Journaled>::Answer>,
>;

/// A seat of a lock over `S`. Contracts see which lock it is of, its number, what it has seen of the history since
/// the opening, its own calls with their answers, and how often it looked. But for the number all of this exists in
/// proofs alone.
#[derive(Drop)]
pub struct TurnSeat<S: Journaled> {
    pub(crate) place: Place<S>,
    number: u32,
}

impl<S: Journaled> Model for TurnSeat<S> {
    ghost use Rattle.std.specs.Prelude.{◌≡◌};
    ghost use Rattle.turn_lock.specs.Seats.{Sitting, sitting, at_rest};

    ghost Value = { Sitting S S.Call S.Answer };

    ghost view = { λ s. sitting s.place };

    ghost invariant = { λ s. (s.place ≡ at_rest s.place) × (s.place.me.0.number ≡ s.number) };
}

impl<S: Journaled> TurnSeat<S> {
    /// The seat at a place of the table, with its number.
    pub(crate) fn of(place: Place<S>, number: u32) -> TurnSeat<S>
        requires { (place ≡ at_rest place) × (place.me.0.number ≡ number) }
        ensures { result ≡ sitting place }
    {
        TurnSeat { place, number }
    }

    /// The seat's number, from 0: its place in the list that the lock was opened with.
    pub fn number(&self) -> u32
        ensures { result ≡ self.now.number }
    {
        self.number
    }

    /// The place of the table that the seat had.
    pub(crate) fn into_place(self) -> Place<S>
        ensures { (result ≡ at_rest result) × (sitting result ≡ self) }
    {
        let TurnSeat { place, number: _ } = self;
        place
    }
}
