//! How a lock is closed.
ghost use Rattle.std.specs.Prelude.{◌≡◌, ◌<◌, ◌≤◌, ◌+◌, length, All, IfOk, IfErr};
ghost use Rattle.turn_lock.specs.Seats.{IsSeatOf, HasAllSeats, Settles, Gathered, Ends};
ghost use Rattle.turn_lock.specs.declared.view.Stage.TheVariants.{Away};

use crate::journaled::Journaled;
use crate::lock::{Board, Top, TurnLock};
use crate::plays::Gather;
use crate::seat::{Place, TurnSeat};

// The last seat takes in the others.
fn gather<S: Journaled>(top: &Top<S>, mut seats: Vec<TurnSeat<S>>) -> Place<S>
    requires table { 0 < top.now.table_id.words }
    requires seats { (0 < length seats.items) × All (IsSeatOf (record { table = top.now.table_id; opening = top.now.key.state.value; seats = top.now.key.seats })) seats.items }
    ensures { Gathered top.now.table_id top.now.key.state.value seats.items result }
{
    let mut place = seats.pop().unwrap().into_place();
    while let Some(other) = seats.pop() {
        top.join_seat::<Gather>(&mut place, other.into_place());
    }
    place
}

// The state at home, where one seat stands for all of the lock's.
fn settle<S: Journaled>(board: Board<S>, place: Place<S>) -> S
    requires table { (place.table_id ≡ board.shared.table_id) × (board.shared.table_id.words ≡ 3) × (board.shared.table_id.slots ≡ 1) }
    requires all { (place.me.0.stage ≡ Away) × (board.shared.key.seats ≤ length place.me.0.joined + 1) }
    ensures { Ends S.history S.setting S.lawful S.number board.shared.key.state.value board.shared.key.seats place.me.0 result }
{
    let mut closed = board.close_with(place);
    let state = closed.take(0).unwrap();
    closed.free();
    state
}

impl<S: Journaled> TurnLock<S> {
    /// Gives the state back, where all seats of the lock are given. Where one is missing, all come back untouched.
    pub fn close(self, seats: Vec<TurnSeat<S>>) -> Result<S, (TurnLock<S>, Vec<TurnSeat<S>>)>
        requires { All (IsSeatOf self) seats.items }
        ensures state { IfOk result (λ x. Settles S.history S.setting S.lawful S.number self seats.items x) }
        ensures all { IfOk result (λ _. HasAllSeats self seats.items) }
        ensures missing { IfErr result (λ e. ¬ HasAllSeats self seats.items) }
        ensures untouched { IfErr result (λ e. (e.0 ≡ self) × (e.1.items ≡ seats.items)) }
    {
        if seats.len() < self.seats as usize {
            return Err((self, seats));
        }
        let board = self.into_board();
        let place = gather(&board.shared, seats);
        Ok(settle(board, place))
    }
}
