//! A seat's turn.
ghost use Rattle.std.specs.Prelude.{◌≡◌, ◌⊎◌, true, false, [], ◌∷◌, ◌++◌, IfOk, OnErr, MatchOption, MatchBool, Some};
ghost use Rattle.turn_lock.specs.Seats.{IsSeatOf, IsSameSeat, Looks, Adds, Finds, InHand, Takes, at_rest, left, left_counted};

use crate::bell::{Hall, call_next, hold_back, wait_a_little};
use crate::journaled::Journaled;
use crate::lock::{Top, TurnLock};
use crate::plays::{Count, Draw, Learn, Look, PassOn};
use crate::seat::{Place, TurnSeat};
use std::alloc::AllocError;
use std::sync::Wait;

// Waits for the seat's turn, takes the state out, and sees the whole history.
fn take<S: Journaled, R: Wait>(rt: &R, top: &Top<S>, hall: &Hall, place: &mut Place<S>) -> S
    requires table { (place.old.table_id ≡ top.now.table_id) × (top.now.table_id.words ≡ 3) × (top.now.table_id.slots ≡ 1) }
    requires rest { (place.old ≡ at_rest place.old) × (place.old.me.0.opening ≡ Some top.now.key.state.value) }
    ensures { Takes S.history S.setting S.lawful S.number top.now.key.state.value place.old place.new result }
{
    hold_back(rt, top, hall);
    let ticket = top.fetch_add::<Draw>(place, 0, 1);
    let mut looks = 0;
    for _ in rt.forever() {
        let served = top.load::<Look<S>>(place, 1);
        if served == ticket {
            let state = top.exchange(place, 0, None).unwrap();
            top.load::<Learn<S>>(place, 2);
            return state;
        }
        looks = wait_a_little(rt, top, hall, ticket, served, looks);
    }
    unreachable!()
}

// Puts the state back, and passes the turn on.
fn leave<S: Journaled>(top: &Top<S>, hall: &Hall, place: &mut Place<S>, state: S)
    requires table { (place.old.table_id ≡ top.now.table_id) × (top.now.table_id.words ≡ 3) × (top.now.table_id.slots ≡ 1) }
    requires held { InHand S.history top.now.key.state.value place.old × (S.history state ≡ place.old.me.0.kept) × (S.setting state ≡ S.setting top.now.key.state.value) }
    ensures { place.new ≡ left place.old }
{
    let home = top.exchange(place, 0, Some(state));
    let None = home else { unreachable!() };
    top.fetch_add::<PassOn>(place, 1, 1);
    call_next(top, hall);
}

// Puts the state back with one entry more, counts it, and passes the turn on.
fn leave_counted<S: Journaled>(top: &Top<S>, hall: &Hall, place: &mut Place<S>, state: S)
    requires table { (place.old.table_id ≡ top.now.table_id) × (top.now.table_id.words ≡ 3) × (top.now.table_id.slots ≡ 1) }
    requires held { InHand S.history top.now.key.state.value place.old × (S.setting state ≡ S.setting top.now.key.state.value) × S.lawful (S.setting state) (S.history state) }
    requires entry { (e : S.Call × S.Answer) × (S.history state ≡ place.old.me.0.kept ++ e ∷ []) × (S.number e.0 ≡ place.old.me.0.number) }
    ensures { (e : S.Call × S.Answer) → S.history state ≡ place.old.me.0.kept ++ e ∷ [] → place.new ≡ left_counted place.old e }
{
    let home = top.exchange(place, 0, Some(state));
    let None = home else { unreachable!() };
    top.fetch_add::<Count<S>>(place, 2, 1);
    top.fetch_add::<PassOn>(place, 1, 1);
    call_next(top, hall);
}

// Makes the call on the state that the seat has taken, and ends its turn.
fn make<S: Journaled>(
    top: &Top<S>,
    hall: &Hall,
    place: &mut Place<S>,
    mut state: S,
    call: S::Call,
) -> Result<S::Answer, AllocError>
    requires table { (place.old.table_id ≡ top.now.table_id) × (top.now.table_id.words ≡ 3) × (top.now.table_id.slots ≡ 1) }
    requires held { InHand S.history top.now.key.state.value place.old × (S.history state ≡ place.old.me.0.kept) × (S.setting state ≡ S.setting top.now.key.state.value) × S.lawful (S.setting state) (S.history state) }
    requires own { S.number call ≡ place.old.me.0.number }
    ensures answered { IfOk result (λ a. MatchBool (S.is_full (S.setting state) (S.history state))
        ((place.new ≡ left place.old) × (a ≡ S.refusal (S.setting state) (S.history state) call))
        ((place.new ≡ left_counted place.old (call, a)) × S.lawful (S.setting state) (S.history state ++ (call, a) ∷ []))) }
    ensures no_memory { OnErr result (place.new ≡ left place.old) }
{
    let full = state.full();
    match state.step(call) {
        Err(failed) => {
            leave(top, hall, place, state);
            Err(failed)
        }
        Ok(answer) if full => {
            leave(top, hall, place, state);
            Ok(answer)
        }
        Ok(answer) => {
            leave_counted(top, hall, place, state);
            Ok(answer)
        }
    }
}

impl<S: Journaled> TurnLock<S> {
    /// Waits for the seat's turn and makes the call.
    pub fn run<R: Wait>(
        &self,
        rt: &R,
        seat: &mut TurnSeat<S>,
        call: S::Call,
    ) -> Result<S::Answer, AllocError>
        requires seat { IsSeatOf self.now seat.old }
        requires own { S.number call ≡ seat.old.number }
        ensures same { IsSameSeat seat.old seat.new }
        ensures looks { Looks S.history S.setting S.lawful S.number self.now.opening seat.old seat.new }
        ensures answered { IfOk result (λ a. Adds S.history S.setting (λ g h. S.is_full g h ≡ false) self.now.opening seat.old seat.new (call, a)
            ⊎ Finds S.history S.setting (λ g h. (S.is_full g h ≡ true) × (a ≡ S.refusal g h call)) self.now.opening seat.old seat.new) }
        ensures no_memory { OnErr result (seat.new.mine ≡ seat.old.mine) }
    {
        let state = take(rt, &self.board.shared, &self.hall, &mut seat.place);
        make(&self.board.shared, &self.hall, &mut seat.place, state, call)
    }

    /// Waits for the seat's turn and makes the call, if it has to wait for no other.
    pub fn run_if<R: Wait>(
        &self,
        rt: &R,
        seat: &mut TurnSeat<S>,
        call: S::Call,
    ) -> Result<Option<S::Answer>, AllocError>
        requires seat { IsSeatOf self.now seat.old }
        requires own { S.number call ≡ seat.old.number }
        ensures same { IsSameSeat seat.old seat.new }
        ensures looks { Looks S.history S.setting S.lawful S.number self.now.opening seat.old seat.new }
        ensures answered { IfOk result (λ r. MatchOption r
            (Finds S.history S.setting (λ g h. S.is_barred g h call ≡ true) self.now.opening seat.old seat.new)
            (λ a. Adds S.history S.setting (λ g h. (S.is_full g h ≡ false) × (S.is_barred g h call ≡ false)) self.now.opening seat.old seat.new (call, a)
            ⊎ Finds S.history S.setting (λ g h. (S.is_full g h ≡ true) × (S.is_barred g h call ≡ false) × (a ≡ S.refusal g h call)) self.now.opening seat.old seat.new)) }
        ensures no_memory { OnErr result (seat.new.mine ≡ seat.old.mine) }
    {
        let top = &self.board.shared;
        let state = take(rt, top, &self.hall, &mut seat.place);
        if state.barred(&call) {
            leave(top, &self.hall, &mut seat.place, state);
            return Ok(None);
        }
        match make(top, &self.hall, &mut seat.place, state, call) {
            Ok(answer) => Ok(Some(answer)),
            Err(failed) => Err(failed),
        }
    }
}
