//! The writer of a board.

ghost use Rattle.std.specs.Prelude.{◌≡◌, ◌<◌, ◌+◌, [], ◌∷◌, ◌++◌, length, All, IfOk, OnErr};
ghost use Rattle.std.specs.Arc.{arc_value};
ghost use Rattle.turn_lock.specs.Seats.{IsSameSeat};
ghost use Rattle.user_desk.specs.Desks.{IsDeskSeat, HasLooked, made_by};
ghost use Rattle.user_model.specs.Past.{Past};
ghost use Rattle.status_board.specs.Boards.{Knowing};
ghost use Rattle.status_board.specs.Lists.{Counts, shown};
ghost use Rattle.status_board.specs.Rule.{newcomer};
ghost use Rattle.status_board.specs.Owners.{HasCounted, CameToShow};

use crate::known::{Add, Board, Deal, Place, Tell};
use crate::reader::{BoardReader, Note};
use crate::shown::{Published, Shown};
use std::alloc::{AllocError, Global};
use std::marker::Model;
use std::sync::{Arc, Wait};
use user_desk::{Desk, DeskSeat};
use user_model::{Answer, Call, Machine};

/// The bits of all kinds of messages (Microsoft, GetQueueStatus function).
const ALL_KINDS: u64 = 127;

/// Publishes the status of one thread, its owner. Contracts see which board it is, the number of the owner's seat, and
/// the list of what was published.
#[derive(Drop)]
pub struct BoardWriter {
    board: Arc<Board>,
    place: Place,
    owner: u32,
    counter: u32,
}

impl Model for BoardWriter {
    ghost use Rattle.std.specs.Prelude.{◌≡◌, [], true, length};
    ghost use Rattle.std.specs.Arc.{arc_value};
    ghost use Rattle.status_board.specs.Boards.{Writing};
    ghost use Rattle.status_board.specs.Lists.{Counts};
    ghost use Rattle.status_board.specs.Rule.{known};

    ghost Value = { Writing };

    ghost view = { λ w. record { board = w.place.table_id; owner = w.owner; list = w.place.me.0.list } };

    ghost invariant = { λ w. (w.place.me ≡ (known true w.place.me.0.list [], [])) × Counts w.place.me.0.list × (length w.place.me.0.list ≡ w.counter) × (w.place.table_id ≡ (arc_value w.board).shared.table_id) × (w.place.table_id.words ≡ 1) };
}

/// So many readers that know of nothing.
fn deal(
    alloc: Global,
    board: &Arc<Board>,
    place: &mut Place,
    readers: u32,
) -> Result<Vec<BoardReader>, AllocError>
    requires { (place.old.table_id ≡ (arc_value board.now).shared.table_id) × (place.old.table_id.words ≡ 1) }
    ensures place { (place.new.table_id ≡ place.old.table_id) × (place.new.id ≡ place.old.id) × (place.new.me ≡ place.old.me) }
    ensures count { IfOk result (λ made. length made.items ≡ readers) }
    ensures new { IfOk result (λ made. All (λ r. (r.board ≡ place.old.table_id) × (r.list ≡ [])) made.items) }
{
    let mut made = Vec::with_capacity(alloc, readers as usize)?;
    let mut number = 0;
    while number < readers {
        let board = Arc::try_clone(board)?;
        let place = board.shared.split_seat::<Deal>(place);
        made.push(BoardReader { board, place })?;
        number += 1;
    }
    Ok(made)
}

impl BoardWriter {
    /// A board for the status of the thread whose seat this is, and so many readers of it.
    pub fn open<M: Machine>(
        alloc: Global,
        seat: &DeskSeat<M>,
        readers: u32,
    ) -> Result<(BoardWriter, Vec<BoardReader>), AllocError>
        requires { 0 < readers }
        ensures writer { IfOk result (λ r. (r.0.owner ≡ seat.now.number) × (r.0.list ≡ [])) }
        ensures count { IfOk result (λ r. length r.1.items ≡ readers) }
        ensures readers { IfOk result (λ r. All (λ reader. (reader.board ≡ r.0.board) × (reader.list ≡ [])) r.1.items) }
    {
        let (board, mut place) = Board::of_words(alloc, &[0], &0)?;
        let board = Arc::new(alloc, board)?;
        let made = deal(alloc, &board, &mut place, readers)?;
        let owner = seat.number();
        let writer = BoardWriter {
            board,
            place,
            owner,
            counter: 0,
        };
        Ok((writer, made))
    }

    /// Publishes a value with the next number, which it answers.
    fn show(&mut self, value: u32) -> u32
        requires { length self.old.list < 4294967295 }
        ensures number { result ≡ length self.old.list + 1 }
        ensures writer { self.new ≡ record self.old { list = self.old.list ++ shown result value ∷ [] } }
        ensures numbers { Counts self.new.list }
    {
        let number = self.counter + 1;
        let word = Shown { number, value }.word();
        let board = &self.board;
        board.shared.store::<Add>(&mut self.place, 0, word);
        self.counter = number;
        number
    }

    /// Makes the call `status` for all kinds of messages as the owner, and publishes what it answers (Microsoft,
    /// GetQueueStatus function). It waits for the owner's turn. The seat is the owner's, and since some moment it was
    /// told as many statuses of all kinds as there are published ones: so it is where it makes these calls by
    /// `publish` alone.
    pub fn publish<M: Machine, R: Wait>(
        &mut self,
        rt: &R,
        desk: &Desk<M>,
        seat: &mut DeskSeat<M>,
    ) -> Result<Published, AllocError>
        requires seat { IsDeskSeat desk.now seat.old }
        requires owner { seat.old.number ≡ self.old.owner }
        requires counted { (start : Past) × HasCounted start (made_by seat.old) (length self.old.list) }
        ensures same { IsSameSeat seat.old seat.new × (self.new.board ≡ self.old.board) × (self.new.owner ≡ self.old.owner) }
        ensures looked { HasLooked (M.setup desk.now.opening.machine) (M.past desk.now.opening.machine) seat.old seat.new }
        ensures came_to { IfOk result (λ p. CameToShow (M.setup desk.now.opening.machine) (M.past desk.now.opening.machine) seat.old seat.new self.old.list self.new.list p) }
        ensures counted { (start : Past) → HasCounted start (made_by seat.old) (length self.old.list) → HasCounted start (made_by seat.new) (length self.new.list) }
        ensures no_memory { OnErr result ((self.new.list ≡ self.old.list) × (made_by seat.new ≡ made_by seat.old)) }
    {
        match desk.call(rt, seat, Call::Status(ALL_KINDS))? {
            Answer::Value(value) => Ok(Published::Shown(self.show(value as u32))),
            Answer::Refused(code) => Ok(Published::Refused(code)),
            _ => unreachable!(),
        }
    }

    /// A note of all that was published so far, for a reader of this board.
    pub fn tell(&mut self) -> Note
        ensures writer { self.new ≡ self.old }
        ensures note { (result.board ≡ self.old.board) × (result.list ≡ self.old.list) }
    {
        let board = &self.board;
        let place = board.shared.split_seat::<Tell>(&mut self.place);
        Note { place }
    }

    /// Ends the writer. Readers go on to read what was published last, and notes keep what they tell.
    pub fn close<R: Wait>(self, _rt: &R) {}
}
