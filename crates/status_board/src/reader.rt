//! Readers, and the notes that they are given.

ghost use Rattle.std.specs.Prelude.{◌≡◌, ◌⊎◌, ◌<◌, [], false};
ghost use Rattle.std.specs.Arc.{arc_value};
ghost use mathlib.Core.List.{IsPrefix};
ghost use Rattle.status_board.specs.Lists.{last_of, Counts};
ghost use Rattle.status_board.specs.Rule.{known};

use crate::known::{Board, Hear, Place, Read, Settle};
use crate::shown::Shown;
use std::marker::Model;
use std::sync::Arc;

/// What the writer had published when it told it, for a reader of the same board. It has no bytes, and any thread may
/// have it. Contracts see which board it is of, and the list of what it tells.
#[derive(Drop)]
pub struct Note {
    pub(crate) place: Place,
}

impl Model for Note {
    ghost use Rattle.std.specs.Prelude.{◌≡◌, [], false};
    ghost use Rattle.status_board.specs.Boards.{Knowing};
    ghost use Rattle.status_board.specs.Lists.{Counts};
    ghost use Rattle.status_board.specs.Rule.{known};

    ghost Value = { Knowing };

    ghost view = { λ n. record { board = n.place.table_id; list = n.place.me.0.list } };

    ghost invariant = { λ n. (n.place.me ≡ (known false n.place.me.0.list [], [])) × Counts n.place.me.0.list };
}

/// Reads what one thread publishes. It draws no ticket and waits for nobody. Contracts see which board it is of, and the
/// list of what it knows to be published.
#[derive(Drop)]
pub struct BoardReader {
    pub(crate) board: Arc<Board>,
    pub(crate) place: Place,
}

impl Model for BoardReader {
    ghost use Rattle.std.specs.Prelude.{◌≡◌, [], false};
    ghost use Rattle.std.specs.Arc.{arc_value};
    ghost use Rattle.status_board.specs.Boards.{Knowing};
    ghost use Rattle.status_board.specs.Lists.{Counts};
    ghost use Rattle.status_board.specs.Rule.{known};

    ghost Value = { Knowing };

    ghost view = { λ r. record { board = r.place.table_id; list = r.place.me.0.list } };

    ghost invariant = { λ r. (r.place.me ≡ (known false r.place.me.0.list [], [])) × Counts r.place.me.0.list × (r.place.table_id ≡ (arc_value r.board).shared.table_id) × (r.place.table_id.words ≡ 1) };
}

impl BoardReader {
    /// Takes in a note of this board: from now on no read answers less than it tells.
    pub fn learn(&mut self, note: Note)
        requires { note.board ≡ self.old.board }
        ensures board { self.new.board ≡ self.old.board }
        ensures one { (self.new.list ≡ self.old.list) ⊎ (self.new.list ≡ note.list) }
        ensures old { IsPrefix self.old.list self.new.list }
        ensures told { IsPrefix note.list self.new.list }
    {
        let Note { place } = note;
        let board = &self.board;
        let top = &board.shared;
        top.join_seat::<Hear>(&mut self.place, place);
        top.load::<Settle>(&mut self.place, 0);
    }

    /// The last that was published: no less than what this reader has read or learned. Number and value are 0 where
    /// nothing was published.
    pub fn read(&mut self) -> Shown
        ensures board { self.new.board ≡ self.old.board }
        ensures old { IsPrefix self.old.list self.new.list }
        ensures last { result ≡ last_of self.new.list }
        ensures numbers { Counts self.new.list }
    {
        let board = &self.board;
        Shown::said(board.shared.load::<Read>(&mut self.place, 0))
    }
}
