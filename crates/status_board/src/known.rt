//! What a seat at the board knows, the rule of the board, and its steps.

use crate::shown::Shown;
use atomic_table::{Join, Play, Seat, Split, Table, TableRule};
use std::alloc::Global;
use std::collections::LinkedList;

/// What a seat knows. No value of it is made.
pub struct Known {
    /// It is the writer's.
    pub writes: bool,
    /// What it knows of what was published.
    pub list: LinkedList<Shown>,
    /// What it was told, until its next step.
    pub told: LinkedList<Shown>,
}

/// The type that the word and the views agree by.
pub struct Published;

impl TableRule<u64, Known, u64> for Published {
    ghost use Rattle.status_board.specs.Rule.{Kept, first_writer};

    ghost holds = { λ key s. Kept s };

    ghost first = { λ key. first_writer };
}

/// The word that all share.
pub(crate) type Board = Table<u64, Known, u64, Published, Global>;

/// A seat at it.
pub(crate) type Place = Seat<u64, Known>;

/// A step that reads the word.
pub(crate) struct Read;

impl Play<u64, Known> for Read {
    ghost use Rattle.status_board.specs.Rule.{Reads};

    ghost then = { Reads };
}

/// A step that takes in what the seat was told.
pub(crate) struct Settle;

impl Play<u64, Known> for Settle {
    ghost use Rattle.status_board.specs.Rule.{Settles};

    ghost then = { Settles };
}

/// A step of the writer that publishes.
pub(crate) struct Add;

impl Play<u64, Known> for Add {
    ghost use Rattle.status_board.specs.Rule.{Adds};

    ghost then = { Adds };
}

/// The writer makes a reader that knows of nothing.
pub(crate) struct Deal;

impl Split<Known> for Deal {
    ghost use Rattle.status_board.specs.Rule.{newcomer};

    ghost left = { λ v. v };

    ghost right = { λ v. newcomer };
}

/// The writer tells what it knows.
pub(crate) struct Tell;

impl Split<Known> for Tell {
    ghost use Rattle.status_board.specs.Rule.{telling};

    ghost left = { λ v. v };

    ghost right = { telling };
}

/// A reader is told what a note knows.
pub(crate) struct Hear;

impl Join<Known> for Hear {
    ghost use Rattle.status_board.specs.Rule.{hearing, newcomer};

    ghost both = { hearing };

    ghost spent = { newcomer };
}
