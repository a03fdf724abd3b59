//! The rule of the lock, and what each step on it tells.
ghost use Rattle.turn_lock.specs.Rule.{drew, looked, learned, counted, passed};
ghost use Rattle.turn_lock.specs.Views.{with_one_more, newcomer, taking_in, spent};

use crate::journaled::Journaled;
use crate::view::{Opening, View};
use atomic_table::{Join, Play, Split, TableRule};
use std::marker::PhantomData;

/// The type that the words, the place of the state and the views agree by.
pub struct Turns<S> {
    of: PhantomData<S>,
}

impl<S: Journaled> TableRule<Option<S>, View<S, S::Call, S::Answer>, Opening<S>> for Turns<S> {
    ghost use Rattle.turn_lock.specs.Rule.{Kept};
    ghost use Rattle.turn_lock.specs.Views.{first_view};

    ghost holds = { λ key. Kept S.history S.setting S.lawful S.number key.state.value key.seats };

    ghost first = { λ key. first_view key.state.value };
}

pub(crate) struct Draw;

impl<S, C, A> Play<Option<S>, View<S, C, A>> for Draw {
    ghost then = { drew };
}

pub(crate) struct Look<S> {
    of: PhantomData<S>,
}

impl<S: Journaled> Play<Option<S>, View<S, S::Call, S::Answer>> for Look<S> {
    ghost then = { looked S.history S.setting S.lawful };
}

pub(crate) struct Learn<S> {
    of: PhantomData<S>,
}

impl<S: Journaled> Play<Option<S>, View<S, S::Call, S::Answer>> for Learn<S> {
    ghost then = { learned S.history S.number };
}

pub(crate) struct Count<S> {
    of: PhantomData<S>,
}

impl<S: Journaled> Play<Option<S>, View<S, S::Call, S::Answer>> for Count<S> {
    ghost then = { counted S.history S.number };
}

pub(crate) struct PassOn;

impl<S, C, A> Play<Option<S>, View<S, C, A>> for PassOn {
    ghost then = { passed };
}

/// The first seat makes another one.
pub(crate) struct Deal;

impl<S, C, A> Split<View<S, C, A>> for Deal {
    ghost left = { with_one_more };

    ghost right = { newcomer };
}

/// One seat takes in another one.
pub(crate) struct Gather;

impl<S, C, A> Join<View<S, C, A>> for Gather {
    ghost both = { taking_in };

    ghost spent = { spent };
}
