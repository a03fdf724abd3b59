//! The rows of the live windows.

ghost use Rattle.std.specs.Prelude.{◌≡◌, ◌<◌, ◌++◌, ◌∷◌, [], length, filter, MatchOption, OnOk, OnErr, option_copied, slice_index_or, slice_set, remove, ◌==◌};
ghost use Rattle.std.specs.List.{list_any};
ghost use Rattle.std.specs.List.Sorted.{IsNonDecreasingBy};
ghost use Rattle.slab.specs.Slab.{Slab, get, Updates};
ghost use Rattle.win_rows.specs.Windows.{number_of, window_of, RisesFrom};
ghost use Rattle.win_rows.specs.Index.{has, kept_row, IsPlace, IsFreed};

use crate::window::Window;
use slab::Slab;
use std::alloc::{AllocError, Global};
use std::marker::Model;
use win_num::Hwnd;

/// Where the row of a window stands.
#[derive(Clone, Copy, Drop)]
pub struct Place {
    pub number: Hwnd,
    pub key: usize,
}

/// The live windows. Contracts see them as a list by rising number. Their rows stand in a slab and stay
/// there while others come and go; the places, by rising number, are the index of them.
#[derive(Drop)]
pub struct Rows {
    slab: Slab<Window>,
    places: Vec<Place>,
}

impl Model for Rows {
    ghost use Rattle.std.specs.Prelude.{List};
    ghost use Rattle.win_rows.specs.declared.window.Window.{Window};
    ghost use Rattle.win_rows.specs.Index.{rows_at, IsIndex};

    ghost Value = { List Window };

    ghost view = { λ t. rows_at t.slab t.places.items };

    ghost invariant = { λ t. IsIndex t.slab t.places.items };
}

impl Rows {
    /// No window. Takes no memory.
    pub fn new(alloc: Global) -> Rows
        ensures { result ≡ [] }
    {
        Rows {
            slab: Slab::new(alloc),
            places: Vec::new(alloc),
        }
    }

    /// How many windows are live.
    pub fn len(&self) -> usize
        ensures { result ≡ length self.now }
    {
        self.places.len()
    }

    /// The window at this place of the list.
    pub fn at(&self, i: usize) -> &Window
        requires { i < length self.now }
        ensures { result.now ≡ slice_index_or self.now i result.now }
    {
        &self.slab[self.places[i].key]
    }

    /// The place of a window in the list. None comes exactly where it isn't live.
    pub fn place_of(&self, w: Hwnd) -> Option<usize>
        ensures place { MatchOption result (window_of self.now w.0 ≡ None) (IsPlace self.now w.0) }
        ensures rising { RisesFrom 0 self.now }
    {
        let i = self.places.partition_point(|p| p.number < w);
        if i < self.places.len() && self.places[i].number == w {
            Some(i)
        } else {
            None
        }
    }

    /// The window of a number.
    pub fn find(&self, w: Hwnd) -> Option<&Window>
        ensures { option_copied result ≡ window_of self.now w.0 }
    {
        match self.place_of(w) {
            Some(i) => Some(self.at(i)),
            None => None,
        }
    }

    /// Puts a window last, whose number is above all others.
    pub fn push(&mut self, window: Window) -> Result<(), AllocError>
        requires { RisesFrom 0 (self.old ++ window ∷ []) }
        ensures ok { OnOk result (self.new ≡ self.old ++ window ∷ []) }
        ensures err { OnErr result (self.new ≡ self.old) }
    {
        self.places.reserve(1)?;
        self.slab.reserve(1)?;
        let key = self.slab.insert_reserved(window);
        let number = window.number;
        self.places.push(Place { number, key }).unwrap();
        Ok(())
    }

    /// Puts a window in the place of one with the same number.
    pub fn put(&mut self, i: usize, window: Window)
        requires within { i < length self.old }
        requires number { (x : Window) → x ≡ slice_index_or self.old i x → window.number ≡ x.number }
        ensures { self.new ≡ slice_set self.old i window }
    {
        let key = self.places[i].key;
        if let Some(row) = self.slab.get_mut(key) {
            *row = window;
        }
    }

    /// Takes out the window at this place of the list.
    pub fn take_out(&mut self, i: usize)
        requires { i < length self.old }
        ensures { self.new ≡ remove self.old i }
    {
        let place = self.places.remove(i);
        self.slab.remove(place.key);
    }

    /// Keeps the windows of these numbers, which rise.
    pub fn keep(&mut self, numbers: &[Hwnd])
        requires { IsNonDecreasingBy (λ v. v.0) numbers.now }
        ensures { self.new ≡ filter (has numbers.now) self.old }
    {
        free_others(&mut self.slab, &self.places, numbers);
        let slab = &self.slab;
        self.places.retain(|p| slab.contains(p.key));
    }
}

/// Frees the rows of windows whose numbers aren't among these.
fn free_others(slab: &mut Slab<Window>, places: &[Place], numbers: &[Hwnd])
    requires { IsNonDecreasingBy (λ v. v.0) numbers.now }
    ensures { IsFreed numbers.now places.now (length places.now) slab.old slab.new }
{
    for p in places {
        free_other(slab, p.key, numbers);
    }
}

/// Frees the row under a key, if it is of a window whose number isn't among these.
fn free_other(slab: &mut Slab<Window>, key: usize, numbers: &[Hwnd])
    requires { IsNonDecreasingBy (λ v. v.0) numbers.now }
    ensures { Updates slab.old slab.new key (kept_row numbers.now (get slab.old key)) }
{
    let stays = match slab.get(key) {
        Some(x) => has_number(numbers, x.number),
        None => true,
    };
    if !stays {
        slab.try_remove(key);
    }
}

/// Whether the number is among these, which rise.
pub fn has_number(numbers: &[Hwnd], w: Hwnd) -> bool
    requires { IsNonDecreasingBy (λ v. v.0) numbers.now }
    ensures { result ≡ list_any (λ v. v.0 == w.0) numbers.now }
{
    let i = numbers.partition_point(|v| *v < w);
    i < numbers.len() && numbers[i] == w
}
