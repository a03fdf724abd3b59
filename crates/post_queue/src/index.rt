//! Where the slot of each number is.

ghost use Rattle.std.specs.Prelude.{◌≡◌, ◌++◌, ◌∷◌, [], ◌<◌, ◌≤◌, List, ℕ, None, OnOk, OnErr, IfSome, IfNone, All, length, slice_index_or, IsTrue};
ghost use Rattle.post_queue.specs.Places.{Rises, key_of, without_key, end_of, is_first, is_left, kept_in, keys};

use std::alloc::{AllocError, Global};
use std::collections::VecDeque;
use std::marker::Model;

/// The fewest places without a key that are worth a sweep.
const FEW: usize = 16;

/// A number, and the key of its slot until its message leaves.
#[derive(Drop)]
struct Place {
    number: u32,
    key: Option<usize>,
}

/// The numbers of the messages that are there, each with the key of its slot. A place whose message has left in
/// the middle stays without a key, until it comes to the front or a later post sweeps such places out.
#[derive(Drop)]
pub(crate) struct Index {
    /// By rising number.
    places: VecDeque<Place>,
    /// How many of them have a key.
    len: usize,
}

impl Model for Index {
    ghost use Rattle.post_queue.specs.Places.{Keys, keys, kept_in, IsIndex};

    ghost Value = { Keys };

    ghost view = { λ i. keys (kept_in i.places.items) };

    ghost invariant = { λ i. IsIndex i.places.items i.len };
}

impl Index {
    /// No number. Takes no memory.
    pub(crate) fn new(alloc: Global) -> Index
        ensures { result.entries ≡ [] }
    {
        Index {
            places: VecDeque::new(alloc),
            len: 0,
        }
    }

    /// Puts a number above all others last.
    pub(crate) fn push(&mut self, number: u32, key: usize) -> Result<(), AllocError>
        requires above { All (λ e. e.0 < number) self.old.entries }
        ensures ok { OnOk result (self.new.entries ≡ self.old.entries ++ (number, key) ∷ []) }
        ensures err { OnErr result (self.new.entries ≡ self.old.entries) }
    {
        make_way(&mut self.places, self.len, number);
        let place = Place {
            number,
            key: Some(key),
        };
        match self.places.push_back(place) {
            Ok(()) => {}
            Err(_) => return Err(AllocError),
        }
        self.len += 1;
        Ok(())
    }

    /// Takes a number out, and answers its key. None comes exactly where it isn't there.
    pub(crate) fn take(&mut self, number: u32) -> Option<usize>
        ensures value { result ≡ key_of number self.old.entries }
        ensures entries { self.new.entries ≡ without_key number self.old.entries }
    {
        let key = taken(&mut self.places, number)?;
        self.len -= 1;
        Some(key)
    }

    /// Takes all numbers out.
    pub(crate) fn clear(&mut self)
        ensures { self.new.entries ≡ [] }
    {
        self.places.clear();
        self.len = 0;
    }

    /// How many numbers there are.
    pub(crate) fn len(&self) -> usize
        ensures len { result ≡ length self.now.entries }
    {
        self.len
    }
}

/// Whether a number above all that are there may be put last: each place has a key, or the number is above that of
/// the last place, and no more than about half of the places are without a key.
fn has_way(places: &VecDeque<Place>, len: usize, number: u32) -> bool
    requires rises { Rises 0 places.now.items }
    requires counted { len ≡ length (kept_in places.now.items) }
    requires above { All (λ e. e.0 < number) (kept_in places.now.items) }
    ensures { IsTrue result → end_of 0 places.now.items ≤ number }
{
    len == places.len() || is_last(places, number) && places.len() / 2 <= len.max(FEW)
}

/// Whether the number is above that of the last place.
fn is_last(places: &VecDeque<Place>, number: u32) -> bool
    requires { Rises 0 places.now.items }
    ensures { IsTrue result → end_of 0 places.now.items ≤ number }
{
    match places.back() {
        Some(last) => last.number < number,
        None => true,
    }
}

/// Sweeps out the places without a key, where that has to be done before a number is put last.
fn make_way(places: &mut VecDeque<Place>, len: usize, number: u32)
    requires rises { Rises 0 places.old.items }
    requires counted { len ≡ length (kept_in places.old.items) }
    requires above { All (λ e. e.0 < number) (kept_in places.old.items) }
    ensures rises { Rises 0 places.new.items }
    ensures kept { kept_in places.new.items ≡ kept_in places.old.items }
    ensures way { end_of 0 places.new.items ≤ number }
{
    if !has_way(places, len, number) {
        places.retain(|place| place.key.is_some());
    }
}

/// Takes the key of a number, with the place where it is the first.
fn taken(places: &mut VecDeque<Place>, number: u32) -> Option<usize>
    requires { Rises 0 places.old.items }
    ensures value { result ≡ key_of number (kept_in places.old.items) }
    ensures kept { kept_in places.new.items ≡ without_key number (kept_in places.old.items) }
    ensures rises { Rises 0 places.new.items }
{
    if has_first(places, number) {
        taken_first(places, number)
    } else {
        taken_within(places, number)
    }
}

/// Whether the first place has the number.
fn has_first(places: &VecDeque<Place>, number: u32) -> bool
    ensures { result ≡ is_first number places.now.items }
{
    match places.front() {
        Some(first) => first.number == number,
        None => false,
    }
}

/// Takes the first place out, and those after it that are without a key.
fn taken_first(places: &mut VecDeque<Place>, number: u32) -> Option<usize>
    requires rises { Rises 0 places.old.items }
    requires first { IsTrue (is_first number places.old.items) }
    ensures value { result ≡ key_of number (kept_in places.old.items) }
    ensures kept { kept_in places.new.items ≡ without_key number (kept_in places.old.items) }
    ensures rises { Rises 0 places.new.items }
{
    let first = places.pop_front()?;
    drop_left(places);
    first.key
}

/// Whether the message of the first place has left.
fn has_left(places: &VecDeque<Place>) -> bool
    ensures { result ≡ is_left places.now.items }
{
    match places.front() {
        Some(first) => first.key.is_none(),
        None => false,
    }
}

/// Takes out the places without a key that are first.
fn drop_left(places: &mut VecDeque<Place>)
    requires { Rises 0 places.old.items }
    ensures kept { kept_in places.new.items ≡ kept_in places.old.items }
    ensures rises { Rises 0 places.new.items }
{
    while has_left(places) {
        places.pop_front();
    }
}

/// Where the place of a number is. None comes exactly where no place has the number.
fn place_of(places: &VecDeque<Place>, number: u32) -> Option<usize>
    requires { Rises 0 places.now.items }
    ensures found { IfSome result (λ i. (i < length places.now.items) × ((d : Place) → (slice_index_or places.now.items i d).number ≡ number)) }
    ensures no_key { IfNone result (key_of number (kept_in places.now.items) ≡ None) }
    ensures nothing { IfNone result (without_key number (kept_in places.now.items) ≡ kept_in places.now.items) }
{
    let i = places.partition_point(|place| place.number < number);
    if i < places.len() && places[i].number == number {
        Some(i)
    } else {
        None
    }
}

/// Takes the key of a number, and leaves the place.
fn taken_within(places: &mut VecDeque<Place>, number: u32) -> Option<usize>
    requires { Rises 0 places.old.items }
    ensures value { result ≡ key_of number (kept_in places.old.items) }
    ensures kept { kept_in places.new.items ≡ without_key number (kept_in places.old.items) }
    ensures rises { Rises 0 places.new.items }
{
    let i = place_of(places, number)?;
    let place = places.get_mut(i)?;
    place.key.take()
}
