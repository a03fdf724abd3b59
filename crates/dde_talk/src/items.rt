//! A server's items with their values, and its commands, in order.

ghost use Rattle.std.specs.Prelude.{◌≡◌, ◌↔◌, ℕ, IfOk, IsTrue, nat_eq};
ghost use Rattle.std.specs.Map.{lookup};
ghost use Rattle.std.specs.List.{list_any};
ghost use Rattle.dde_talk.specs.Replies.{AreApart, AreRising, IsPlaceOf, is_listed, value_of, with_value};

use std::alloc::AllocError;
use std::marker::Model;

/// Items with their values, by rising item. None is named twice.
#[derive(Drop)]
pub(crate) struct Items {
    rows: Vec<(u16, u32)>,
}

impl Model for Items {
    ghost use Rattle.std.specs.Prelude.{List, ℕ};
    ghost use Rattle.dde_talk.specs.Replies.{AreApart, AreRising};

    ghost Value = { List (ℕ × ℕ) };

    ghost view = { λ a. a.rows.items };

    ghost invariant = { λ a. AreApart a.rows.items × AreRising a.rows.items };
}

/// The place of an item among rows by rising item, if it is there.
fn place_of(rows: &[(u16, u32)], item: u16) -> Option<usize>
    ensures { AreRising rows.now → IsPlaceOf rows.now item result }
{
    rows.binary_search_by_key(&item, |row| row.0).ok()
}

/// Whether an item is named among these.
fn is_named(rows: &[(u16, u32)], item: u16) -> bool
    ensures { result ≡ list_any (λ x. nat_eq item x.0) rows.now }
{
    rows.iter().any(|row| item == row.0)
}

/// Whether no item is named twice, which a server asks of its items. It compares each item with each other one.
pub fn are_apart(items: &[(u16, u32)]) -> bool
    ensures { IsTrue result ↔ AreApart items.now }
{
    for at in 0..items.len() {
        if is_named(&items[..at], items[at].0) {
            return false;
        }
    }
    true
}

impl Items {
    /// These items, none of which may be named twice. Takes no memory.
    pub(crate) fn new(mut rows: Vec<(u16, u32)>) -> Items
        requires { AreApart rows.items }
        ensures { (i : ℕ) → value_of result i ≡ value_of rows.items i }
    {
        rows.sort_unstable_by_key(|row| row.0);
        Items { rows }
    }

    /// The value of an item. None comes where there is no such item.
    pub(crate) fn value(&self, item: u16) -> Option<u32>
        ensures { result ≡ value_of self.now item }
    {
        let at = place_of(&self.rows, item)?;
        Some(self.rows[at].1)
    }

    /// An item has this value from now on. Where there is no such item nothing changes.
    pub(crate) fn put(&mut self, item: u16, value: u32)
        ensures { (i : ℕ) → value_of self.new i ≡ with_value item value i (value_of self.old i) }
    {
        if let Some(at) = place_of(&self.rows, item) {
            let row = &mut self.rows[at];
            row.1 = value;
        }
    }

    /// The items with their values, by rising item.
    pub(crate) fn listed(&self) -> Result<Vec<(u16, u32)>, AllocError>
        ensures { IfOk result (λ v. v.items ≡ self.now) }
    {
        Ok(self.rows.clone()?)
    }
}

/// Commands, by rising number.
#[derive(Drop)]
pub(crate) struct Commands {
    numbers: Vec<u16>,
}

impl Model for Commands {
    ghost use Rattle.std.specs.Prelude.{List, ℕ};
    ghost use Rattle.std.specs.List.Sorted.{IsNonDecreasing};

    ghost Value = { List ℕ };

    ghost view = { λ a. a.numbers.items };

    ghost invariant = { λ a. IsNonDecreasing a.numbers.items };
}

impl Commands {
    /// These commands. Takes no memory.
    pub(crate) fn new(mut numbers: Vec<u16>) -> Commands
        ensures { (c : ℕ) → is_listed result c ≡ is_listed numbers.items c }
    {
        numbers.sort_unstable();
        Commands { numbers }
    }

    /// Whether a command is one of these.
    pub(crate) fn has(&self, command: u16) -> bool
        ensures { result ≡ is_listed self.now command }
    {
        self.numbers.binary_search(&command).is_ok()
    }

    /// The commands, by rising number.
    pub(crate) fn listed(&self) -> Result<Vec<u16>, AllocError>
        ensures { IfOk result (λ v. v.items ≡ self.now) }
    {
        Ok(self.numbers.clone()?)
    }
}
