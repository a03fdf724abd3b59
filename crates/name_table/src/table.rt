//! Tables of names and numbers.

ghost use Rattle.std.specs.Prelude.{◌≡◌, ◌<◌, length, take, slice_index_or, ◌≢◌, ◌↔◌, ℕ, IsTrue, IsOk, IsNone, List, IfOk, IfErr, All, position, find, ◌==◌, option_map};
ghost use Rattle.std.specs.Str.{bytes_eq};
ghost use Rattle.name_table.specs.Rows.{HasRow, IsFirstRepeat, is_one_to_one, name_in, number_in, shares};
ghost use Rattle.name_table.specs.Tables.{all_named, named};

use std::marker::Model;

/// A name with its number.
#[derive(Clone, Copy)]
pub struct Row {
    pub name: &'static [u8],
    pub number: u32,
}

/// Rows of a name and a number, of which no two share their name or their number. Contracts see the
/// list of the rows.
#[derive(Drop)]
pub struct NameTable {
    rows: &'static [Row],
}

impl Model for NameTable {
    ghost use Rattle.std.specs.Prelude.{IsTrue, List};
    ghost use Rattle.name_table.specs.Rows.{Named, is_one_to_one};
    ghost use Rattle.name_table.specs.Tables.{all_named};

    ghost Value = { List Named };

    ghost view = { λ t. all_named t.rows.now };

    ghost invariant = { λ t. IsTrue (is_one_to_one (all_named t.rows.now)) };
}

/// The places, from 0, of two rows that share their name or their number.
#[derive(Clone, Copy, Debug, PartialEq, Eq)]
pub struct Repeat {
    pub first: usize,
    pub second: usize,
}

/// The place of the first row that shares its name or its number with the later one.
fn first_sharing(rows: &[Row], later: &Row) -> Option<usize>
    ensures { result ≡ position (λ r. shares (named r) (named later.now)) rows.now }
{
    rows.iter()
        .position(|row| row.name == later.name || row.number == later.number)
}

/// The place of the first row that shares its name or its number with the later one at `second`.
fn first_before(rows: &[Row], second: usize) -> Option<usize>
    requires { second < length rows.now }
    ensures { (later : Row)
        × (later ≡ slice_index_or rows.now second later)
        × (result ≡ position (λ r. shares (named r) (named later)) (take second rows.now)) }
{
    match rows.get(second) {
        Some(later) => first_sharing(&rows[..second], later),
        None => None,
    }
}

/// The number in the first of the rows that has the name.
fn number_in_rows(rows: &[Row], name: &[u8]) -> Option<u32>
    ensures { result ≡ option_map (λ r. r.number) (find (λ r. bytes_eq r.name.now name.now) rows.now) }
{
    rows.iter()
        .find(|row| row.name == name)
        .map(|row| row.number)
}

/// The name in the first of the rows that has the number.
fn name_in_rows(rows: &[Row], number: u32) -> Option<&'static [u8]>
    ensures { option_map (λ s. s.now) result
        ≡ option_map (λ r. r.name.now) (find (λ r. r.number == number) rows.now) }
{
    rows.iter()
        .find(|row| row.number == number)
        .map(|row| row.name)
}

impl NameTable {
    /// The table of these rows. `Repeat` comes exactly where two rows share their name or their number:
    /// it has the least second place, and for it the least first one.
    pub fn new(rows: &'static [Row]) -> Result<NameTable, Repeat>
        ensures ok { IfOk result (λ t. t ≡ all_named rows.now) }
        ensures one_to_one { IsOk result ↔ IsTrue (is_one_to_one (all_named rows.now)) }
        ensures repeat { IfErr result (λ r. IsFirstRepeat (all_named rows.now) r.first r.second) }
    {
        for second in 0..rows.len() {
            if let Some(first) = first_before(rows, second) {
                return Err(Repeat { first, second });
            }
        }
        Ok(NameTable { rows })
    }

    /// The number of the row with this name. None comes exactly where no row has the name.
    pub fn number_of(&self, name: &[u8]) -> Option<u32>
        ensures value { result ≡ number_in self.now name.now }
        ensures row { (n : ℕ) → (result ≡ Some n) ↔ HasRow self.now name.now n }
        ensures none { IsNone result ↔ All (λ r. r.name ≢ name.now) self.now }
        ensures back { (n : ℕ) → (result ≡ Some n) ↔ (name_in self.now n ≡ Some name.now) }
    {
        number_in_rows(self.rows, name)
    }

    /// The name of the row with this number. None comes exactly where no row has the number.
    pub fn name_of(&self, number: u32) -> Option<&'static [u8]>
        ensures value { option_map (λ s. s.now) result ≡ name_in self.now number }
        ensures row { (name : List ℕ) → (option_map (λ s. s.now) result ≡ Some name) ↔ HasRow self.now name number }
        ensures none { IsNone result ↔ All (λ r. r.number ≢ number) self.now }
        ensures back { (name : List ℕ)
            → (option_map (λ s. s.now) result ≡ Some name) ↔ (number_in self.now name ≡ Some number) }
    {
        name_in_rows(self.rows, number)
    }
}
