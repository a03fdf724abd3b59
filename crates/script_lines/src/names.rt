//! The names of a script.

ghost use Rattle.std.specs.Prelude.{◌≡◌, ◌≤◌, ◌<◌, length, None, IfOk, IfSome, option_map};
ghost use Rattle.std.specs.List.{list_all, position_from};
ghost use Rattle.std.specs.Str.{bytes_eq};
ghost use Rattle.script_lines.specs.LineReading.{place_in, new_place};
ghost use Rattle.script_lines.specs.NameLimits.{AreNames, is_small_letter, is_name_byte, is_name};

use script_tree::Name;
use std::alloc::{AllocError, Global};
use std::marker::Model;

/// How many names of classes, titles and messages a script has at most.
const NAME_LIMIT: usize = 1024;

/// How many procedures a script has at most.
const PROCEDURE_LIMIT: usize = 64;

/// Whether a byte is a lower-case letter.
fn is_small_letter(byte: u8) -> bool
    ensures { result ≡ is_small_letter byte }
{
    97 <= byte && byte <= 122
}

/// Whether a byte is a lower-case letter, a digit or `_`.
fn is_name_byte(byte: u8) -> bool
    ensures { result ≡ is_name_byte byte }
{
    is_small_letter(byte) || (48 <= byte && byte <= 57) || byte == 95
}

/// Whether all bytes are such.
fn all_name_bytes(bytes: &[u8]) -> bool
    ensures { result ≡ list_all is_name_byte bytes.now }
{
    for byte in bytes {
        if !is_name_byte(*byte) {
            return false;
        }
    }
    true
}

/// Whether a word is a name: a lower-case letter, and at most 31 letters, digits and `_`.
pub fn is_name(word: &[u8]) -> bool
    ensures { result ≡ is_name word.now }
{
    let [first, rest @ ..] = word else {
        return false;
    };
    is_small_letter(*first) && all_name_bytes(rest) && rest.len() <= 31
}

/// The place of a name.
fn place_in(names: &[Name], word: &[u8]) -> Option<usize>
    ensures found { result ≡ place_in names.now word.now }
    ensures within { IfSome result (λ place. place < length names.now) }
{
    for (place, name) in names.iter().enumerate() {
        if name.text() == word {
            return Some(place);
        }
    }
    None
}

/// Puts a name at the end.
#[tactic(auto, unfolding(crate::specs::LineReading::new_place))]
fn new_place(
    alloc: Global,
    names: &mut Vec<Name>,
    limit: usize,
    word: &[u8],
) -> Result<Option<u32>, AllocError>
    requires names { AreNames limit names.old.items }
    requires small { limit ≤ 1024 }
    requires new { place_in names.old.items word.now ≡ None }
    ensures found { IfOk result (λ found. option_map (λ k. (k, names.new.items)) found ≡ new_place limit names.old.items word.now) }
    ensures kept { AreNames limit names.new.items }
{
    if !is_name(word) || names.len() >= limit {
        return Ok(None);
    }
    let place = names.len() as u32;
    let text = word.to_vec(alloc)?;
    names.push(Name::new(text))?;
    Ok(Some(place))
}

/// The names in the lines of a script so far. Contracts see both lists.
#[derive(Drop)]
pub struct Names {
    names: Vec<Name>,
    procedures: Vec<Name>,
}

impl Model for Names {
    ghost use Rattle.script_lines.specs.Known.{Known};

    ghost Value = { Known };

    ghost view = { λ n. record { names = n.names.items; procedures = n.procedures.items } };
}

impl Names {
    ghost use Rattle.std.specs.Prelude.{[], slice_index_or};
    ghost use Rattle.script_lines.specs.Known.{nothing_known};
    ghost use Rattle.script_lines.specs.LineReading.{name_at, begun_at, procedure_at};
    ghost use Rattle.script_lines.specs.NameLimits.{AreKnown};

    /// No names.
    pub fn new(alloc: Global) -> Names
        ensures { result ≡ nothing_known }
    {
        Names {
            names: Vec::new(alloc),
            procedures: Vec::new(alloc),
        }
    }

    /// The names of classes, titles and messages, and the names of procedures.
    pub fn into_parts(self) -> (Vec<Name>, Vec<Name>)
        ensures names { result.0.items ≡ self.names }
        ensures procedures { result.1.items ≡ self.procedures }
    {
        let Names { names, procedures } = self;
        (names, procedures)
    }

    /// The name of a class, a title or a message at a place, empty where there is none.
    pub fn name_text(&self, place: u32) -> &[u8]
        ensures { result.now ≡ slice_index_or self.now.names place [] }
    {
        match self.names.get(place as usize) {
            Some(name) => name.text(),
            None => b"",
        }
    }

    /// The name of the procedure at a place, empty where there is none.
    pub fn procedure_text(&self, place: u32) -> &[u8]
        ensures { result.now ≡ slice_index_or self.now.procedures place [] }
    {
        match self.procedures.get(place as usize) {
            Some(name) => name.text(),
            None => b"",
        }
    }

    /// How many names of classes, titles and messages there are.
    pub fn name_count(&self) -> usize
        ensures { result ≡ length self.now.names }
    {
        self.names.len()
    }

    /// How many procedures have begun.
    pub fn procedure_count(&self) -> usize
        ensures { result ≡ length self.now.procedures }
    {
        self.procedures.len()
    }

    /// The place of the name of a class, a title or a message, from 0. A new one goes to the end; None comes
    /// where it is no name, or where there are 1,024 already.
    #[tactic(auto, unfolding(crate::specs::LineReading::name_at))]
    pub fn name_at(&mut self, alloc: Global, word: &[u8]) -> Result<Option<u32>, AllocError>
        requires { AreKnown self.old }
        ensures found { IfOk result (λ found. option_map (λ n. (n, self.new)) found ≡ name_at self.old word.now) }
        ensures kept { AreKnown self.new }
    {
        match place_in(&self.names, word) {
            Some(place) => Ok(Some(place as u32)),
            None => new_place(alloc, &mut self.names, NAME_LIMIT, word),
        }
    }

    /// The place of a procedure that begins, from 0: its name goes to the end. None comes where it is no name,
    /// where a procedure has it already, or where there are 64 already.
    #[tactic(auto, unfolding(crate::specs::LineReading::begun_at))]
    pub fn begun_at(&mut self, alloc: Global, word: &[u8]) -> Result<Option<u32>, AllocError>
        requires { AreKnown self.old }
        ensures found { IfOk result (λ found. option_map (λ k. (k, self.new)) found ≡ begun_at self.old word.now) }
        ensures kept { AreKnown self.new }
    {
        match place_in(&self.procedures, word) {
            Some(_) => Ok(None),
            None => new_place(alloc, &mut self.procedures, PROCEDURE_LIMIT, word),
        }
    }

    /// The place of a procedure that has begun, from 0. None comes where there is none of that name.
    #[tactic(auto, unfolding(crate::specs::LineReading::procedure_at))]
    pub fn procedure_at(&self, word: &[u8]) -> Option<u32>
        requires { AreKnown self.now }
        ensures { result ≡ procedure_at self.now word.now }
    {
        match place_in(&self.procedures, word) {
            Some(place) => Some(place as u32),
            None => None,
        }
    }
}
