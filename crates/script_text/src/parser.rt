//! The script that a text spells: its lines are read one by one, and the numbers of its head are taken from the lines
//! that were found good.

ghost use Rattle.std.specs.Prelude.{◌≡◌, ◌≤◌, ◌<◌, ◌++◌, ◌∷◌, [], ℕ, List, None, IfOk, IfSome, IfNone, drop, length, map};
ghost use Rattle.std.specs.List.{zip};
ghost use Rattle.script_text.specs.Grammar.{IsWhole};
ghost use Rattle.script_text.specs.Limits.{IsScript};
ghost use Rattle.script_text.specs.Lines.{procedure_of};
ghost use Rattle.script_text.specs.Programs.{IsHeadOf, tree_at};
ghost use Rattle.script_lines.specs.LineReading.{split_at, word_at};
ghost use Rattle.script_text.specs.Reading.{small_number_at};
ghost use Rattle.script_text.specs.Spelling.{spelling};

use crate::first_line::first_line;
use crate::reading::{Program, Reading};
use script_lines::{NameTables, number_at, split_at, word_at};
use script_tree::{Body, Name, Procedure, Script};
use std::alloc::{AllocError, Global};

/// A number, or the greatest that may stand there where it is too large.
fn small_number_at(most: u64, word: &[u8]) -> u64
    ensures { result ≡ small_number_at most word.now }
{
    number_at(word).min(most)
}

/// Small numbers, one for each word.
fn small_numbers(alloc: Global, words: &[&[u8]]) -> Result<Vec<u8>, AllocError>
    ensures { IfOk result (λ v. v.items ≡ map (small_number_at 255) (map (λ w. w.now) words.now)) }
{
    let mut numbers = Vec::new(alloc);
    for word in words {
        numbers.push(small_number_at(255, word) as u8)?;
    }
    Ok(numbers)
}

/// The lines of a text's head that tell numbers: the screen, the budget and the order list.
#[derive(Drop)]
struct Head<'a> {
    screen: &'a [u8],
    budget: &'a [u8],
    order: &'a [u8],
}

/// The head of a text. None comes only where it has fewer lines.
fn head_of(bytes: &[u8]) -> Option<Head<'_>>
    ensures head { IfSome result (λ head. (texts : List (List ℕ)) → split_at 10 bytes.now ≡ texts ++ [] ∷ [] → IsHeadOf texts head) }
    ensures none { IfNone result (length (split_at 10 bytes.now) < 5) }
{
    let (_, rest) = first_line(bytes)?;
    let (screen, rest) = first_line(rest)?;
    let (budget, rest) = first_line(rest)?;
    let (order, _) = first_line(rest)?;
    Some(Head {
        screen,
        budget,
        order,
    })
}

/// The width and the height of the screen.
fn screen_of(alloc: Global, line: &[u8]) -> Result<(u16, u16), AllocError>
    ensures width { IfOk result (λ screen. screen.0 ≡ small_number_at 65535 (word_at (split_at 32 line.now) 1)) }
    ensures height { IfOk result (λ screen. screen.1 ≡ small_number_at 65535 (word_at (split_at 32 line.now) 2)) }
{
    let words = split_at(alloc, line, b' ')?;
    let width = small_number_at(65535, word_at(&words, 1));
    let height = small_number_at(65535, word_at(&words, 2));
    Ok((width as u16, height as u16))
}

/// The budget.
fn budget_of(alloc: Global, line: &[u8]) -> Result<u32, AllocError>
    ensures { IfOk result (λ budget. budget ≡ small_number_at 4294967295 (word_at (split_at 32 line.now) 1)) }
{
    let words = split_at(alloc, line, b' ')?;
    let budget = small_number_at(4294967295, word_at(&words, 1));
    Ok(budget as u32)
}

/// The order list.
fn order_of(alloc: Global, line: &[u8]) -> Result<Vec<u8>, AllocError>
    ensures { IfOk result (λ order. order.items ≡ map (small_number_at 255) (drop 1 (split_at 32 line.now))) }
{
    let words = split_at(alloc, line, b' ')?;
    let [_, turns @ ..] = words.as_slice() else {
        return Ok(Vec::new(alloc));
    };
    small_numbers(alloc, turns)
}

/// Procedures of these names and bodies.
fn procedures_of(
    alloc: Global,
    procedure_names: Vec<Name>,
    bodies: Vec<Body>,
) -> Result<Vec<Procedure>, AllocError>
    ensures { IfOk result (λ v. v.items ≡ map procedure_of (zip procedure_names.items bodies.items)) }
{
    procedure_names
        .into_iter()
        .zip(bodies)
        .map(|(name, body)| Procedure::new(name, body))
        .collect(alloc)
}

/// The script with this program whose text has this head.
fn script_of(alloc: Global, head: &Head, program: Program) -> Result<Script, AllocError>
    ensures { IfOk result (λ s. (texts : List (List ℕ)) → IsHeadOf texts head.now → s ≡ tree_at texts program) }
{
    let (width, height) = screen_of(alloc, head.screen)?;
    let budget = budget_of(alloc, head.budget)?;
    let order = order_of(alloc, head.order)?;
    let Program {
        names,
        procedure_names,
        bodies,
    } = program;
    let procedures = procedures_of(alloc, procedure_names, bodies.procedures)?;
    let threads = bodies.threads;
    Ok(Script::new(width, height, budget, order, names, procedures, threads))
}

/// The script whose text the bytes are. None comes exactly where no script has this text, however long.
pub fn parse(alloc: Global, tables: &NameTables, bytes: &[u8]) -> Result<Option<Script>, AllocError>
    requires short { length bytes.now ≤ 1048576 }
    ensures script { IfOk result (λ found. IfSome found IsScript) }
    ensures text { IfOk result (λ found. IfSome found (λ s. bytes.now ≡ spelling s)) }
    ensures none { IfOk result (λ found. found ≡ None → IsWhole bytes.now → ⊥) }
{
    let mut reading = Reading::new(alloc);
    if !reading.take_all(alloc, tables, bytes)? {
        return Ok(None);
    }
    let Some(head) = head_of(bytes) else {
        return Ok(None);
    };
    let Some(program) = reading.into_program() else {
        return Ok(None);
    };
    Ok(Some(script_of(alloc, &head, program)?))
}
