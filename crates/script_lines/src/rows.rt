//! One row for each line: its first word, and what stands in its places. The word and the places of a statement
//! that makes a call are those of the call's row.

ghost use Rattle.std.specs.Prelude.{◌≡◌, ◌≤◌, length, find, option_map};
ghost use Rattle.std.specs.Str.{bytes_eq};
ghost use Rattle.script_lines.specs.Rows.{command_word, command_places, own_command, first_command, with_words, command_at};

use crate::line::Command;
use arrayvec::ArrayVec;
use call_table::{CallName, DeliveryCall, SendCall, WindowCall, call_form, call_named};
use statement_table::{
    CompoundName, Place, Places, compound_places, compound_word, field_places, statement_places,
};

/// The lines that make no one call.
static OWN_COMMANDS: [Command; 25] = [
    Command::Procedure,
    Command::Thread,
    Command::Let,
    Command::If,
    Command::Else,
    Command::While,
    Command::End,
    Command::Return,
    Command::Sleep,
    Command::Create,
    Command::Destroy,
    Command::Compound(CompoundName::ShowWindow),
    Command::Compound(CompoundName::EnableWindow),
    Command::Compound(CompoundName::SetWindowPos),
    Command::Compound(CompoundName::SetFocus),
    Command::Compound(CompoundName::SetActive),
    Command::Compound(CompoundName::SetCapture),
    Command::Compound(CompoundName::ReleaseCapture),
    Command::Compound(CompoundName::BeginPaint),
    Command::Compound(CompoundName::UpdateWindow),
    Command::Compound(CompoundName::PostAll),
    Command::Compound(CompoundName::NotifyAll),
    Command::Compound(CompoundName::Pump),
    Command::Compound(CompoundName::Dialog),
    Command::Default,
];

/// The first word of a line.
pub fn command_word(command: Command) -> &'static [u8]
    ensures { result.now ≡ command_word command }
{
    match command {
        Command::Procedure => b"proc",
        Command::Thread => b"thread",
        Command::Let => b"let",
        Command::Compute => b"let",
        Command::If => b"if",
        Command::Else => b"else",
        Command::While => b"while",
        Command::End => b"end",
        Command::Return => b"return",
        Command::Call(name) => call_form(name).word,
        Command::Sleep => b"sleep",
        Command::Create => b"create",
        Command::Destroy => b"destroy",
        Command::Compound(name) => compound_word(name),
        Command::Default => b"default",
    }
}

/// These places.
fn places_of(list: &[Place]) -> Places
    requires { length list.now ≤ 9 }
    ensures { result.items ≡ list.now }
{
    let mut places = ArrayVec::new();
    let _ = places.try_extend_from_slice(list);
    places
}

/// The places of a line after its first word.
pub fn command_places(command: Command) -> Places
    ensures { result.items ≡ command_places command }
{
    match command {
        Command::Procedure => places_of(&[Place::Beginning]),
        Command::Thread => places_of(&[]),
        Command::Let => places_of(&[Place::Letter, Place::Operand]),
        Command::Compute => places_of(&[
            Place::Letter,
            Place::Operand,
            Place::Operator,
            Place::Operand,
        ]),
        Command::If => places_of(&[Place::Operand, Place::Comparison, Place::Operand]),
        Command::Else => places_of(&[]),
        Command::While => places_of(&[Place::Operand, Place::Comparison, Place::Operand]),
        Command::End => places_of(&[]),
        Command::Return => places_of(&[Place::Operand]),
        Command::Call(name) => statement_places(name),
        Command::Sleep => places_of(&[Place::Operand]),
        Command::Create => field_places(CallName::Window(WindowCall::NewWindow)),
        Command::Destroy => places_of(&[Place::Operand]),
        Command::Compound(name) => compound_places(name),
        Command::Default => places_of(&[]),
    }
}

/// Whether a line begins with this word. Most words differ in length alone.
fn has_word(command: Command, word: &[u8]) -> bool
    ensures { result ≡ bytes_eq (command_word command) word.now }
{
    let first = command_word(command);
    first.len() == word.len() && first == word
}

/// The first of these lines that has the word.
fn command_in(all: &[Command], word: &[u8]) -> Option<Command>
    ensures { result ≡ find (λ v. bytes_eq (command_word v) word.now) all.now }
{
    for v in all {
        if has_word(*v, word) {
            return Some(*v);
        }
    }
    None
}

/// The line that begins with this word: one that makes no one call, else a statement of a call.
#[tactic(auto, unfolding(crate::specs::Rows::own_command))]
fn listed_command(word: &[u8]) -> Option<Command>
    ensures { result ≡ first_command word.now }
{
    match command_in(&OWN_COMMANDS, word) {
        Some(command) => Some(command),
        None => call_named(word).map(Command::Call),
    }
}

/// The same. The words of which long scripts mostly consist are told at once.
fn first_command(word: &[u8]) -> Option<Command>
    ensures { result ≡ first_command word.now }
{
    match word {
        b"let" => Some(Command::Let),
        b"end" => Some(Command::End),
        b"get" => Some(Command::Call(CallName::Delivery(DeliveryCall::Get))),
        b"post" => Some(Command::Call(CallName::Delivery(DeliveryCall::Post))),
        b"post_thread" => Some(Command::Call(CallName::Delivery(DeliveryCall::PostThread))),
        b"send" => Some(Command::Call(CallName::Send(SendCall::Send))),
        _ => listed_command(word),
    }
}

/// The line with this first word and so many words in all: a `let` of more than three words has two operands.
#[tactic(auto, unfolding(crate::specs::Rows::command_at))]
pub fn command_at(word: &[u8], words: usize) -> Option<Command>
    ensures { result ≡ command_at word.now words }
{
    match first_command(word) {
        Some(Command::Let) if words > 3 => Some(Command::Compute),
        found => found,
    }
}
