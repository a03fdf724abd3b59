//! The words of letters, variables, operators and comparisons, both ways.

ghost use Rattle.std.specs.Prelude.{◌≡◌, find};
ghost use Rattle.std.specs.Str.{bytes_eq};
ghost use Rattle.script_lines.specs.LineReading.{letter_at, variable_at, operator_at, comparison_at};
ghost use Rattle.script_lines.specs.Words.{letter_word, variable_word, operator_word, comparison_word};

use script_tree::{Comparison, Letter, Operator, Variable};

static LETTERS: [Letter; 8] = [
    Letter::A,
    Letter::B,
    Letter::C,
    Letter::D,
    Letter::E,
    Letter::F,
    Letter::G,
    Letter::H,
];

static VARIABLES: [Variable; 19] = [
    Variable::Letter(Letter::A),
    Variable::Letter(Letter::B),
    Variable::Letter(Letter::C),
    Variable::Letter(Letter::D),
    Variable::Letter(Letter::E),
    Variable::Letter(Letter::F),
    Variable::Letter(Letter::G),
    Variable::Letter(Letter::H),
    Variable::Result,
    Variable::Error,
    Variable::GotWindow,
    Variable::GotMessage,
    Variable::GotWparam,
    Variable::GotLparam,
    Variable::GotTime,
    Variable::Window,
    Variable::Message,
    Variable::Wparam,
    Variable::Lparam,
];

static OPERATORS: [Operator; 4] = [Operator::Plus, Operator::Minus, Operator::And, Operator::Or];

static COMPARISONS: [Comparison; 3] = [Comparison::Equal, Comparison::Different, Comparison::Below];

/// The word of a letter.
pub fn letter_word(letter: Letter) -> &'static [u8]
    ensures { result.now ≡ letter_word letter }
{
    match letter {
        Letter::A => b"a",
        Letter::B => b"b",
        Letter::C => b"c",
        Letter::D => b"d",
        Letter::E => b"e",
        Letter::F => b"f",
        Letter::G => b"g",
        Letter::H => b"h",
    }
}

/// The word of a variable.
pub fn variable_word(variable: Variable) -> &'static [u8]
    ensures { result.now ≡ variable_word variable }
{
    match variable {
        Variable::Letter(letter) => letter_word(letter),
        Variable::Result => b"r",
        Variable::Error => b"err",
        Variable::GotWindow => b"ghwnd",
        Variable::GotMessage => b"gmsg",
        Variable::GotWparam => b"gwp",
        Variable::GotLparam => b"glp",
        Variable::GotTime => b"gtime",
        Variable::Window => b"hwnd",
        Variable::Message => b"msg",
        Variable::Wparam => b"wp",
        Variable::Lparam => b"lp",
    }
}

/// The word of an operator.
pub fn operator_word(operator: Operator) -> &'static [u8]
    ensures { result.now ≡ operator_word operator }
{
    match operator {
        Operator::Plus => b"+",
        Operator::Minus => b"-",
        Operator::And => b"&",
        Operator::Or => b"|",
    }
}

/// The word of a comparison.
pub fn comparison_word(comparison: Comparison) -> &'static [u8]
    ensures { result.now ≡ comparison_word comparison }
{
    match comparison {
        Comparison::Equal => b"=",
        Comparison::Different => b"!=",
        Comparison::Below => b"<",
    }
}

/// The first of these letters that has the word.
fn letter_in(all: &[Letter], word: &[u8]) -> Option<Letter>
    ensures { result ≡ find (λ v. bytes_eq (letter_word v) word.now) all.now }
{
    for v in all {
        if letter_word(*v) == word {
            return Some(*v);
        }
    }
    None
}

/// The first of these variables that has the word.
fn variable_in(all: &[Variable], word: &[u8]) -> Option<Variable>
    ensures { result ≡ find (λ v. bytes_eq (variable_word v) word.now) all.now }
{
    for v in all {
        if variable_word(*v) == word {
            return Some(*v);
        }
    }
    None
}

/// The first of these operators that has the word.
fn operator_in(all: &[Operator], word: &[u8]) -> Option<Operator>
    ensures { result ≡ find (λ v. bytes_eq (operator_word v) word.now) all.now }
{
    for v in all {
        if operator_word(*v) == word {
            return Some(*v);
        }
    }
    None
}

/// The first of these comparisons that has the word.
fn comparison_in(all: &[Comparison], word: &[u8]) -> Option<Comparison>
    ensures { result ≡ find (λ v. bytes_eq (comparison_word v) word.now) all.now }
{
    for v in all {
        if comparison_word(*v) == word {
            return Some(*v);
        }
    }
    None
}

/// The letter with this word.
#[tactic(auto, unfolding(crate::specs::LineReading::letter_at))]
pub fn letter_at(word: &[u8]) -> Option<Letter>
    ensures { result ≡ letter_at word.now }
{
    letter_in(&LETTERS, word)
}

/// The variable with this word.
#[tactic(auto, unfolding(crate::specs::LineReading::variable_at))]
pub fn variable_at(word: &[u8]) -> Option<Variable>
    ensures { result ≡ variable_at word.now }
{
    variable_in(&VARIABLES, word)
}

/// The operator with this word.
#[tactic(auto, unfolding(crate::specs::LineReading::operator_at))]
pub fn operator_at(word: &[u8]) -> Option<Operator>
    ensures { result ≡ operator_at word.now }
{
    operator_in(&OPERATORS, word)
}

/// The comparison with this word.
#[tactic(auto, unfolding(crate::specs::LineReading::comparison_at))]
pub fn comparison_at(word: &[u8]) -> Option<Comparison>
    ensures { result ≡ comparison_at word.now }
{
    comparison_in(&COMPARISONS, word)
}
