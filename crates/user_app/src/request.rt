//! What the words ask for.

ghost use Rattle.std.specs.Prelude.{◌≡◌, ◌≢◌, ◌↔◌, ◌<◌, ◌≤◌, ℕ, IsTrue, IfSome, IsNone, List, [], ◌∷◌, map, codes, decimal};
ghost use Rattle.std.specs.String.{string_bytes};
ghost use Rattle.user_app.specs.Requests.{AskFor};

use itoa::Buffer;

/// The greatest number from which a script is made.
const MOST_MADE: u32 = 60000;

/// How many groups of threads there can be.
const MOST_GROUPS: u32 = 15;

/// How the log of a run is written.
#[derive(Clone, Copy, Debug, PartialEq, Eq)]
pub enum LogForm {
    /// Lines of words.
    Plain,
    /// Lines of JSON.
    Json,
}

/// What the words ask for.
#[derive(Clone, Copy, Debug, PartialEq, Eq)]
pub enum Request {
    /// `run` or `run --json`: a run of the script in the input, whose log is written in this form.
    Run(LogForm),
    /// `make N`: a run of the script that is made from the number, 1 to 60000.
    Make(u32),
    /// `check`: whether the log in the input is that of a run of the script before it.
    Check,
    /// `threads G`: a run of the script in the input by so many groups of threads, 1 to 15.
    Threads(u32),
    /// Nothing that the program does.
    Nothing,
}

/// Whether two texts are the same.
fn same_text(a: &[u8], b: &[u8]) -> bool
    ensures { IsTrue result ↔ (a.now ≡ b.now) }
{
    a == b
}

/// The number from 1 to the greatest one that the word is in decimal. None comes exactly where it is none.
fn number_within(word: &str, most: u32) -> Option<u32>
    ensures number { IfSome result (λ n. (0 < n) × (n ≤ most) × (word.now ≡ decimal n)) }
    ensures none { IsNone result → (n : ℕ) → 0 < n → n ≤ most → word.now ≢ decimal n }
{
    let Ok(number) = word.parse::<u32>() else {
        return None;
    };
    if number < 1 || number > most {
        return None;
    }
    let mut buffer = Buffer::new();
    if !same_text(buffer.format(number).as_bytes(), word.as_bytes()) {
        return None;
    }
    Some(number)
}

/// What one word asks for.
fn one_word(word: &str) -> Request
    ensures { (words : List (List ℕ)) → words ≡ word.now ∷ [] → AskFor words result }
{
    if same_text(word.as_bytes(), b"run") {
        return Request::Run(LogForm::Plain);
    }
    if same_text(word.as_bytes(), b"check") {
        return Request::Check;
    }
    Request::Nothing
}

/// What `run` and one more word ask for.
fn run_word(word: &str) -> Request
    ensures { (words : List (List ℕ)) → words ≡ codes "run" ∷ word.now ∷ [] → AskFor words result }
{
    if same_text(word.as_bytes(), b"--json") {
        return Request::Run(LogForm::Json);
    }
    Request::Nothing
}

/// What `make` and one more word ask for.
fn make_word(word: &str) -> Request
    ensures { (words : List (List ℕ)) → words ≡ codes "make" ∷ word.now ∷ [] → AskFor words result }
{
    match number_within(word, MOST_MADE) {
        Some(number) => Request::Make(number),
        None => Request::Nothing,
    }
}

/// What `threads` and one more word ask for.
fn threads_word(word: &str) -> Request
    ensures { (words : List (List ℕ)) → words ≡ codes "threads" ∷ word.now ∷ [] → AskFor words result }
{
    match number_within(word, MOST_GROUPS) {
        Some(groups) => Request::Threads(groups),
        None => Request::Nothing,
    }
}

/// What two words ask for.
fn two_words(first: &str, second: &str) -> Request
    ensures { (words : List (List ℕ)) → words ≡ first.now ∷ second.now ∷ [] → AskFor words result }
{
    if same_text(first.as_bytes(), b"run") {
        return run_word(second);
    }
    if same_text(first.as_bytes(), b"make") {
        return make_word(second);
    }
    if same_text(first.as_bytes(), b"threads") {
        return threads_word(second);
    }
    Request::Nothing
}

/// What the words ask for.
pub fn read_words(words: &[String]) -> Request
    ensures { AskFor (map string_bytes words.now) result }
{
    match words {
        [word] => one_word(word.as_str()),
        [first, second] => two_words(first.as_str(), second.as_str()),
        _ => Request::Nothing,
    }
}
