//! Runs in which some thread makes a message of a name, as a mark.

ghost use Rattle.std.specs.Prelude.{◌≡◌, reverse, option_copied};
ghost use Rattle.std.specs.List.{list_any};
ghost use Rattle.run_explorer.specs.Marks.{makes_message, is_marked};

use script_tree::Script;
use user_model::{Call, Entry};

/// Whether the call is a `message` of this name.
fn makes_message(script: &Script, name: &[u8], call: &Call) -> bool
    ensures { result ≡ makes_message script.now.names name.now call.now }
{
    let Call::Message(number) = call else {
        return false;
    };
    match script.names().get(*number as usize) {
        Some(known) => known.text() == name,
        None => false,
    }
}

/// Whether some call of a history is one of this name.
fn has_message(script: &Script, name: &[u8], history: &[Entry]) -> bool
    ensures { result ≡ list_any (λ e. makes_message script.now.names name.now e.call) history.now }
{
    history
        .iter()
        .any(|entry| makes_message(script, name, &entry.call))
}

/// Whether a run with this history is marked, where there is a name.
pub fn is_marked(script: &Script, name: Option<&[u8]>, history: &[Entry]) -> bool
    ensures { result ≡ is_marked script.now (option_copied name.entry) (reverse history.now) }
{
    match name {
        Some(name) => has_message(script, name, history),
        None => false,
    }
}
