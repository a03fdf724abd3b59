//! The two parts of the input of a check: a script, and a log behind it.

ghost use Rattle.std.specs.Prelude.{◌≡◌, ◌≤◌, ◌&&◌, ◌++◌, length, take, drop};
ghost use Rattle.user_app.specs.Parts.{begins_log, script_part, log_part};

/// Whether a text begins with the word `log`, and a blank or the end of a line or of the text behind it.
fn begins_log(text: &[u8]) -> bool
    ensures { result ≡ begins_log text.now }
{
    matches!(
        text,
        [b'l', b'o', b'g'] | [b'l', b'o', b'g', b' ' | b'\n', ..]
    )
}

/// Whether the log begins here, where a line begins here or not.
fn starts_log(starts: bool, text: &[u8]) -> bool
    ensures { result ≡ (starts && begins_log text.now) }
{
    starts && begins_log(text)
}

/// The place of the first line that begins with the word `log`; the end of the text where none does.
fn log_place(text: &[u8]) -> usize
    ensures within { result ≤ length text.now }
    ensures front { take result text.now ≡ script_part text.now }
    ensures back { drop result text.now ≡ log_part text.now }
{
    let mut starts = true;
    for place in 0..text.len() {
        if starts_log(starts, &text[place..]) {
            return place;
        }
        starts = text[place] == b'\n';
    }
    text.len()
}

/// What stands before the first line that begins with the word `log`, and what stands from there on.
pub fn split_input(text: &[u8]) -> (&[u8], &[u8])
    ensures front { result.0.now ≡ script_part text.now }
    ensures back { result.1.now ≡ log_part text.now }
    ensures whole { text.now ≡ script_part text.now ++ log_part text.now }
{
    text.split_at(log_place(text))
}
