//! The words of sources, causes and codes.

ghost use Rattle.std.specs.Prelude.{◌≡◌, option_map};
ghost use Rattle.call_fields.specs.Words.{cause_word, code_word, source_word};

use user_model::Origin;
use win_num::{Cause, Code};

/// The word of a message's source.
pub fn source_word(source: Origin) -> &'static [u8]
    ensures { result.now ≡ source_word source }
{
    match source {
        Origin::Posted => b"posted",
        Origin::Quit => b"quit",
        Origin::Input => b"input",
        Origin::Paint => b"paint",
        Origin::Timer => b"timer",
    }
}

/// The word of a cause.
pub fn cause_word(cause: Cause) -> &'static [u8]
    ensures { result.now ≡ cause_word cause }
{
    match cause {
        Cause::Proc => b"proc",
        Cause::Reply => b"reply",
        Cause::Loss => b"loss",
        Cause::Timeout => b"timeout",
        Cause::Hung => b"hung",
    }
}

/// The word of a code. None comes where it is a number of Windows.
pub fn code_word(code: Code) -> Option<&'static [u8]>
    ensures { option_map (λ w. w.now) result ≡ code_word code }
{
    match code {
        Code::Win(_) => None,
        Code::Full => Some(b"full"),
        Code::NotNow => Some(b"not_now"),
        Code::NoTarget => Some(b"no_target"),
    }
}
