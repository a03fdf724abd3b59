//! How a run ends.

ghost use Rattle.std.specs.Prelude.{◌≡◌};
ghost use Rattle.log_text.specs.Endings.{end_word};

/// How a run ended.
#[derive(Clone, Copy, Debug, PartialEq, Eq)]
pub enum End {
    /// All threads have ended.
    Done,
    /// Some thread has not ended, and nothing can go on.
    Stuck,
    /// Some thread could go on, and each such thread has used up its budget of entries.
    Spent,
    /// None of these: the run could go on.
    Cut,
}

/// The word of an end.
pub fn end_word(end: End) -> &'static str
    ensures { result.now ≡ end_word end }
{
    match end {
        End::Done => "done",
        End::Stuck => "stuck",
        End::Spent => "spent",
        End::Cut => "cut",
    }
}
