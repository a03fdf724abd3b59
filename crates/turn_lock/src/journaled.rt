//! A state whose calls stand in a journal.
ghost use Rattle.std.specs.Prelude.{◌≡◌, ℕ, Bool, List, [], ◌∷◌, ◌++◌, IfOk, OnErr, MatchBool};

use std::alloc::AllocError;

/// A state with a history of calls and answers, oldest first, and a setting that no step changes.
/// What it answers where no step is made is a function of its setting, its history and the call.
pub trait Journaled {
    /// A call, as it stands in the history.
    type Call: Drop;
    /// What a call is answered.
    type Answer;
    /// What stays the same for as long as the state lives.
    type Setting;

    /// The calls with their answers, oldest first.
    ghost history: { Self → List (Self.Call × Self.Answer) };

    ghost setting: { Self → Self.Setting };
    /// Whether a history may arise under a setting.
    ghost lawful: { Self.Setting → List (Self.Call × Self.Answer) → Type 0 };
    /// The number of the seat that may make a call.
    ghost number: { Self.Call → ℕ };
    /// Whether a history takes no more entries.
    ghost is_full: { Self.Setting → List (Self.Call × Self.Answer) → Bool };
    /// Whether a call has to wait.
    ghost is_barred: { Self.Setting → List (Self.Call × Self.Answer) → Self.Call → Bool };
    /// What a call is answered where the history is full.
    ghost refusal: { Self.Setting → List (Self.Call × Self.Answer) → Self.Call → Self.Answer };

    /// Whether the history takes no more entries.
    fn full(&self) -> bool
        ensures { result ≡ is_full (setting self.now) (history self.now) };

    /// Makes a call. It adds its entry to the history where the history isn't full.
    /// Where it is full, and where memory ran out, the history stays.
    fn step(&mut self, call: Self::Call) -> Result<Self::Answer, AllocError>
        ensures setting { setting self.new ≡ setting self.old }
        ensures lawful { lawful (setting self.old) (history self.old) → lawful (setting self.new) (history self.new) }
        ensures answered { IfOk result (λ a. MatchBool (is_full (setting self.old) (history self.old))
            ((history self.new ≡ history self.old) × (a ≡ refusal (setting self.old) (history self.old) call))
            (history self.new ≡ history self.old ++ (call, a) ∷ [])) }
        ensures no_memory { OnErr result (history self.new ≡ history self.old) };

    /// Whether the call has to wait for another one.
    fn barred(&self, call: &Self::Call) -> bool
        ensures { result ≡ is_barred (setting self.now) (history self.now) call.now };

    /// A beginning of a lawful history is lawful.
    ghost beginning: { (rules : Self.Setting) (early late : List (Self.Call × Self.Answer)) → lawful rules (early ++ late) → lawful rules early };
}
