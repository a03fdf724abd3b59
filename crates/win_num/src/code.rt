//! Why a call is refused.

ghost use Rattle.std.specs.Prelude.{◌≡◌};
ghost use Rattle.win_num.specs.Codes.{number_of};

/// The code of a refused call.
#[derive(Clone, Copy, Debug, PartialEq, Eq)]
pub enum Code {
    /// A Win32 error number, below 60000 (Microsoft, System Error Codes).
    Win(u16),
    /// A limit of this project is reached.
    Full,
    /// The thread, or the clock, can't make this call in its present state.
    NotNow,
    /// There is no thread that the input could reach.
    NoTarget,
}

impl Code {
    /// The number that scripts see: the error's own, or 60000, 60001 and 60002 for the last three.
    pub fn number(&self) -> u16
        ensures { result ≡ number_of self.now }
    {
        match self {
            Code::Win(number) => *number,
            Code::Full => 60000,
            Code::NotNow => 60001,
            Code::NoTarget => 60002,
        }
    }
}

/// A refusal, or want of memory.
#[derive(Clone, Copy, Debug, PartialEq, Eq)]
pub enum Fault {
    Refused(Code),
    Memory,
}
