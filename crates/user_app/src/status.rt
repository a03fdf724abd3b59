//! How the program ends.

ghost use Rattle.std.specs.Prelude.{◌≡◌, ◌≢◌};
ghost use Rattle.user_app.specs.Statuses.{number_of, status_of, written_status};

use log_text::{End, WriteFault};

/// How the program ends.
#[derive(Clone, Copy, Debug, PartialEq, Eq)]
pub enum Status {
    /// All threads have ended.
    Done,
    /// The words ask for nothing that the program does; nothing was read or written.
    Words,
    /// The input is no script.
    Script,
    /// Some thread hasn't ended, and nothing can go on.
    Stuck,
    /// Some thread could go on, and each such thread has used up its budget.
    Spent,
    /// The log isn't that of a run of the script.
    Illegal,
    /// The source failed.
    ReadFault,
    /// The sink failed.
    WriteFault,
    /// No memory was left.
    Memory,
    /// The words ask for what another call does; nothing was read or written.
    WrongCall,
}

impl Status {
    /// The exit status of the process, 0 to 10.
    pub fn number(&self) -> u8
        ensures { result ≡ number_of self.now }
    {
        match self {
            Status::Done => 0,
            Status::Words => 2,
            Status::Script => 3,
            Status::Stuck => 4,
            Status::Spent => 5,
            Status::Illegal => 6,
            Status::ReadFault => 7,
            Status::WriteFault => 8,
            Status::Memory => 9,
            Status::WrongCall => 10,
        }
    }
}

/// The status of a run that is over, and whose text was written.
fn end_status(end: End) -> Status
    requires { end ≢ End.Cut }
    ensures { result ≡ status_of end }
{
    match end {
        End::Done => Status::Done,
        End::Stuck => Status::Stuck,
        End::Spent => Status::Spent,
        End::Cut => unreachable!(),
    }
}

/// The status of a run whose text was written, as far as that went.
pub fn written_status(outcome: Result<(), WriteFault>, end: End) -> Status
    requires { end ≢ End.Cut }
    ensures { result ≡ written_status outcome end }
{
    match outcome {
        Ok(()) => end_status(end),
        Err(WriteFault::Write) => Status::WriteFault,
        Err(WriteFault::Memory) => Status::Memory,
    }
}
