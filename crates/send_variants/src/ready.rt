//! What is ready for a thread.

ghost use Rattle.std.specs.Prelude.{◌≡◌};
ghost use Rattle.send_variants.specs.Lists.{named_by};

use win_num::SendId;

/// What a thread takes next from its ready list (Microsoft, About Messages and Message Queues).
#[derive(Clone, Copy, Debug, PartialEq, Eq)]
pub enum Ready {
    /// A send that the thread is to enter.
    Send(SendId),
    /// The result of a send that the thread's callback procedure is to get.
    Result(SendId),
}

impl Ready {
    /// The send that it is about.
    pub(crate) fn send(&self) -> SendId
        ensures { result.0 ≡ named_by self.now }
    {
        match self {
            Ready::Send(send) | Ready::Result(send) => *send,
        }
    }
}
