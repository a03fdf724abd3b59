//! Sends: their kinds, how they are answered, and the frames that stand for them.

/// A send's number, from 1, or 0 for no send.
#[derive(Clone, Copy, Debug, PartialEq, Eq, PartialOrd, Ord)]
pub struct SendId(pub u32);

/// The four kinds of a send.
#[derive(Clone, Copy, Debug, PartialEq, Eq)]
pub enum Kind {
    /// The sender waits for the answer (Microsoft, SendMessage function).
    Wait,
    /// The sender waits at most `ms` milliseconds of the virtual clock; `flags` are SMTO_BLOCK,
    /// SMTO_ABORTIFHUNG and SMTO_NOTIMEOUTIFNOTHUNG (Microsoft, SendMessageTimeout function).
    Timeout { flags: u8, ms: u32 },
    /// The sender goes on (Microsoft, SendNotifyMessage function).
    Notify,
    /// The sender goes on, and its procedure `proc_no` gets `extra` and the result
    /// (Microsoft, SendMessageCallback function).
    Callback { proc_no: u32, extra: u64 },
}

/// How a send came to its answer.
#[derive(Clone, Copy, Debug, PartialEq, Eq)]
pub enum Cause {
    /// The window procedure returned.
    Proc,
    /// The procedure replied before it returned (Microsoft, ReplyMessage function).
    Reply,
    /// The window was destroyed before the send was entered.
    Loss,
    /// The sender's time was over.
    Timeout,
    /// The receiver was hung (Microsoft, SendMessageTimeout function, SMTO_ABORTIFHUNG).
    Hung,
}

/// What stands on a thread's stack of frames.
#[derive(Clone, Copy, Debug, PartialEq, Eq)]
pub enum Frame {
    /// A window procedure that runs for a send of another thread.
    Entered(SendId),
    /// A window procedure that runs for a send of its own thread.
    Inside(SendId),
    /// A window procedure that a dispatch called.
    Called,
    /// The callback procedure of a send that was answered.
    CallbackRun,
    /// A sender that waits for its answer.
    Await(SendId),
}
