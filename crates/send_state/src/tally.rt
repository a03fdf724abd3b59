//! How many sends came to what.

ghost use Rattle.std.specs.Prelude.{◌≡◌};
ghost use Rattle.send_state.specs.Tallies.{FitsNaming, FitsTally, enters_one, first_of, is_by, named_send, one_if, tallied};

use crate::state::SendState;
use user_model::{Answer, Call, Entry};
use win_num::{Cause, Frame, SendId};

/// How many sends were entered, and how many got their first answer by each cause.
#[derive(Clone, Copy, Debug, PartialEq, Eq)]
pub struct Tally {
    /// Those that were entered.
    pub entered: u32,
    /// Those that their procedure answered.
    pub by_proc: u32,
    /// Those that were replied to.
    pub by_reply: u32,
    /// Those whose window or thread went.
    pub by_loss: u32,
    /// Those that timed out.
    pub by_timeout: u32,
}

impl Tally {
    /// No send.
    pub fn new() -> Tally
        ensures { result ≡ record { entered = 0; by_proc = 0; by_reply = 0; by_loss = 0; by_timeout = 0 } }
    {
        Tally {
            entered: 0,
            by_proc: 0,
            by_reply: 0,
            by_loss: 0,
            by_timeout: 0,
        }
    }

    /// The counts after an answer: `first` is the cause by which it gave a send its first answer, and
    /// `lost` is how many sends it lost.
    pub fn with(self, answer: Answer, first: Option<Cause>, lost: u32) -> Tally
        requires { FitsTally self lost }
        ensures { result ≡ tallied answer first lost self }
    {
        Tally {
            entered: self.entered + entered_by(answer),
            by_proc: self.by_proc + count_by(first, Cause::Proc),
            by_reply: self.by_reply + count_by(first, Cause::Reply),
            by_loss: self.by_loss + lost,
            by_timeout: self.by_timeout + count_by(first, Cause::Timeout),
        }
    }
}

/// How many sends an answer enters, 0 or 1.
fn entered_by(answer: Answer) -> u32
    ensures { result ≡ one_if (enters_one answer) }
{
    match answer {
        Answer::Inside(..) | Answer::Enter { .. } => 1,
        _ => 0,
    }
}

/// 1 where a first answer came by this cause, else 0.
fn count_by(first: Option<Cause>, cause: Cause) -> u32
    ensures { result ≡ one_if (is_by cause first) }
{
    match (first, cause) {
        (Some(Cause::Proc), Cause::Proc)
        | (Some(Cause::Reply), Cause::Reply)
        | (Some(Cause::Loss), Cause::Loss)
        | (Some(Cause::Timeout | Cause::Hung), Cause::Timeout) => 1,
        _ => 0,
    }
}

/// The cause by which a send that an entry names gets its first answer: its procedure is left, it is
/// replied to, or its time is over (`None` where it had an answer, or the entry names none). To be asked
/// before the entry's change.
pub fn first_cause(sends: &SendState, named: Option<(SendId, Cause)>) -> Option<Cause>
    ensures { result ≡ first_of sends.now named }
{
    let (send, cause) = named?;
    if sends.row(send).is_some() && sends.answered(send).is_none() {
        Some(cause)
    } else {
        None
    }
}

/// The send that an entry may answer, and by which cause. To be asked before the entry's change.
pub fn named_send(sends: &SendState, entry: Entry) -> Option<(SendId, Cause)>
    requires { FitsNaming sends.now entry.who.0 entry.answer entry.call }
    ensures { result ≡ named_send sends.now entry.who.0 entry.answer entry.call }
{
    match (entry.call, entry.answer) {
        (Call::Leave(_), Answer::Left(send) | Answer::Callback { send, .. }) => {
            Some((send, Cause::Proc))
        }
        (Call::Reply(_), Answer::Value(1)) => match sends.top(entry.who)? {
            Frame::Entered(send) => Some((send, Cause::Reply)),
            _ => None,
        },
        (
            Call::Await(number),
            Answer::Done {
                cause: Cause::Timeout,
                ..
            },
        ) => { Some((SendId(number as u32), Cause::Timeout)) }
        _ => None,
    }
}
