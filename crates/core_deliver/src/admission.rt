//! What keeps an actor from its call before the call is looked at.

ghost use Rattle.std.specs.Prelude.{◌≡◌};
ghost use Rattle.core_deliver.specs.Admission.{admission};
ghost use Rattle.user_model.specs.Replies.{is_barred_by};

use core_state::CoreState;
use user_model::Call;
use win_num::{Code, Frame, Thread};

/// Whether the top of the stack forbids the call: a wait allows only its own, to leave needs a procedure,
/// and a thread ends with an empty stack.
fn is_barred_by(call: &Call, top: Option<Frame>) -> bool
    ensures { result ≡ is_barred_by call.now top }
{
    match top {
        Some(Frame::Await(send)) => match *call {
            Call::Await(awaited) => u64::from(send.0) != awaited,
            _ => true,
        },
        Some(_) => matches!(call, Call::Await(_) | Call::EndThread),
        None => matches!(call, Call::Await(_) | Call::Leave(_)),
    }
}

/// What keeps a thread from any call, before its arguments are looked at: `Full` where the history is
/// full, else `NotNow` where it is no running thread or its stack forbids the call.
#[inline(always)]
pub fn admit(state: &CoreState, who: Thread, call: &Call) -> Option<Code>
    ensures { result ≡ admission state.now.setup state.now.past who.0 call.now }
{
    if state.is_full() {
        return Some(Code::Full);
    }
    if !state.is_running(u64::from(who.0)) {
        return Some(Code::NotNow);
    }
    if is_barred_by(call, state.top(who.0)) {
        return Some(Code::NotNow);
    }
    None
}
