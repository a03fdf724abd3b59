//! What a status of a queue answers.

ghost use Rattle.std.specs.Prelude.{◌≡◌, ◌<◌, ◌≤◌, IfOk};
ghost use Rattle.user_model.specs.ReplyDelivery.{status_reply};

use crate::codes::INVALID_PARAMETER;
use core_state::CoreState;
use std::alloc::AllocError;
use user_model::Answer;

/// The flags that there are: one for each kind of message.
const ALL_KINDS: u64 = 127;

/// What the high word of the answer is counted in.
const HIGH_WORD: u64 = 65536;

/// The answer to a thread that asks for the kinds with these flags: in the high word those that are there, in the low word those that
/// came since it looked last (Microsoft, GetQueueStatus function). Error 87 comes where a flag stands for no kind. Want of memory is the
/// only other error.
pub fn queue_status(state: &CoreState, who: u8, flags: u64) -> Result<Answer, AllocError>
    requires some { 0 < who }
    requires known { who ≤ state.now.setup.threads }
    ensures { IfOk result (λ answer. answer ≡ status_reply state.now.setup state.now.past who flags) }
{
    if flags > ALL_KINDS {
        return Ok(Answer::Refused(INVALID_PARAMETER));
    }
    let now = state.bits_now(who)?;
    let new = state.bits_since_look(who)?;
    Ok(Answer::Value(HIGH_WORD * (now & flags) + (new & flags)))
}
