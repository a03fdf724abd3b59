//! What the registration of a message answers.

ghost use Rattle.std.specs.Prelude.{◌≡◌};
ghost use Rattle.user_model.specs.ReplyWindows.{message_reply};

use core_state::CoreState;
use user_model::Answer;
use win_num::Code;

/// The number of the first registered message (Microsoft, RegisterWindowMessage function).
const FIRST_MESSAGE: u64 = 49152;

/// The number of a registered message, or for a new name the next one.
pub fn message_answer(state: &CoreState, name: u32) -> Answer
    ensures { result ≡ message_reply state.now.past name }
{
    if let Some(number) = state.message_number(name) {
        return Answer::Value(u64::from(number));
    }
    if state.messages_are_full() {
        return Answer::Refused(Code::Full);
    }
    Answer::Value(FIRST_MESSAGE + state.message_count() as u64)
}
