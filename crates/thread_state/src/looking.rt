//! Which calls are looks at a queue.

ghost use Rattle.std.specs.Prelude.{◌≡◌};
ghost use Rattle.user_model.specs.Past.{is_refusal};
ghost use Rattle.user_model.specs.Status.{is_look};

use user_model::{Answer, Call};

/// Whether the call is a look at what is there: a get, a peek or a status (Microsoft, GetQueueStatus function).
pub fn is_look(call: Call) -> bool
    ensures { result ≡ is_look call }
{
    match call {
        Call::Get(..) => true,
        Call::Peek(..) => true,
        Call::Status(_) => true,
        _ => false,
    }
}

/// Whether the answer is a refusal: nothing changed, and nobody has looked.
pub fn is_refusal(answer: Answer) -> bool
    ensures { result ≡ is_refusal answer }
{
    matches!(answer, Answer::Refused(_))
}
