//! What answers give.

ghost use Rattle.std.specs.Prelude.{◌≡◌};
ghost use Rattle.script_tree.specs.Steps.{result_of as result_by};

use user_model::Answer;

/// The result that an answer hands on, and 0 where it has none.
pub fn result_of(answer: &Answer) -> u64
    ensures { result ≡ result_by answer.now }
{
    match answer {
        Answer::Value(value) => *value,
        Answer::Done { result, .. } => *result,
        Answer::Okay | Answer::Ended | Answer::Nothing | Answer::Wait => 0,
        Answer::Running | Answer::Finished(_) => 0,
        Answer::Stuck | Answer::Gone | Answer::Window(_) | Answer::Was(_) => 0,
        Answer::Posted(_) | Answer::Input(_) => 0,
        Answer::Called(_) | Answer::Inside(_, _) | Answer::Begun(_) | Answer::Left(_) => 0,
        Answer::Tell(_) | Answer::Last(_) | Answer::Advanced(_) | Answer::Busy(_) => 0,
        Answer::Update { .. } | Answer::Painting { .. } | Answer::Snap(_) => 0,
        Answer::Enter { .. } | Answer::Callback { .. } => 0,
        Answer::Got { .. } | Answer::Refused(_) => 0,
    }
}
