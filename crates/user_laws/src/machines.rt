//! What the laws speak of, told of a given machine.

ghost use Rattle.std.specs.Prelude.{◌≡◌, ◌<◌, ℕ, Some, None, IfSome, if◌then◌else◌};
ghost use Rattle.user_model.specs.Stories.{send_story};
ghost use Rattle.user_model.specs.Counts.{send_count};
ghost use Rattle.user_model.specs.Idle.{have_all_ended};
ghost use Rattle.user_model.specs.SendStories.{IsSendStory, IsSettled};

use user_core::{SendStory, User};
use user_model::{Machine, SendCount};
use win_num::SendId;

/// Where a send was entered, and where and by which cause it got its first answer, by the places of the
/// history's entries from 0 on; all `None` where there is no send of the number. A send is entered at most
/// once, and before its answer (Microsoft, SendMessage and SendMessageTimeout functions).
pub fn send_law(u: &User, s: SendId) -> SendStory
    ensures told { result ≡ send_story u.now.past s.0 }
    ensures law { IsSendStory u.now.past s.0 }
    ensures entered_first { (p q : ℕ) → result.entered_at ≡ Some p → result.answered_at ≡ Some q → p < q }
{
    // A machine's history is legal, of which the law speaks.
    let _legal = u.legal_history();
    u.send_story(s)
}

/// How many sends came to what, where all threads have ended; else `None`. Each send that was begun was
/// then answered by its procedure, by a reply, by loss or by time, and none is unfinished.
pub fn sum_law(u: &User) -> Option<SendCount>
    ensures counts { result ≡ if have_all_ended u.now.setup u.now.past then Some (send_count u.now.past) else None }
    ensures settled { IfSome result (λ count. IsSettled u.now.past count) }
{
    // A machine's history is legal, of which the law speaks.
    let _legal = u.legal_history();
    if u.have_all_ended() {
        Some(u.send_count())
    } else {
        None
    }
}
