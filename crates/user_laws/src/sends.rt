//! Laws of sends and of the stacks of threads. Each is a function that does nothing; its contract is the
//! law.

ghost use Rattle.std.specs.Prelude.{◌≡◌, ℕ, true, false, ◌&&◌, nat_lt, nat_le, List, ◌∷◌, ◌++◌, length, Some, is_some};
ghost use Rattle.user_model.specs.declared.call.Call.TheVariants.{Leave};
ghost use Rattle.user_model.specs.declared.entry.Entry.{Entry};
ghost use Rattle.user_model.specs.declared.entry.Setup.{Setup};
ghost use Rattle.user_model.specs.Past.{is_refused};
ghost use Rattle.user_model.specs.Legal.{IsLawful};
ghost use Rattle.user_model.specs.Sends.{Outcome, sends, send, answer};
ghost use Rattle.user_model.specs.Stacks.{stack};
ghost use Rattle.user_model.specs.Counts.{send_count};
ghost use Rattle.user_model.specs.Idle.{have_all_ended};
ghost use Rattle.user_model.specs.SendStories.{IsSendStory, IsStackStory, IsStackStep, IsLeaving, IsAwaitDone, IsSettled, IsLimited, ends_await};

/// There is a send of each number from 1 to the count of sends, and of no other number.
pub fn sends_are_numbered()
    ensures { (setup : Setup) (past : List Entry) → IsLawful setup past → (s : ℕ) → is_some (send past s) ≡ (nat_lt 0 s && nat_le s (length (sends past))) }
{}

/// A send's answer, once there, stays the same, whatever comes later.
pub fn answers_stay()
    ensures { (newer past : List Entry) (s : ℕ) (o : Outcome) → answer past s ≡ Some o → answer (newer ++ past) s ≡ Some o }
{}

/// Each send is entered at most once, and never after its answer; its answer is handed on at most once,
/// at or after its own place and with its result (Microsoft, SendMessage, ReplyMessage and
/// SendMessageCallback functions).
pub fn sends_keep_their_order()
    ensures { (setup : Setup) (past : List Entry) → IsLawful setup past → (s : ℕ) → IsSendStory past s }
{}

/// A thread's stack follows from the thread's own entries; its frames name each send at most once a
/// kind, an entered send on its receiver's stack, an awaited one on its sender's.
pub fn stacks_are_in_order()
    ensures { (setup : Setup) (past : List Entry) → IsLawful setup past → (t : ℕ) → IsStackStory past t }
{}

/// An entry changes a thread's stack at its top alone: it pushes one frame, pops one, or puts a callback's
/// frame in the place of one.
pub fn stacks_change_at_the_top()
    ensures { (setup : Setup) (past : List Entry) (e : Entry) (t : ℕ) → IsLawful setup (e ∷ past) → IsStackStep (stack past t) (stack (e ∷ past) t) }
{}

/// Each `leave` pops the procedure's frame that its thread pushed last, and names its send; the callback
/// of a send to an own window stands in its place.
pub fn leaves_pop_their_frames()
    ensures { (setup : Setup) (past : List Entry) (e : Entry) (v : ℕ) → IsLawful setup (e ∷ past) → is_refused e ≡ false → e.call ≡ Leave v → IsLeaving past e }
{}

/// Each await that is done pops the frame of its send, which its thread pushed last.
pub fn awaits_pop_their_frames()
    ensures { (setup : Setup) (past : List Entry) (e : Entry) (s : ℕ) → IsLawful setup (e ∷ past) → ends_await e.call e.answer s ≡ true → IsAwaitDone past e s }
{}

/// Where all threads have ended, each send that was begun was answered, by its procedure, by a reply, by
/// the loss of its window or by the end of its time, and none is unfinished.
pub fn all_sends_come_to_an_end()
    ensures { (setup : Setup) (past : List Entry) → IsLawful setup past → have_all_ended setup past ≡ true → IsSettled past (send_count past) }
{}

/// Each stack has at most 64 frames, and at most 1,024 sends are unfinished.
pub fn frames_and_sends_are_few()
    ensures { (setup : Setup) (past : List Entry) → IsLawful setup past → IsLimited past }
{}
