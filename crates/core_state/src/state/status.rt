//! Which kinds of messages are there for a thread, and which came since it looked last.

ghost use Rattle.std.specs.Prelude.{◌≡◌, ℕ, ◌==◌, ◌&&◌, ◌<◌, ◌≤◌, [], IfOk};
ghost use Rattle.user_model.specs.Past.{Past};
ghost use Rattle.user_model.specs.Since.{has_due_after, has_input_above};
ghost use Rattle.user_model.specs.Status.{bits_since, has_paint, has_post, has_send, last_look};
ghost use Rattle.core_state.specs.Inputs.{taker_in};
ghost use Rattle.core_state.specs.Status.{IsBefore, is_of_kind};

use super::CoreState;
use crate::kinds::{Found, InputKind};
use input_queue::Element;
use look_state::{Look, has_new_pixel};
use std::alloc::AllocError;
use timer_state::has_due_after;
use win_num::Thread;

impl CoreState {
    /// Whether there is input of a kind that a thread would take now, wherever it stands, with a number above this.
    fn has_input(&self, thread: u8, kind: InputKind, number: u32) -> bool
        ensures { result ≡ has_input_above (is_of_kind kind) self.now.setup self.now.past thread number }
    {
        let counts = |element: &Element| -> bool
            ensures { result ≡ (is_of_kind kind element.now.message && ((taker_in self.entry.now.setup self.entry.now.past element.now).0 == thread)) }
        { kind.has(element.message) && self.taker(element).0 == thread };
        self.untaken().has_above(number, counts)
    }

    /// Whether a message or quit is posted to a thread. No message is read.
    fn has_post(&self, thread: u8) -> bool
        requires some { 0 < thread }
        requires known { thread ≤ self.now.setup.threads }
        ensures { result ≡ has_post self.now.past thread [] }
    {
        self.threads[usize::from(thread - 1)].has_post()
    }

    /// Whether a message or quit is posted to a thread that came since it looked last. No message is read.
    fn has_new_post(&self, thread: u8) -> bool
        requires some { 0 < thread }
        requires known { thread ≤ self.now.setup.threads }
        ensures { result ≡ has_post self.now.past thread (last_look self.now.past thread) }
    {
        self.threads[usize::from(thread - 1)].has_new_post()
    }

    /// Whether a timer of a thread is due, and later than a time in milliseconds of the clock.
    fn has_due_after(&self, thread: u8, time: u64) -> bool
        ensures { result ≡ has_due_after self.now.past thread time }
    {
        has_due_after(&self.timers, Thread(thread), time, self.progress.time)
    }

    /// Whether a send to a thread or a result for it is ready.
    fn has_send(&self, thread: u8) -> bool
        requires some { 0 < thread }
        requires known { thread ≤ self.now.setup.threads }
        ensures { result ≡ has_send self.now.past thread [] }
    {
        self.sends.has_some(Thread(thread))
    }

    /// Whether a send to a thread or a result for it is ready that came since its last look.
    fn has_new_send(&self, thread: u8) -> bool
        requires some { 0 < thread }
        requires known { thread ≤ self.now.setup.threads }
        ensures { result ≡ has_send self.now.past thread (last_look self.now.past thread) }
    {
        self.sends.has_new(Thread(thread))
    }

    /// Whether a pixel of a window of a thread is dirty that wasn't at a look. Want of memory is the only error.
    fn has_new_pixel(&self, thread: u8, look: &Look) -> Result<bool, AllocError>
        requires some { 0 < thread }
        ensures { IfOk result (λ b. (h : Past) → IsBefore self.now.setup self.now.past h thread look.now → b ≡ has_paint self.now.setup self.now.past thread h) }
    {
        let alloc = *self.history.allocator();
        let dirty = self.display.screen().dirty();
        let is_new = has_new_pixel(alloc, &self.tree, dirty, look.seen(), Thread(thread))?;
        Ok(is_new)
    }

    /// The bits of what came to a thread since a look, where it is known whether a message or quit was posted since (`posted`), and
    /// whether a send or a result became ready (`sent`) (Microsoft, GetQueueStatus function). Want of memory is the only error.
    fn bits_since(
        &self,
        thread: u8,
        look: &Look,
        posted: bool,
        sent: bool,
    ) -> Result<u64, AllocError>
        requires some { 0 < thread }
        requires known { thread ≤ self.now.setup.threads }
        ensures bits { IfOk result (λ bits. (h : Past) → IsBefore self.now.setup self.now.past h thread look.now → posted ≡ has_post self.now.past thread h → sent ≡ has_send self.now.past thread h → bits ≡ bits_since self.now.setup self.now.past thread h) }
        ensures most { IfOk result (λ bits. bits ≤ 127) }
    {
        let paint = self.has_new_pixel(thread, look)?;
        let at = look.at();
        let key = self.has_input(thread, InputKind::Key, at.inputs);
        let moved = self.has_input(thread, InputKind::Move, at.inputs);
        let button = self.has_input(thread, InputKind::Button, at.inputs);
        let timer = self.has_due_after(thread, at.time);
        let found = Found {
            key,
            moved,
            button,
            posted,
            timer,
            paint,
            sent,
        };
        Ok(found.bits())
    }

    /// The bits of all that is there for a thread, 0 to 127. Want of memory is the only error.
    pub fn bits_now(&self, thread: u8) -> Result<u64, AllocError>
        requires some { 0 < thread }
        requires known { thread ≤ self.now.setup.threads }
        ensures bits { IfOk result (λ bits. bits ≡ bits_since self.now.setup self.now.past thread []) }
        ensures most { IfOk result (λ bits. bits ≤ 127) }
    {
        let start = Look::new(*self.history.allocator());
        let posted = self.has_post(thread);
        let sent = self.has_send(thread);
        let bits = self.bits_since(thread, &start, posted, sent)?;
        Ok(bits)
    }

    /// The bits of what is there for a thread and came since it looked last, 0 to 127. Want of memory is the only error.
    pub fn bits_since_look(&self, thread: u8) -> Result<u64, AllocError>
        requires some { 0 < thread }
        requires known { thread ≤ self.now.setup.threads }
        ensures bits { IfOk result (λ bits. bits ≡ bits_since self.now.setup self.now.past thread (last_look self.now.past thread)) }
        ensures most { IfOk result (λ bits. bits ≤ 127) }
    {
        let posted = self.has_new_post(thread);
        let sent = self.has_new_send(thread);
        let bits = self.bits_since(thread, self.looks.of(thread), posted, sent)?;
        Ok(bits)
    }
}
