//! The history, and the parts that stand for it.

ghost use Rattle.std.specs.Prelude.{◌≡◌, ◌==◌, ◌<◌, ◌≤◌, ◌+◌, ◌&&◌, option_copied, vec_capacity, vec_len, [], ◌∷◌, length, map, nat_le, reverse, All, true, false, IfOk, IfSome, IsOk, OnOk, OnErr, Some, is_some, option_and_then, option_map};
ghost use Rattle.win_num.specs.Clocks.{clock_limit};
ghost use Rattle.user_model.specs.Legal.{IsLegal};
ghost use Rattle.user_model.specs.Past.{is_full};
ghost use Rattle.user_model.specs.Places.{clock, cursor, has_ended};
ghost use Rattle.user_model.specs.Posts.{first_post, passes, posted, quit};
ghost use Rattle.user_model.specs.ReplyDelivery.{next_post_number};
ghost use Rattle.user_model.specs.ReplyWindows.{changes_told, child_told, next_window, next_top_reply};
ghost use Rattle.user_model.specs.Setups.{IsSetup, post_limit};
ghost use Rattle.user_model.specs.Threads.{is_running, is_thread};
ghost use Rattle.user_model.specs.Stacks.{has_room, top};
ghost use Rattle.user_model.specs.Sends.{SentMsg, answer, send, unfinished};
ghost use Rattle.user_model.specs.Next.{next_ready};
ghost use Rattle.user_model.specs.Counts.{send_count};
ghost use Rattle.user_model.specs.ReplySends.{blocks, deadline, next_send_number};
ghost use Rattle.send_state.specs.Standing.{as_told, row_of};
ghost use Rattle.user_model.specs.Stories.{send_story};
ghost use Rattle.core_state.specs.Frames.{IsOnTop, wait_end};
ghost use Rattle.core_state.specs.OnePlace.{takes_one_place};
ghost use Rattle.user_model.specs.Windows.{live, window, is_live, parent_in, thread_of, up};
ghost use Rattle.user_model.specs.Looks.{look, placed, style_of, is_disabled, is_shown};
ghost use Rattle.user_model.specs.Focus.{foreground, value_of};
ghost use Rattle.user_model.specs.Groups.{are_attached, is_in_group};
ghost use Rattle.group_state.specs.GroupTables.{named};
ghost use Rattle.user_model.specs.ZOrder.{titled};
ghost use Rattle.user_model.specs.Colours.{frame_of, snapped};
ghost use Rattle.user_model.specs.Dirty.{dirty_pixels, must_erase};
ghost use Rattle.user_model.specs.Painting.{is_painting, to_paint};
ghost use Rattle.user_model.specs.Pixels.{origin, owner, point, screen};
ghost use Rattle.user_model.specs.ReplyDrawing.{bounds_from};
ghost use Rattle.win_num.specs.declared.shapes.Point.{Point};
ghost use Rattle.win_num.specs.PixelSets.{box, has_pixel, kind_of};
ghost use Rattle.screen_state.specs.Owned.{told_has};
ghost use Rattle.user_model.specs.Refusals.{is_no_rect};
ghost use Rattle.window_state.specs.Placings.{box_of};
ghost use Rattle.user_model.specs.Destruction.{is_marked, was_given, ended};
ghost use Rattle.user_model.specs.Dialogs.{dialog};
ghost use Rattle.user_model.specs.ReplyDialogs.{owner_of};
ghost use Rattle.user_model.specs.Classes.{class, classes, registered_count, is_used, message_names, message_number, proc_of};
ghost use Rattle.user_model.specs.Idle.{reply, is_idle, ends_stuck, last_entry, least_of, times_of};
ghost use Rattle.user_model.specs.Timers.{due, due_time, passing_timers, timer, timers_of};
ghost use Rattle.timer_state.specs.TimerLists.{as_due};
ghost use Rattle.thread_state.specs.Reads.{reads};
ghost use Rattle.thread_state.specs.Threads.{code_of, fresh_thread, told_post, waiting_call};
ghost use Rattle.window_state.specs.Steps.{destruction_answer};

use self::posts::{adds_post, reads_posts};
use self::quiet::is_quiet;
use crate::change::{add_change, take_effect};
use crate::progress::Progress;
use crate::sendings::{note_look, settle_sends};
use band_region::Region;
use dialog_state::Dialogs;
use display_state::Display;
use group_state::{GroupState, Slot};
use input_queue::Inputs;
use look_state::{Looks, seen_by};
use pending_state::follow_inputs;
use post_queue::Steps;
use screen_state::UpdateBox;
use send_state::{SendRow, SendState, Tally, first_cause, named_send};
use std::alloc::{AllocError, Global};
use std::marker::Model;
use std::sync::ledger::Ledger;
use thread_queues::{Stamp, mark_look, note_entry};
use thread_state::ThreadState;
use timer_source::{Timer, Timers};
use timer_state::{due_timer, follow_timers, has_timer, next_due, timers_are_full};
use user_model::{Answer, Call, Dialog, Entry, HISTORY_LIMIT, SendCount, SendStory, Setup};
use win_class::Classes;
use win_num::{Cause, Filter, Frame, Hwnd, Msg, Point, SendId, Thread};
use win_order::Order;
use win_tree::Tree;
use window_state::{
    Placing, is_disabled, is_shown, owner_at, parent_of, placing_changes, step_told, style_of,
    thread_of, titled, up, window_or_none,
};

mod inputs;
mod posts;
mod quiet;
mod status;

/// The history so far, and parts that answer in short time what the definitions say of it.
#[derive(Drop)]
pub struct CoreState {
    setup: Setup,
    /// The entries, the oldest first.
    history: Vec<Entry>,
    tree: Tree,
    order: Order,
    /// The pixels of the screen that windows own and that are dirty, which windows are being painted, the colours
    /// and the frames.
    display: Display,
    classes: Classes,
    /// What is kept of each thread, from thread 1 on.
    threads: Vec<ThreadState>,
    timers: Timers,
    /// Attached threads, focus, active windows, captures and keys.
    groups: GroupState,
    /// The mouse and keyboard input that no thread has taken.
    inputs: Inputs,
    progress: Progress,
    sends: SendState,
    tally: Tally,
    /// What became of each send, from send 1 on.
    stories: Vec<SendStory>,
    /// What was there for each thread when it looked last.
    looks: Looks,
    /// The dialogs that stand on windows.
    dialogs: Dialogs,
}

impl Model for CoreState {
    ghost use Rattle.std.specs.Prelude.{◌-◌, reverse, vec_capacity, vec_len};
    ghost use Rattle.core_state.specs.States.{Seen, Stands, parts};

    ghost Value = { Seen };

    ghost view = { λ s. record { setup = s.setup; past = reverse s.history.items; spare = vec_capacity s.history - vec_len s.history } };

    ghost invariant = { λ s. Stands s.setup (reverse s.history.items) (parts s.tree s.order s.display s.classes s.threads.items s.timers s.groups s.inputs s.progress s.sends s.tally s.stories.items s.looks s.dialogs) };
}

impl CoreState {
    /// No entry yet.
    pub fn new(alloc: Global, setup: Setup) -> Result<CoreState, AllocError>
        requires { IsSetup setup }
        ensures setup { IfOk result (λ s. s.setup ≡ setup) }
        ensures past { IfOk result (λ s. s.past ≡ []) }
    {
        let display = Display::new(alloc, setup)?;
        let threads = fresh_threads(alloc, setup.threads)?;
        let groups = GroupState::new(alloc, setup.threads)?;
        let sends = SendState::new(alloc, setup.threads)?;
        let looks = Looks::new(alloc, setup.threads)?;
        Ok(CoreState {
            setup,
            history: Vec::new(alloc),
            tree: Tree::new(alloc),
            order: Order::new(alloc),
            display,
            classes: Classes::new(alloc),
            threads,
            timers: Timers::new(alloc),
            groups,
            inputs: Inputs::new(alloc),
            progress: Progress::new(),
            sends,
            tally: Tally::new(),
            stories: Vec::new(alloc),
            looks,
            dialogs: Dialogs::new(alloc),
        })
    }

    /// How many threads there are.
    pub fn thread_count(&self) -> u8
        ensures { result ≡ self.now.setup.threads }
    {
        self.setup.threads
    }

    /// All entries, the oldest first: a legal history.
    pub fn history(&self) -> &[Entry]
        ensures all { result.now ≡ reverse self.now.past }
        ensures legal { IsLegal self.now.setup result.now }
    {
        &self.history
    }

    /// Whether no entry can be added.
    pub fn is_full(&self) -> bool
        ensures { result ≡ is_full self.now.past }
    {
        self.history.len() >= HISTORY_LIMIT
    }

    /// Whether the last entry says that nothing can go on.
    pub fn ends_stuck(&self) -> bool
        ensures { result ≡ ends_stuck self.now.past }
    {
        match self.history.last() {
            Some(entry) => matches!(entry.answer, Answer::Stuck) && entry.who.0 == 0,
            None => false,
        }
    }

    /// Milliseconds of the virtual clock, below 2 to the 54th.
    pub fn time(&self) -> u64
        ensures time { result ≡ clock self.now.past }
        ensures early { result < clock_limit }
    {
        self.progress.time
    }

    /// Where the cursor stands, in pixels of the screen.
    pub fn cursor(&self) -> Point
        ensures { result ≡ cursor self.now.past }
    {
        self.progress.cursor
    }

    /// Whether it is the number of a thread. Any other number is never idle.
    pub fn is_thread(&self, thread: u8) -> bool
        ensures number { result ≡ is_thread self.now.setup thread }
        ensures never_idle { result ≡ false → is_idle self.now.setup self.now.past thread ≡ false }
    {
        thread != 0 && thread <= self.setup.threads
    }

    /// Whether it is the number of a thread that hasn't ended.
    pub fn is_running(&self, thread: u64) -> bool
        ensures { result ≡ is_running self.now.setup self.now.past thread }
    {
        if thread == 0 || thread > u64::from(self.setup.threads) {
            return false;
        }
        !self.threads[(thread - 1) as usize].has_ended()
    }

    /// Whether a thread has ended.
    pub fn has_ended(&self, thread: u8) -> bool
        requires some { 0 < thread }
        requires known { thread ≤ self.now.setup.threads }
        ensures { result ≡ has_ended self.now.past thread }
    {
        self.threads[usize::from(thread - 1)].has_ended()
    }

    /// The call that a thread waits with.
    pub fn waiting(&self, thread: u8) -> Option<Call>
        requires some { 0 < thread }
        requires known { thread ≤ self.now.setup.threads }
        ensures { result ≡ waiting_call (last_entry self.now.past thread) }
    {
        self.threads[usize::from(thread - 1)].waiting()
    }

    /// How many messages may be posted to a thread and not taken yet.
    pub fn post_limit(&self, thread: u64) -> usize
        requires some { 0 < thread }
        requires known { thread ≤ self.now.setup.threads }
        ensures { result ≡ post_limit self.now.setup thread }
    {
        self.setup.post_limit(thread as u8)
    }

    /// The flags that a send with a time may have (Microsoft, SendMessageTimeout function).
    pub fn timeout_flags(&self) -> u8
        ensures { result ≡ self.now.setup.smto }
    {
        self.setup.smto
    }

    /// How many messages are posted to a thread and not taken yet.
    pub fn queue_len(&self, thread: u64) -> u32
        requires some { 0 < thread }
        requires known { thread ≤ self.now.setup.threads }
        ensures { result ≡ length (posted self.now.past thread) }
    {
        self.threads[(thread - 1) as usize].len()
    }

    /// The first of them that a filter lets pass, with its number.
    pub fn first_post(&self, thread: u8, filter: Filter) -> Option<(u32, Msg)>
        requires some { 0 < thread }
        requires known { thread ≤ self.now.setup.threads }
        ensures { result ≡ option_map told_post (first_post self.now.past thread filter) }
    {
        self.threads[usize::from(thread - 1)].first(&self.tree, filter)
    }

    /// The same, in one step for each posted message that it reads: those up to the first that the filter lets pass, and where it lets
    /// none pass at most all.
    pub fn first_post_counted<L: Ledger>(
        &self,
        thread: u8,
        filter: Filter,
        steps: &mut Steps<L>,
    ) -> Option<(u32, Msg)>
        requires some { 0 < thread }
        requires known { thread ≤ self.now.setup.threads }
        ensures first { result ≡ option_map told_post (first_post self.now.past thread filter) }
        ensures reads { IfSome result (λ found. steps.new ≡ steps.old + reads (passes self.now.past filter) (posted self.now.past thread)) }
        ensures most { steps.new ≤ steps.old + reads (passes self.now.past filter) (posted self.now.past thread) }
    {
        self.threads[usize::from(thread - 1)].first_counted(&self.tree, filter, steps)
    }

    /// The code of the thread's quit, where it was posted and not taken since.
    pub fn quit(&self, thread: u8) -> Option<u64>
        requires some { 0 < thread }
        requires known { thread ≤ self.now.setup.threads }
        ensures { result ≡ option_map code_of (quit self.now.past thread) }
    {
        self.threads[usize::from(thread - 1)].quit()
    }

    /// The number that the next post gets.
    pub fn next_post_number(&self) -> u32
        requires { is_full self.now.past ≡ false }
        ensures { result ≡ next_post_number self.now.past }
    {
        self.progress.posts + 1
    }

    /// The newest frame of a thread.
    pub fn top(&self, thread: u8) -> Option<Frame>
        requires some { 0 < thread }
        requires known { thread ≤ self.now.setup.threads }
        ensures { result ≡ top self.now.past thread }
    {
        self.sends.top(Thread(thread))
    }

    /// Whether a thread's stack has room for a frame.
    pub fn has_room(&self, thread: u8) -> bool
        requires some { 0 < thread }
        requires known { thread ≤ self.now.setup.threads }
        ensures { result ≡ has_room self.now.past thread }
    {
        self.sends.has_room(Thread(thread))
    }

    /// The answer that runs what a thread has ready, where its stack has room.
    #[inline(always)]
    pub fn next_ready(&self, thread: u8) -> Option<Answer>
        requires some { 0 < thread }
        requires known { thread ≤ self.now.setup.threads }
        ensures { result ≡ next_ready self.now.past thread }
    {
        let who = Thread(thread);
        let window = self.sends.next_window(who)?;
        self.sends
            .next_ready(who, self.proc_of(u64::from(window.0)))
    }

    /// The procedure of a live window, or 0.
    pub fn proc_of(&self, w: u64) -> u32
        ensures { result ≡ proc_of self.now.past w }
    {
        match self.tree.find(w) {
            Some(window) => self.window_proc(window),
            None => 0,
        }
    }

    /// The procedure of the class of a window, or 0.
    fn window_proc(&self, window: Hwnd) -> u32
        ensures { result ≡ proc_of self.now.past window.0 }
    {
        let Some(row) = self.tree.row(window) else {
            return 0;
        };
        match self.classes.class(row.class) {
            Some(class) => class.proc_no,
            None => 0,
        }
    }

    /// The first answer of the send of a thread's newest frame: its result and its cause.
    pub fn answered(&self, thread: u8, send: SendId) -> Option<(u64, Cause)>
        requires some { 0 < thread }
        requires known { thread ≤ self.now.setup.threads }
        requires on_top { IsOnTop self.now.past thread send.0 }
        ensures { result ≡ option_map as_told (answer self.now.past send.0) }
    {
        self.sends.answered(send)
    }

    /// The send of a thread's newest frame, as it was made.
    pub fn sent(&self, thread: u8, number: SendId) -> Option<SendRow>
        requires some { 0 < thread }
        requires known { thread ≤ self.now.setup.threads }
        requires on_top { IsOnTop self.now.past thread number.0 }
        ensures row { result ≡ option_map row_of (send self.now.past number.0) }
        ensures number { (x : SentMsg) → send self.now.past number.0 ≡ Some x → x.number ≡ number.0 }
    {
        self.sends.row(number).copied()
    }

    /// When the send of a thread's newest frame gives up, in milliseconds of the clock.
    pub fn deadline(&self, thread: u8, send: SendId) -> Option<u64>
        requires some { 0 < thread }
        requires known { thread ≤ self.now.setup.threads }
        requires on_top { IsOnTop self.now.past thread send.0 }
        ensures { result ≡ deadline self.now.past send.0 }
    {
        self.sends.deadline(send)
    }

    /// Whether the sender of a thread's newest frame serves nobody while it waits.
    pub fn blocks(&self, thread: u8, send: SendId) -> bool
        requires some { 0 < thread }
        requires known { thread ≤ self.now.setup.threads }
        requires on_top { IsOnTop self.now.past thread send.0 }
        ensures { result ≡ blocks self.now.past send.0 }
    {
        self.sends.blocks(send)
    }

    /// Whether as many sends are unfinished as may be, 1,024.
    pub fn sends_are_full(&self) -> bool
        ensures { result ≡ nat_le 1024 (length (unfinished self.now.past)) }
    {
        self.sends.is_full()
    }

    /// How many sends came to what.
    pub fn send_count(&self) -> SendCount
        ensures { result ≡ send_count self.now.past }
    {
        SendCount {
            begun: self.sends.begun(),
            entered: self.tally.entered,
            by_proc: self.tally.by_proc,
            by_reply: self.tally.by_reply,
            by_loss: self.tally.by_loss,
            by_timeout: self.tally.by_timeout,
            unfinished: self.sends.unfinished() as u32,
        }
    }

    /// What became of the send of a number: nothing, where there is none.
    pub fn send_story(&self, send: SendId) -> SendStory
        ensures { result ≡ send_story self.now.past send.0 }
    {
        let number = send.0 as usize;
        if number == 0 || number > self.stories.len() {
            return SendStory::new();
        }
        self.stories[number - 1]
    }

    /// The number that the next send gets.
    pub fn next_send(&self) -> SendId
        requires { is_full self.now.past ≡ false }
        ensures { result ≡ record { 0 = next_send_number self.now.past } }
    {
        SendId(self.sends.begun() + 1)
    }

    /// The soonest time that a thread waits for: a sleep's, a timeout's, or that of the first timer that its retrieval lets pass.
    pub fn wake_time(&self, thread: u8) -> Option<u64>
        requires some { 0 < thread }
        requires known { thread ≤ self.now.setup.threads }
        ensures { result ≡ least_of (times_of self.now.past thread (last_entry self.now.past thread)) }
    {
        match self.threads[usize::from(thread - 1)].waiting()? {
            Call::SleepUntil(time) => Some(time),
            Call::Await(_) => self.wait_end(thread),
            Call::Get(hwnd, min, max) | Call::Peek(hwnd, min, max, _) => {
                self.next_due(thread, Filter { hwnd, min, max })
            }
            _ => None,
        }
    }

    /// When the first timer of a thread is due whose WM_TIMER a filter lets pass, whether that time has come or not.
    fn next_due(&self, thread: u8, filter: Filter) -> Option<u64>
        ensures { result ≡ least_of (map (due_time self.now.past) (passing_timers self.now.past thread filter)) }
    {
        next_due(&self.timers, &self.tree, Thread(thread), filter)
    }

    /// The timer of a thread that is due first, among those that are due now and whose WM_TIMER a filter lets pass.
    pub fn due_timer(&self, thread: u8, filter: Filter) -> Option<Timer>
        ensures { result ≡ option_map (as_due self.now.past) (due self.now.past thread filter) }
    {
        due_timer(
            &self.timers,
            &self.tree,
            Thread(thread),
            filter,
            self.progress.time,
        )
    }

    /// Whether a live window has a timer with the id.
    pub fn has_timer(&self, w: u64, id: u64) -> bool
        ensures { result ≡ is_some (timer self.now.past w id) }
    {
        has_timer(&self.timers, &self.tree, w, id)
    }

    /// Whether a thread has as many timers as it may have, 256.
    pub fn timers_are_full(&self, thread: u8) -> bool
        ensures { result ≡ nat_le 256 (length (timers_of self.now.past thread)) }
    {
        timers_are_full(&self.timers, Thread(thread))
    }

    /// When the send that a thread waits for gives up.
    fn wait_end(&self, thread: u8) -> Option<u64>
        requires some { 0 < thread }
        requires known { thread ≤ self.now.setup.threads }
        ensures { result ≡ option_and_then (wait_end self.now.past) (top self.now.past thread) }
    {
        match self.top(thread)? {
            Frame::Await(send) => self.deadline(thread, send),
            _ => None,
        }
    }

    /// Whether it is the number of a live window.
    pub fn is_live(&self, w: u64) -> bool
        ensures { result ≡ is_live self.now.past w }
    {
        self.tree.find(w).is_some()
    }

    /// The thread of a live window, which hasn't ended, or 0.
    pub fn thread_of(&self, w: u64) -> u8
        ensures thread { result ≡ thread_of self.now.past w }
        ensures running { is_live self.now.past w ≡ true → is_running self.now.setup self.now.past result ≡ true }
    {
        match self.tree.find(w) {
            Some(window) => thread_of(&self.tree, window),
            None => 0,
        }
    }

    /// Whether it is a live window that is marked for destruction.
    pub fn is_marked(&self, w: u64) -> bool
        ensures { result ≡ (is_live self.now.past w && is_marked self.now.past w) }
    {
        match self.tree.find(w) {
            Some(window) => self.tree.marked(window),
            None => false,
        }
    }

    /// Whether it is a live window that got its last message.
    pub fn has_last(&self, w: u64) -> bool
        ensures { result ≡ (is_live self.now.past w && was_given self.now.past (ended w)) }
    {
        match self.tree.find(w) {
            Some(window) => self.tree.last_given(window),
            None => false,
        }
    }

    /// The parent of a live window, else its owner, or 0. None comes exactly where it isn't live.
    pub fn up(&self, w: u64) -> Option<Hwnd>
        ensures { option_map (λ h. h.0) result ≡ option_map up (window self.now.past w) }
    {
        let window = self.tree.find(w)?;
        let row = self.tree.row(window)?;
        Some(up(row))
    }

    /// The parent of a live window, or 0.
    pub fn parent(&self, w: u64) -> Hwnd
        ensures { result.0 ≡ parent_in (live self.now.past) w }
    {
        match self.tree.find(w) {
            Some(window) => parent_of(&self.tree, window),
            None => Hwnd(0),
        }
    }

    /// The owner of a live window, or 0.
    pub fn owner(&self, w: u64) -> Hwnd
        ensures { result.0 ≡ owner_of self.now.past w }
    {
        let Some(window) = self.tree.find(w) else {
            return Hwnd(0);
        };
        match self.tree.row(window) {
            Some(row) => row.owner,
            None => Hwnd(0),
        }
    }

    /// How the dialog on a window stands (Microsoft, DialogBox and EndDialog functions). None comes exactly where there is none.
    pub fn dialog(&self, w: u64) -> Option<Dialog>
        ensures { result ≡ dialog self.now.past w }
    {
        self.dialogs.on(w)
    }

    /// Whether it is a live window with WS_VISIBLE.
    pub fn is_shown(&self, w: u64) -> bool
        ensures { result ≡ (is_live self.now.past w && is_shown self.now.past w) }
    {
        match self.tree.find(w) {
            Some(window) => is_shown(&self.tree, window),
            None => false,
        }
    }

    /// Whether it is a live window with WS_DISABLED.
    pub fn is_disabled(&self, w: u64) -> bool
        ensures { result ≡ (is_live self.now.past w && is_disabled self.now.past w) }
    {
        match self.tree.find(w) {
            Some(window) => is_disabled(&self.tree, window),
            None => false,
        }
    }

    /// The focus, the active window or the capture of a thread's group, or 0.
    pub fn shared_window(&self, thread: u8, slot: Slot) -> Hwnd
        requires some { 0 < thread }
        requires known { thread ≤ self.now.setup.threads }
        ensures { result.0 ≡ value_of self.now.past thread (named slot) }
    {
        self.groups.value(&self.tree, Thread(thread), slot)
    }

    /// Whether it is a live window of a thread of this one's group.
    pub fn is_of_group(&self, thread: u8, w: u64) -> bool
        requires some { 0 < thread }
        requires known { thread ≤ self.now.setup.threads }
        ensures { result ≡ (is_live self.now.past w && is_in_group self.now.past thread (thread_of self.now.past w)) }
    {
        match self.tree.find(w) {
            Some(window) => self.groups.is_of_group(&self.tree, Thread(thread), window),
            None => false,
        }
    }

    /// Whether two threads are attached to each other.
    pub fn are_attached(&self, t: u64, u: u64) -> bool
        ensures { result ≡ are_attached self.now.past t u }
    {
        self.groups.are_attached(t, u)
    }

    /// The foreground thread, or 0.
    pub fn foreground(&self) -> u8
        ensures { result ≡ foreground self.now.past }
    {
        self.groups.foreground()
    }

    /// What a placing of a live window would change: 1 its corner, 2 its size, 4 whether it is shown.
    pub fn placing_changes(&self, w: u64, placing: Placing) -> u64
        requires live { is_live self.now.past w ≡ true }
        requires edges { is_no_rect placing.edges.l placing.edges.t placing.edges.r placing.edges.b ≡ false }
        ensures { result ≡ changes_told (look self.now.past w) (placed placing.flags placing.after (box_of placing.edges) (look self.now.past w)) }
    {
        placing_changes(&self.tree, w, placing)
    }

    /// The next step of the destruction of a live window that is marked.
    pub fn destruction(&self, w: u64) -> Answer
        requires live { is_live self.now.past w ≡ true }
        requires marked { is_marked self.now.past w ≡ true }
        ensures { result ≡ destruction_answer self.now.past w }
    {
        match self.tree.find(w) {
            Some(window) => step_told(self.tree.next_step(window)),
            None => Answer::Gone,
        }
    }

    /// The top-level window of least number above w, or 0.
    pub fn next_top(&self, w: u64) -> Hwnd
        ensures { Answer.Window result ≡ next_top_reply self.now.past w }
    {
        self.next_child(Hwnd(0), w)
    }

    /// The child of a live window of least number above another number, or 0.
    pub fn child_after(&self, w: u64, above: u64) -> Hwnd
        requires { is_live self.now.past w ≡ true }
        ensures { Answer.Window result ≡ child_told self.now.past w above }
    {
        self.next_child(window_or_none(&self.tree, w), above)
    }

    /// The child of a window, or for 0 the top-level window, of least number above a number, or 0.
    fn next_child(&self, parent: Hwnd, above: u64) -> Hwnd
        ensures { Answer.Window result ≡ child_told self.now.past parent.0 above }
    {
        let tree = &self.tree;
        if above > u64::from(u32::MAX) {
            return Hwnd(0);
        }
        tree.next_child(parent, Hwnd(above as u32))
    }

    /// The style bits of a live window.
    pub fn style_of(&self, w: u64) -> u64
        requires { is_live self.now.past w ≡ true }
        ensures { result ≡ style_of self.now.past w }
    {
        u64::from(style_of(&self.tree, window_or_none(&self.tree, w)))
    }

    /// The highest top-level window of a title, a place in the list of names. None comes exactly where no
    /// top-level window has it.
    pub fn titled(&self, title: u32) -> Option<Hwnd>
        ensures { result ≡ titled self.now.past title }
    {
        titled(&self.tree, &self.order, title)
    }

    /// The window that owns the pixel at x and y, counted from the screen's left top corner, or 0: off the
    /// screen, and where no visible window has the pixel.
    pub fn owner_at(&self, x: i64, y: i64) -> Hwnd
        ensures { result ≡ owner self.now.setup self.now.past (point x y) }
    {
        let Setup { width, height, .. } = self.setup;
        owner_at(&self.tree, &self.order, width, height, x, y)
    }

    /// The pixels of the screen that a window owns, or for 0 those that no window owns. None comes where it
    /// owns none.
    pub fn owned_region(&self, w: Hwnd) -> Option<&Region>
        ensures { (p : Point) → told_has (option_copied result) p ≡ (has_pixel (screen self.now.setup) p && ((owner self.now.setup self.now.past p).0 == w.0)) }
    {
        self.display.screen().owned_region(w)
    }

    /// The kind of a live window's dirty pixels and the least rectangle around them, from its own left top corner.
    pub fn update_box(&self, w: u64) -> UpdateBox
        requires { is_live self.now.past w ≡ true }
        ensures kind { result.kind ≡ kind_of (dirty_pixels self.now.setup self.now.past w) }
        ensures edges { box result.l result.t result.r result.b ≡ bounds_from (origin self.now.past w) (dirty_pixels self.now.setup self.now.past w) }
    {
        self.display
            .screen()
            .update_box(&self.tree, window_or_none(&self.tree, w))
    }

    /// Whether it is a live window whose background is to be erased when it is painted.
    pub fn erases(&self, w: u64) -> bool
        ensures { result ≡ (is_live self.now.past w && must_erase self.now.setup self.now.past w) }
    {
        match self.tree.find(w) {
            Some(window) => self.display.screen().erases(window),
            None => false,
        }
    }

    /// Whether it is a live window that is being painted.
    pub fn is_painting(&self, w: u64) -> bool
        ensures { result ≡ (is_live self.now.past w && is_painting self.now.past w) }
    {
        match self.tree.find(w) {
            Some(window) => self.display.screen().is_painting(window),
            None => false,
        }
    }

    /// The first window of a thread in painting order that has a dirty pixel and whose WM_PAINT a filter lets pass.
    pub fn to_paint(&self, thread: u8, filter: Filter) -> Option<Hwnd>
        ensures { result ≡ to_paint self.now.setup self.now.past thread filter }
    {
        self.display
            .screen()
            .to_paint(&self.tree, &self.order, Thread(thread), filter)
    }

    /// The colours of the frame of a number, counted from 1, row after row, each from left to right, each 0 to 15. None comes
    /// exactly where there is no frame of the number.
    pub fn frame(&self, number: u32) -> Option<&[u8]>
        ensures { option_copied result ≡ frame_of self.now.setup self.now.past number }
    {
        self.display.frame(number)
    }

    /// How many frames are kept.
    pub fn frame_count(&self) -> usize
        ensures { result ≡ length (snapped self.now.past) }
    {
        self.display.frame_count()
    }

    /// How many windows are live.
    pub fn window_count(&self) -> usize
        ensures { result ≡ length (live self.now.past) }
    {
        self.tree.windows().len()
    }

    /// The number that the next window gets.
    pub fn next_window(&self) -> Hwnd
        requires { is_full self.now.past ≡ false }
        ensures { result ≡ next_window self.now.past }
    {
        Hwnd(self.tree.last() + 1)
    }

    /// Whether a class has the name.
    pub fn has_class(&self, name: u32) -> bool
        ensures { result ≡ is_some (class self.now.past name) }
    {
        self.classes.class(name).is_some()
    }

    /// Whether there are as many classes as may be, 64.
    pub fn classes_are_full(&self) -> bool
        ensures { result ≡ nat_le 64 (length (classes self.now.past)) }
    {
        self.classes.is_full()
    }

    /// How many classes were ever registered.
    pub fn registered_count(&self) -> u32
        ensures { result ≡ registered_count self.now.past }
    {
        self.classes.registered()
    }

    /// Whether a live window has the class.
    pub fn is_used(&self, name: u32) -> bool
        ensures { result ≡ is_used self.now.past name }
    {
        self.tree.has_class(name)
    }

    /// The number of the registered message of a name. None comes exactly where it has none.
    pub fn message_number(&self, name: u32) -> Option<u32>
        ensures { result ≡ message_number self.now.past name }
    {
        self.classes.number_of(name)
    }

    /// How many messages are registered.
    pub fn message_count(&self) -> usize
        ensures { result ≡ length (message_names self.now.past) }
    {
        self.classes.message_count()
    }

    /// Whether as many messages are registered as may be, 16,384.
    pub fn messages_are_full(&self) -> bool
        ensures { result ≡ nat_le 16384 (length (message_names self.now.past)) }
    {
        self.classes.messages_are_full()
    }

    /// Takes the places of this many entries more. Want of memory comes only where there were fewer, and leaves at least those that there
    /// were. No entry comes or goes (Rust, Vec::reserve).
    pub fn reserve(&mut self, n: u32) -> Result<(), AllocError>
        ensures room { OnOk result (n ≤ self.new.spare) }
        ensures kept { self.old.spare ≤ self.new.spare }
        ensures lacking { OnErr result (self.old.spare < n) }
        ensures past { self.new.past ≡ self.old.past }
        ensures setup { self.new.setup ≡ self.old.setup }
    {
        self.history.reserve(n as usize)
    }

    /// Adds an entry, and brings the parts up to date. After want of memory nothing has changed. Where there is a place for an entry more,
    /// one of a call that needs no other memory is added.
    pub fn append(&mut self, entry: &Entry) -> Result<(), AllocError>
        requires room { is_full self.old.past ≡ false }
        requires answer { entry.now.answer ≡ reply self.old.setup self.old.past entry.now.who.0 entry.now.call }
        ensures past { OnOk result (self.new.past ≡ entry.now ∷ self.old.past) }
        ensures err { OnErr result (self.new.past ≡ self.old.past) }
        ensures setup { self.new.setup ≡ self.old.setup }
        ensures spare { self.old.spare ≤ self.new.spare + 1 }
        ensures with_room { takes_one_place entry.now.call ≡ true → 1 ≤ self.old.spare → IsOk result }
    {
        if adds_post(entry) {
            return self.append_post(entry);
        }
        if reads_posts(entry) {
            return self.append_read(entry);
        }
        if is_quiet(entry) {
            return self.append_quiet(entry);
        }
        self.append_any(entry)
    }

    /// Adds an entry of any call, and brings all parts up to date. After want of memory nothing has changed.
    fn append_any(&mut self, entry: &Entry) -> Result<(), AllocError>
        requires room { is_full self.old.past ≡ false }
        requires answer { entry.now.answer ≡ reply self.old.setup self.old.past entry.now.who.0 entry.now.call }
        ensures past { OnOk result (self.new.past ≡ entry.now ∷ self.old.past) }
        ensures err { OnErr result (self.new.past ≡ self.old.past) }
        ensures setup { self.new.setup ≡ self.old.setup }
        ensures spare { self.old.spare ≤ self.new.spare + 1 }
    {
        let entry = *entry;
        let stamp = Stamp {
            place: self.history.len() as u32,
            time: self.progress.time,
            cursor: self.progress.cursor,
            shift: self.shift_for(entry),
        };
        let meant = self.meant_by(entry.call);
        let named = named_send(&self.sends, entry);
        let first = first_cause(&self.sends, named);
        let alloc = *self.history.allocator();
        let change = self
            .display
            .after(alloc, self.setup, &self.tree, &self.order, entry)?;
        let seen = seen_by(alloc, &self.tree, self.display.screen().dirty(), &entry)?;
        make_room(&mut self.history, &mut self.stories)?;
        add_change(
            &mut self.classes,
            &mut self.tree,
            &mut self.order,
            &mut self.threads,
            &mut self.timers,
            &mut self.inputs,
            &mut self.sends,
            &mut self.display,
            &mut self.dialogs,
            stamp,
            meant,
            entry,
        )?;
        let lost = settle_sends(
            &mut self.sends,
            &mut self.stories,
            &self.tree,
            stamp.place,
            named,
            entry,
        );
        follow_timers(&mut self.timers, &self.tree, entry, stamp.time);
        self.groups.follow(entry, stamp.place);
        follow_inputs(&mut self.inputs, entry);
        take_effect(
            &mut self.classes,
            &mut self.tree,
            &mut self.order,
            &mut self.threads,
            entry,
        );
        self.display.take_over(change);
        note_entry(&mut self.threads, &entry);
        self.progress = self.progress.followed_by(entry);
        mark_look(&mut self.threads, &entry, self.progress.posts);
        self.tally = self.tally.with(entry.answer, first, lost);
        let after = self.progress.moment();
        self.looks.follow(&entry, after, seen);
        note_look(&mut self.sends, &entry, stamp.place + 1);
        self.history.push_reserved(entry);
        Ok(())
    }
}

/// Takes the places of one entry and of one send's story. Whatever comes of it, nothing else changes.
fn make_room(history: &mut Vec<Entry>, stories: &mut Vec<SendStory>) -> Result<(), AllocError>
    ensures entries { history.new.items ≡ history.old.items }
    ensures len { vec_len history.new ≡ vec_len history.old }
    ensures kept { vec_capacity history.old ≤ vec_capacity history.new }
    ensures stories { stories.new.items ≡ stories.old.items }
    ensures entry { OnOk result (vec_len history.new + 1 ≤ vec_capacity history.new) }
    ensures story { OnOk result (vec_len stories.new + 1 ≤ vec_capacity stories.new) }
{
    make_place(history)?;
    stories.reserve(1)
}

/// Takes the place of one entry, where there is none. Whatever comes of it, nothing else changes.
#[inline(always)]
fn make_place(history: &mut Vec<Entry>) -> Result<(), AllocError>
    ensures entries { history.new.items ≡ history.old.items }
    ensures len { vec_len history.new ≡ vec_len history.old }
    ensures kept { vec_capacity history.old ≤ vec_capacity history.new }
    ensures room { OnOk result (vec_len history.new + 1 ≤ vec_capacity history.new) }
    ensures succeeds { vec_len history.old + 1 ≤ vec_capacity history.old → IsOk result }
{
    if history.len() < history.capacity() {
        return Ok(());
    }
    history.reserve(1)
}

/// What is kept of so many threads that have done nothing.
fn fresh_threads(alloc: Global, count: u8) -> Result<Vec<ThreadState>, AllocError>
    ensures length { IfOk result (λ threads. length threads.items ≡ count) }
    ensures fresh { IfOk result (λ threads. All (λ s. s ≡ fresh_thread) threads.items) }
{
    let mut threads = Vec::with_capacity(alloc, usize::from(count))?;
    for _ in 0..count {
        threads.push(ThreadState::new(alloc))?;
    }
    Ok(threads)
}
