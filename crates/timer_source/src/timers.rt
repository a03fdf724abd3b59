//! All timers that are set.

ghost use Rattle.std.specs.Prelude.{if◌then◌else◌, ◌≡◌, ◌==◌, ◌↔◌, ◌≤◌, ◌<◌, ◌⊎◌, ℕ, nat_le, [], ◌∷◌, ◌++◌, filter, length, not, Bool, true, IfErr, IfSome, OnOk, OnErr, vec_len};
ghost use Rattle.std.specs.Vec.{vec_capacity};
ghost use Rattle.std.specs.Fn.{FnReturnsAt};
ghost use Rattle.win_num.specs.Clocks.{clock_limit};
ghost use Rattle.win_num.specs.declared.message.Hwnd.{Hwnd};
ghost use Rattle.win_num.specs.declared.message.Thread.{Thread};
ghost use Rattle.timer_source.specs.declared.timer.Timer.{Timer};
ghost use Rattle.timer_source.specs.Settings.{AreEarly, is_of, is_set, is_set_for, without, without_window, has_no_room, of_thread, setting_at, restarted, first_passing, with_timer, timer_of, is_before, first_due, next_due, is_due_after, has_due, Computes};

use crate::setting::Setting;
use crate::timer::Timer;
use std::alloc::Global;
use std::marker::Model;
use win_num::{Code, Fault, Hwnd, Thread};

/// How many timers a thread may have.
const MOST: usize = 256;

/// The error number of a wrong parameter (Microsoft, System Error Codes).
const WRONG_PARAMETER: u16 = 87;

/// The timers of all windows, in the order of their setting. No two of a window have one id.
#[derive(Drop)]
pub struct Timers {
    settings: Vec<Setting>,
}

impl Model for Timers {
    ghost use Rattle.std.specs.Prelude.{List};
    ghost use Rattle.timer_source.specs.declared.setting.Setting.{Setting};
    ghost use Rattle.timer_source.specs.Settings.{AreEarly};

    ghost Value = { List Setting };

    ghost view = { λ a. a.settings.items };

    ghost invariant = { λ a. AreEarly a.settings.items };
}

impl Timers {
    /// No timers. It takes no room.
    pub fn new(alloc: Global) -> Timers
        ensures { result ≡ [] }
    {
        Timers {
            settings: Vec::new(alloc),
        }
    }

    /// Sets the timer `id` of the window `w` of thread `t` at the clock, which is below 2 to the 54th.
    /// Milliseconds below 10 count as 10, and above 2147483647 as that. A timer of the window with this
    /// id is replaced, of whichever thread it was, and the new one is as new. `Full` comes exactly where
    /// thread `t` has 256 timers and this is none of them (Microsoft, SetTimer function; the limit is this
    /// project's own).
    pub fn set(&mut self, t: Thread, w: Hwnd, id: u64, ms: u64, clock: u64) -> Result<(), Fault>
        requires { clock < clock_limit }
        ensures ok { OnOk result (self.new ≡ without w id self.old ++ setting_at t w id ms clock ∷ []) }
        ensures full { (result ≡ Err (Fault.Refused Code.Full)) ↔ (has_no_room t w id self.old ≡ true) }
        ensures few { (u : Thread) → length (of_thread u self.old) ≤ 256 → length (of_thread u self.new) ≤ 256 }
        ensures other { IfErr result (λ e. (e ≡ Fault.Refused Code.Full) ⊎ (e ≡ Fault.Memory)) }
        ensures err { OnErr result (self.new ≡ self.old) }
    {
        if !stands_for(&self.settings, t, w, id) && self.is_full(t) {
            return Err(Fault::Refused(Code::Full));
        }
        if self.settings.reserve(1).is_err() {
            return Err(Fault::Memory);
        }
        take_out(&mut self.settings, w, id);
        let period = ms.clamp(10, 2147483647) as u32;
        let base = clock;
        self.settings
            .push(Setting {
                thread: t,
                hwnd: w,
                id,
                period,
                base,
            })
            .unwrap();
        Ok(())
    }

    /// Takes the timer `id` of the window `w` out. Error 87 comes exactly where there is none
    /// (Microsoft, KillTimer function).
    pub fn kill(&mut self, w: Hwnd, id: u64) -> Result<(), Code>
        ensures answer { result ≡ (if is_set w id self.old then Ok tt else Err (Code.Win 87)) }
        ensures ok { OnOk result (self.new ≡ without w id self.old) }
        ensures err { OnErr result (self.new ≡ self.old) }
    {
        if !stands(&self.settings, w, id) {
            return Err(Code::Win(WRONG_PARAMETER));
        }
        take_out(&mut self.settings, w, id);
        Ok(())
    }

    /// The timer of thread `t` that is due first, among those that are due at the clock and pass; of two
    /// that are due at one time, the one that was set first. `None` comes exactly where there is none.
    pub fn first_due<F: Fn(&Timer) -> bool>(&self, t: Thread, pass: F, clock: u64) -> Option<Timer>
        requires { F.IsAlwaysCallable pass }
        ensures value { (test : Timer → Bool) → Computes F.Fn test pass → result ≡ first_due t test clock self.now }
        ensures passed { IfSome result (λ x. FnReturnsAt F.Fn pass x true) }
    {
        soonest(
            &self.settings,
            t,
            |timer: &Timer| timer.due <= clock && pass(timer),
        )
    }

    /// When the first timer of thread `t` that passes is due, in milliseconds of the virtual clock, whether
    /// that time has come or not. `None` comes exactly where no timer of the thread passes.
    pub fn next_due<F: Fn(&Timer) -> bool>(&self, t: Thread, pass: F) -> Option<u64>
        requires { F.IsAlwaysCallable pass }
        ensures value { (test : Timer → Bool) → Computes F.Fn test pass → result ≡ next_due t test self.now }
        ensures passed { IfSome result (λ due. (x : Timer) × (x.due ≡ due) × FnReturnsAt F.Fn pass x true) }
    {
        soonest(&self.settings, t, pass).map(|timer| timer.due)
    }

    /// Whether a timer of thread `t` is due at the clock, and later than `after`, both in milliseconds.
    pub fn has_due(&self, t: Thread, after: u64, clock: u64) -> bool
        ensures { result ≡ has_due t after clock self.now }
    {
        any_due(&self.settings, t, after, clock)
    }

    /// Begins the period of the timer `id` of the window `w` anew at the clock, which is below 2 to the
    /// 54th. It keeps its place in the order of setting. Where there is none, nothing changes.
    pub fn restart(&mut self, w: Hwnd, id: u64, clock: u64)
        requires { clock < clock_limit }
        ensures { self.new ≡ restarted w id clock self.old }
    {
        begin_anew(&mut self.settings, w, id, clock);
    }

    /// Whether the window `w` has a timer `id`.
    pub fn has(&self, w: Hwnd, id: u64) -> bool
        ensures { result ≡ is_set w id self.now }
    {
        stands(&self.settings, w, id)
    }

    /// Whether thread `t` has as many timers as it may have, 256.
    pub fn is_full(&self, t: Thread) -> bool
        ensures { result ≡ nat_le 256 (length (of_thread t self.now)) }
    {
        count_of(&self.settings, t) >= MOST
    }

    /// Takes all timers of the window `w` out.
    pub fn purge(&mut self, w: Hwnd)
        ensures { self.new ≡ without_window w self.old }
    {
        take_out_all(&mut self.settings, w);
    }

    /// Takes out the timers of all windows that go, in one pass: those for which `goes` answers true.
    pub fn purge_those<F: Fn(Hwnd) -> bool>(&mut self, goes: F)
        requires { F.IsAlwaysCallable goes }
        ensures { (test : ℕ → Bool) → ((w : Hwnd) (b : Bool) → F.post goes w b → b ≡ test w.0) → self.new ≡ filter (λ s. not (test s.hwnd.0)) self.old }
    {
        self.settings.retain(|s| !goes(s.hwnd));
    }

    /// Takes out all timers of thread `t`.
    pub fn end(&mut self, t: Thread)
        ensures { self.new ≡ filter (λ s. not (s.thread.0 == t.0)) self.old }
    {
        take_those_of(&mut self.settings, t);
    }
}

/// Whether the setting is of this window and has this id.
fn is_timer(setting: &Setting, w: Hwnd, id: u64) -> bool
    ensures { result ≡ is_of w id setting.now }
{
    setting.hwnd == w && setting.id == id
}

/// Whether there is a timer `id` of the window `w`.
fn stands(settings: &[Setting], w: Hwnd, id: u64) -> bool
    ensures { result ≡ is_set w id settings.now }
{
    settings.iter().any(|s| is_timer(s, w, id))
}

/// Whether thread `t` has the timer `id` of the window `w`.
fn stands_for(settings: &[Setting], t: Thread, w: Hwnd, id: u64) -> bool
    ensures { result ≡ is_set_for t w id settings.now }
{
    settings.iter().any(|s| s.thread == t && is_timer(s, w, id))
}

/// Takes the timer `id` of the window `w` out, and gives no room back.
fn take_out(settings: &mut Vec<Setting>, w: Hwnd, id: u64)
    ensures items { settings.new.items ≡ without w id settings.old.items }
    ensures len { vec_len settings.new ≤ vec_len settings.old }
    ensures room { vec_capacity settings.new ≡ vec_capacity settings.old }
{
    settings.retain(|s| !is_timer(s, w, id));
}

/// Takes the timers of the window `w` out.
fn take_out_all(settings: &mut Vec<Setting>, w: Hwnd)
    ensures { settings.new.items ≡ without_window w settings.old.items }
{
    settings.retain(|s| s.hwnd != w);
}

/// Takes the timers of thread `t` out.
fn take_those_of(settings: &mut Vec<Setting>, t: Thread)
    ensures { settings.new.items ≡ filter (λ s. not (s.thread.0 == t.0)) settings.old.items }
{
    settings.retain(|s| s.thread != t);
}

/// Puts the base of the timer `id` of the window `w` at the clock.
fn begin_anew(settings: &mut [Setting], w: Hwnd, id: u64, clock: u64)
    ensures { settings.new ≡ restarted w id clock settings.old }
{
    for setting in settings.iter_mut() {
        if is_timer(setting, w, id) {
            setting.base = clock;
        }
    }
}

/// How many timers of thread `t` there are.
fn count_of(settings: &[Setting], t: Thread) -> usize
    ensures { result ≡ length (of_thread t settings.now) }
{
    settings.iter().filter(|s| s.thread == t).count()
}

/// The timer of thread `t` that passes and is due first, and of those the one that was set first.
fn soonest<F: Fn(&Timer) -> bool>(settings: &[Setting], t: Thread, pass: F) -> Option<Timer>
    requires early { AreEarly settings.now }
    requires callable { F.IsAlwaysCallable pass }
    ensures value { (test : Timer → Bool) → Computes F.Fn test pass → result ≡ first_passing t test settings.now }
    ensures passed { IfSome result (λ x. FnReturnsAt F.Fn pass x true) }
{
    let mut best: Option<Timer> = None;
    for setting in settings {
        if setting.thread == t {
            best = sooner(best, setting, &pass);
        }
    }
    best
}

/// Whether a timer of thread `t` is due at the clock, and later than `after`.
fn any_due(settings: &[Setting], t: Thread, after: u64, clock: u64) -> bool
    requires { AreEarly settings.now }
    ensures { result ≡ has_due t after clock settings.now }
{
    for setting in settings {
        if setting.thread == t && is_due_after(setting, after, clock) {
            return true;
        }
    }
    false
}

/// Whether a timer is due at the clock, and later than `after`.
fn is_due_after(setting: &Setting, after: u64, clock: u64) -> bool
    requires { setting.now.base < clock_limit }
    ensures { result ≡ is_due_after after clock setting.now }
{
    let due = setting.base + u64::from(setting.period);
    due <= clock && after < due
}

/// The timer that is due first, of the first so far and of one more that counts if it passes.
fn sooner<F: Fn(&Timer) -> bool>(best: Option<Timer>, setting: &Setting, pass: &F) -> Option<Timer>
    requires early { setting.now.base < clock_limit }
    requires callable { F.IsAlwaysCallable pass.now }
    ensures value { (test : Timer → Bool) → Computes F.Fn test pass.now → result ≡ with_timer test best (timer_of setting.now) }
    ensures passed { IfSome best (λ x. FnReturnsAt F.Fn pass.now x true) → IfSome result (λ x. FnReturnsAt F.Fn pass.now x true) }
{
    let due = setting.base + u64::from(setting.period);
    let timer = Timer {
        hwnd: setting.hwnd,
        id: setting.id,
        due,
    };
    if !is_sooner(&timer, &best) {
        return best;
    }
    if !pass(&timer) {
        return best;
    }
    Some(timer)
}

/// Whether the timer is due before the first so far, if there is one.
fn is_sooner(timer: &Timer, best: &Option<Timer>) -> bool
    ensures { result ≡ is_before timer.now best.now }
{
    match best {
        Some(first) => timer.due < first.due,
        None => true,
    }
}
