//! Input: whom it is meant for when it is injected, and where it goes when it is taken.

ghost use Rattle.std.specs.Prelude.{◌≡◌, ◌==◌, ◌<◌, ◌≤◌, ℕ, false, true, Some, option_map};
ghost use Rattle.std.specs.List.{AllByRecursion};
ghost use Rattle.win_num.specs.Numbers.{passes_range};
ghost use Rattle.win_num.specs.PixelSets.{has_pixel};
ghost use Rattle.pending_state.specs.Meanings.{IsMeantBy};
ghost use Rattle.pending_state.specs.Pending.{IsGroupOf, untaken_at};
ghost use Rattle.core_state.specs.Inputs.{IsAtHome, IsNoneOrLive, handed_out, mouse_over, passes_in, taker_in, target_in, told_input};
ghost use Rattle.user_model.specs.Past.{is_full};
ghost use Rattle.user_model.specs.Filters.{passes_window};
ghost use Rattle.user_model.specs.Focus.{capture, foreground, if_of_group, value_of};
ghost use Rattle.user_model.specs.Inputs.{Injection, home_of, injection, message_in, of_key, of_mouse, untaken};
ghost use Rattle.user_model.specs.Deeds.{posting_of};
ghost use Rattle.user_model.specs.Keys.{is_key_down, is_shift_down};
ghost use Rattle.user_model.specs.Pixels.{origin, owner, point, screen};
ghost use Rattle.user_model.specs.ReplyInput.{has_no_place, next_input_number};
ghost use Rattle.user_model.specs.Targets.{enabled_at, key_window, mouse_window, packed, to_take};
ghost use Rattle.user_model.specs.Threads.{is_running};

use super::CoreState;
use crate::mouse::{is_of_mouse, low_word};
use group_state::Slot;
use input_queue::{Element, Inputs};
use pending_state::Meant;
use thread_state::passes_window;
use user_model::{Call, Entry};
use win_num::{Filter, Hwnd, Msg, Point, Thread};
use window_state::{enabled_at, origin_of, thread_of};

/// The key whose state decides on upper case (Microsoft, Virtual-Key Codes, VK_SHIFT).
const SHIFT: u8 = 16;

impl CoreState {
    /// The number that the next input gets.
    pub fn next_input_number(&self) -> u32
        requires { is_full self.now.past ≡ false }
        ensures { result ≡ next_input_number self.now.past }
    {
        self.progress.inputs + 1
    }

    /// Whether a key or a button is down for a thread's group: whether the last input of it that one of the group took says so.
    pub fn is_key_down(&self, thread: u8, key: u8) -> bool
        requires some { 0 < thread }
        requires known { thread ≤ self.now.setup.threads }
        ensures { result ≡ is_key_down self.now.past thread key }
    {
        self.groups.is_key_down(Thread(thread), key)
    }

    /// Whether Shift is down for the caller of an entry, as far as that decides on what the call posts: on the character of a key. No other
    /// call asks for it.
    pub(super) fn shift_for(&self, entry: Entry) -> bool
        ensures { is_running self.now.setup self.now.past entry.who.0 ≡ true → posting_of result entry.call ≡ posting_of (is_shift_down self.now.past entry.who.0) entry.call }
    {
        match entry.call {
            Call::Translate(..) => self.is_shift_down(entry.who.0),
            _ => false,
        }
    }

    /// Whether Shift is down for the group of a thread that runs.
    fn is_shift_down(&self, thread: u8) -> bool
        ensures { is_running self.now.setup self.now.past thread ≡ true → result ≡ is_shift_down self.now.past thread }
    {
        if !self.is_thread(thread) {
            return false;
        }
        self.is_key_down(thread, SHIFT)
    }

    /// Whether a pixel at x and y is one of the screen.
    pub fn is_on_screen(&self, x: i64, y: i64) -> bool
        ensures { result ≡ has_pixel (screen self.now.setup) (point x y) }
    {
        let width = i64::from(self.setup.width);
        let height = i64::from(self.setup.height);
        0 <= x && x < width && 0 <= y && y < height
    }

    /// The capture of the foreground thread's group, or 0.
    fn captured(&self) -> Hwnd
        ensures { result.0 ≡ value_of self.now.past (foreground self.now.past) capture }
    {
        let thread = self.groups.foreground();
        if thread == 0 {
            return Hwnd(0);
        }
        self.groups.value(&self.tree, Thread(thread), Slot::Capture)
    }

    /// The window that the mouse is over as far as an injection goes: the capture of the foreground group, else the owner of the pixel.
    fn window_under(&self, x: i64, y: i64) -> Hwnd
        ensures { result.0 ≡ mouse_over self.now.setup self.now.past (point x y) }
    {
        let captured = self.captured();
        if captured.0 != 0 {
            return captured;
        }
        self.owner_at(x, y)
    }

    /// The thread that a message of the mouse at a pixel is meant for, or 0: that of the foreground group's capture, else that of the
    /// window that owns the pixel.
    pub fn mouse_home(&self, x: i64, y: i64) -> u8
        ensures home { (message : ℕ) → result ≡ home_of self.now.setup self.now.past (of_mouse message (point x y)) }
        ensures known { result ≤ self.now.setup.threads }
    {
        let window = self.window_under(x, y);
        thread_of(&self.tree, window)
    }

    /// The thread that a key is meant for, or 0: the foreground thread, where it hasn't ended.
    pub fn key_home(&self) -> u8
        ensures home { (message : ℕ) (key : ℕ) → result ≡ home_of self.now.setup self.now.past (of_key message key) }
        ensures known { result ≤ self.now.setup.threads }
    {
        let thread = self.groups.foreground();
        if thread == 0 {
            return 0;
        }
        if self.has_ended(thread) {
            return 0;
        }
        thread
    }

    /// The thread that what a call injects is meant for, or 0.
    fn home_by(&self, call: Call) -> u8
        ensures home { (i : Injection) → injection call ≡ Some i → result ≡ home_of self.now.setup self.now.past i }
        ensures known { result ≤ self.now.setup.threads }
    {
        match call {
            Call::Mouse(_, x, y) => self.mouse_home(x, y),
            Call::Key(..) => self.key_home(),
            _ => 0,
        }
    }

    /// The threads of a thread's group: bit t for thread t. For 0 there are none.
    fn members(&self, thread: u8) -> u16
        requires { thread ≤ self.now.setup.threads }
        ensures { (thread == 0) ≡ false → IsGroupOf self.now.past thread result }
    {
        if thread == 0 {
            return 0;
        }
        self.groups.group(Thread(thread))
    }

    /// Whom what a call injects is meant for, and the cursor and the clock before it.
    pub(super) fn meant_by(&self, call: Call) -> Meant
        ensures { IsMeantBy self.now.setup self.now.past call result }
    {
        let home = self.home_by(call);
        Meant {
            home: Thread(home),
            group: self.members(home),
            cursor: self.cursor(),
            time: self.time(),
        }
    }

    /// Whether an input with this message, which is meant for a thread, has no place: it replaces none, and the thread's group has at
    /// least 512 that nobody took.
    pub fn lacks_place(&self, thread: u8, message: u32) -> bool
        requires some { 0 < thread }
        requires known { thread ≤ self.now.setup.threads }
        ensures { (i : Injection) → thread ≡ home_of self.now.setup self.now.past i → message ≡ message_in i → result ≡ has_no_place self.now.setup self.now.past i }
    {
        self.inputs
            .lacks_place(message, self.groups.group(Thread(thread)))
    }

    /// The window that the keys of a thread's group go to, or 0: the focus, else the active window.
    fn key_window(&self, thread: u8) -> Hwnd
        requires some { 0 < thread }
        requires known { thread ≤ self.now.setup.threads }
        ensures { result.0 ≡ key_window self.now.past thread }
    {
        let focus = self.shared_window(thread, Slot::Focus);
        if focus.0 != 0 {
            return focus;
        }
        self.shared_window(thread, Slot::Active)
    }

    /// The window that the mouse is over at a pixel where it isn't disabled, else its nearest ancestor that isn't, where that is a
    /// window of a thread of this one's group; else 0.
    fn enabled_of_group(&self, thread: u8, pixel: Point) -> Hwnd
        requires some { 0 < thread }
        requires known { thread ≤ self.now.setup.threads }
        ensures { result.0 ≡ if_of_group self.now.past thread (enabled_at self.now.past (owner self.now.setup self.now.past pixel).0) }
    {
        let owner = self.owner_at(i64::from(pixel.x), i64::from(pixel.y));
        let window = enabled_at(&self.tree, owner);
        if self.groups.is_of_group(&self.tree, Thread(thread), window) {
            window
        } else {
            Hwnd(0)
        }
    }

    /// The window that the mouse goes to at a pixel, for input that is meant for the thread, or 0: the capture, else the enabled window
    /// there.
    fn mouse_window(&self, thread: u8, pixel: Point) -> Hwnd
        requires some { 0 < thread }
        requires known { thread ≤ self.now.setup.threads }
        ensures { result.0 ≡ mouse_window self.now.setup self.now.past thread pixel }
    {
        let captured = self.shared_window(thread, Slot::Capture);
        if captured.0 != 0 {
            return captured;
        }
        self.enabled_of_group(thread, pixel)
    }

    /// The window that an input goes to now, or 0. It is decided when the input is taken.
    fn target(&self, element: &Element) -> Hwnd
        ensures { result.0 ≡ target_in self.now.setup self.now.past element.now }
    {
        let home = element.home.0;
        if !self.is_thread(home) {
            return Hwnd(0);
        }
        if is_of_mouse(u64::from(element.message)) {
            return self.mouse_window(home, element.point);
        }
        self.key_window(home)
    }

    /// The thread that takes an input now.
    pub(super) fn taker(&self, element: &Element) -> Thread
        ensures { result ≡ taker_in self.now.setup self.now.past element.now }
    {
        let window = self.target(element);
        if window.0 == 0 {
            return element.home;
        }
        Thread(self.thread_of(u64::from(window.0)))
    }

    /// Whether a filter's window lets a window pass.
    fn passes_window(&self, wanted: u64, w: Hwnd) -> bool
        ensures { result ≡ passes_window self.now.past wanted w.0 }
    {
        passes_window(&self.tree, wanted, w)
    }

    /// Whether a filter lets an input pass.
    fn passes_input(&self, filter: Filter, element: &Element) -> bool
        ensures { result ≡ passes_in self.now.setup self.now.past filter element.now }
    {
        let window = self.target(element);
        passes_number(filter, element.message) && self.passes_window(filter.hwnd, window)
    }

    /// The left top corner on the screen of a live window, or for 0 of the screen, in pixels.
    fn corner(&self, w: Hwnd) -> Point
        requires { IsNoneOrLive self.now.past w.0 }
        ensures { result ≡ origin self.now.past w.0 }
    {
        if w.0 == 0 {
            return Point { x: 0, y: 0 };
        }
        origin_of(&self.tree, w)
    }

    /// A pixel from the left top corner of a live window, or for 0 of the screen: x in the low word and y in the high word (Microsoft,
    /// WM_MOUSEMOVE message).
    fn packed(&self, w: Hwnd, pixel: Point) -> u64
        requires { IsNoneOrLive self.now.past w.0 }
        ensures { result ≡ packed self.now.past w.0 pixel }
    {
        let start = self.corner(w);
        let x = i64::from(pixel.x) - i64::from(start.x);
        let y = i64::from(pixel.y) - i64::from(start.y);
        low_word(x) + 65536 * low_word(y)
    }

    /// The message of an input, for the window that it goes to now.
    fn handed_out(&self, element: &Element) -> Msg
        ensures { result ≡ handed_out self.now.setup self.now.past element.now }
    {
        let hwnd = self.target(element);
        if is_of_mouse(u64::from(element.message)) {
            return Msg {
                hwnd,
                number: element.message,
                wparam: 0,
                lparam: self.packed(hwnd, element.point),
                time: element.time,
                point: element.point,
            };
        }
        Msg {
            hwnd,
            number: element.message,
            wparam: u64::from(element.key),
            lparam: 1,
            time: element.time,
            point: element.point,
        }
    }

    /// The input that no thread has taken, by rising number.
    pub(super) fn untaken(&self) -> &Inputs
        ensures all { result.now ≡ untaken_at self.now.setup self.now.past }
        ensures homes { AllByRecursion (IsAtHome self.now.setup) (untaken self.now.setup self.now.past) }
    {
        &self.inputs
    }

    /// The first input that a thread may take and that a filter lets pass, with its number: before it none of the thread's group goes to
    /// another thread.
    pub fn next_input(&self, thread: u8, filter: Filter) -> Option<(u32, Msg)>
        requires some { 0 < thread }
        requires known { thread ≤ self.now.setup.threads }
        ensures { result ≡ option_map (told_input self.now.setup self.now.past) (to_take self.now.setup self.now.past thread filter) }
    {
        let taker = |element: &Element| -> Thread
            ensures { result ≡ taker_in self.entry.now.setup self.entry.now.past element.now }
        { self.taker(element) };
        let passes = |element: &Element| -> bool
            ensures { result ≡ passes_in self.entry.now.setup self.entry.now.past filter element.now }
        { self.passes_input(filter, element) };
        let group = self.members(thread);
        match self
            .untaken()
            .first_for(Thread(thread), group, taker, passes)
        {
            Some(element) => Some((element.number, self.handed_out(&element))),
            None => None,
        }
    }
}

/// Whether a filter's range has a number.
fn passes_number(filter: Filter, number: u32) -> bool
    ensures { result ≡ passes_range filter.min filter.max number }
{
    filter.passes_number(number)
}
