//! Threads, windows, messages and filters.

ghost use Rattle.std.specs.Prelude.{◌↔◌, IsTrue};
ghost use Rattle.win_num.specs.Numbers.{passes_range};

use crate::shapes::Point;

/// An actor: 0 is the clock, 1 to 15 are the threads of a script.
#[derive(Clone, Copy, Debug, PartialEq, Eq, PartialOrd, Ord)]
pub struct Thread(pub u8);

/// A window's number, from 16 in order of creation and never used again, or 0 for no window.
#[derive(Clone, Copy, Debug, PartialEq, Eq, PartialOrd, Ord)]
pub struct Hwnd(pub u32);

/// A message as a retrieval hands it out (Microsoft, MSG structure).
#[derive(Clone, Copy, Debug, PartialEq, Eq)]
pub struct Msg {
    /// The window that it is for, or 0.
    pub hwnd: Hwnd,
    /// The message's number, 0 to 65535.
    pub number: u32,
    pub wparam: u64,
    pub lparam: u64,
    /// Milliseconds of the virtual clock when it was posted or injected.
    pub time: u64,
    /// The cursor at that time, in pixels of the screen.
    pub point: Point,
}

/// Which messages a retrieval takes (Microsoft, GetMessage function).
#[derive(Clone, Copy, Debug, PartialEq, Eq)]
pub struct Filter {
    /// 0 for every message of the thread, minus one (2 to the 64th less one) for messages without a
    /// window, or the window that it takes with its descendants.
    pub hwnd: u64,
    /// The least number that it takes.
    pub min: u64,
    /// The greatest number that it takes.
    pub max: u64,
}

impl Filter {
    /// Whether a number is in the range, where the range 0 to 0 has every number.
    pub fn passes_number(&self, number: u32) -> bool
        ensures { IsTrue result ↔ IsTrue (passes_range self.now.min self.now.max number) }
    {
        let number = u64::from(number);
        (self.min == 0 && self.max == 0) || (self.min <= number && number <= self.max)
    }
}
