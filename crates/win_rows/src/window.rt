//! A live window.

ghost use Rattle.std.specs.Prelude.{◌≡◌};
ghost use Rattle.win_rows.specs.Windows.{up, made, told_if, ended_if, set_if, marked_also, marked_if};

use crate::row::WindowRow;
use win_num::{Hwnd, Rect};

/// A live window.
#[derive(Clone, Copy, Drop)]
pub struct Window {
    pub number: Hwnd,
    pub row: WindowRow,
    /// Whether it is marked for destruction.
    pub marked: bool,
    /// Whether it was told.
    pub told: bool,
    /// Whether it got its last message.
    pub ended: bool,
}

impl Window {
    /// A new window.
    pub fn new(number: Hwnd, row: WindowRow) -> Self
        ensures { result ≡ made number row }
    {
        Window {
            number,
            row,
            marked: false,
            told: false,
            ended: false,
        }
    }

    /// Its parent, or else its owner, or 0.
    pub fn up(&self) -> Hwnd
        ensures { result ≡ up self.now }
    {
        if self.row.parent == Hwnd(0) {
            self.row.owner
        } else {
            self.row.parent
        }
    }

    /// The same, told if it is this window.
    pub fn told_if(&self, window: Hwnd) -> Self
        ensures { result ≡ told_if window.0 self.now }
    {
        Window {
            told: self.told || self.number == window,
            ..*self
        }
    }

    /// The same, with its last message given if it is this window.
    pub fn ended_if(&self, window: Hwnd) -> Self
        ensures { result ≡ ended_if window.0 self.now }
    {
        Window {
            ended: self.ended || self.number == window,
            ..*self
        }
    }

    /// The same, marked also if this holds.
    pub fn marked_also(&self, also: bool) -> Self
        ensures { result ≡ marked_also also self.now }
    {
        Window {
            marked: self.marked || also,
            ..*self
        }
    }

    /// The same, marked also if it is this window.
    pub fn marked_if(&self, window: Hwnd) -> Self
        ensures { result ≡ marked_if window.0 self.now }
    {
        self.marked_also(self.number == window)
    }

    /// The same, with this style and place if it is this window.
    pub fn set_if(&self, window: Hwnd, style: u32, ex: u32, place: Rect) -> Self
        ensures { result ≡ set_if window.0 style ex place self.now }
    {
        if self.number != window {
            return *self;
        }
        Window {
            row: WindowRow {
                style,
                ex,
                place,
                ..self.row
            },
            ..*self
        }
    }
}
