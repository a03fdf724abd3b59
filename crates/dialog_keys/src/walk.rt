//! The walk over the children of a dialog.

ghost use Rattle.std.specs.Prelude.{◌≡◌, ℕ, Bool, true, List, []};
ghost use Rattle.user_model.specs.Windows.{has_flag as has_flag_of};
ghost use Rattle.user_model.specs.Idle.{least_with};
ghost use Rattle.dialog_keys.specs.declared.key.DialogKey.{DialogKey as Key};
ghost use Rattle.dialog_keys.specs.Controls.{greatest_with, first_with, is_behind as is_behind_of, is_open as is_open_of, next_control};
ghost use Rattle.dialog_keys.specs.Traces.{tells_open as tells_open_of, seen as seen_of, error_of as error_in, child_of as child_in};
ghost use Rattle.dialog_keys.specs.States.{Sums, nearer as nearer_of, farther as farther_of};

use crate::key::DialogKey;
use user_model::Answer;
use win_num::names::{WS_DISABLED, WS_VISIBLE};

/// What is kept of a walk: five windows by their numbers, and the direction.
#[derive(Clone, Copy)]
pub struct Walk {
    pub dialog: u64,
    /// The window that has the focus, or 0.
    pub focus: u64,
    /// Whether the focus moves to greater numbers.
    pub forwards: bool,
    /// The child that it has come to, or 0 before the first.
    pub child: u64,
    /// The first open child behind the focus.
    pub near: Option<u64>,
    /// The first open child of all but the focus.
    pub far: Option<u64>,
}

/// The lesser of a number and one that there may be.
fn least(number: u64, other: Option<u64>) -> u64
    ensures { result ≡ least_with number other }
{
    match other {
        None => number,
        Some(other) => number.min(other),
    }
}

/// The greater of a number and one that there may be.
fn greatest(number: u64, other: Option<u64>) -> u64
    ensures { result ≡ greatest_with number other }
{
    match other {
        None => number,
        Some(other) => number.max(other),
    }
}

/// Whether the style has all of these bits.
fn has_flag(style: u64, bits: u64) -> bool
    ensures { result ≡ has_flag_of style bits }
{
    style & bits == bits
}

/// Whether a control of that style is open to the focus: it is shown and not disabled.
fn is_open(style: u64) -> bool
    ensures { result ≡ is_open_of style }
{
    has_flag(style, WS_VISIBLE) && !has_flag(style, WS_DISABLED)
}

/// Whether the answer to a `style_of` says that the child is open.
pub fn tells_open(answer: &Answer) -> bool
    ensures { result ≡ tells_open_of answer.now }
{
    match answer {
        Answer::Value(style) => is_open(*style),
        _ => false,
    }
}

/// The number of the error, where the call was refused.
pub fn error_of(answer: &Answer) -> Option<u16>
    ensures { result ≡ error_in answer.now }
{
    match answer {
        Answer::Refused(code) => Some(code.number()),
        _ => None,
    }
}

/// The child that a `child_after` gives. None where it gives 0.
pub fn child_of(answer: &Answer) -> Option<u64>
    ensures { result ≡ child_in answer.now }
{
    match answer {
        Answer::Window(child) => {
            if child.0 == 0 {
                None
            } else {
                Some(u64::from(child.0))
            }
        }
        _ => None,
    }
}

impl Walk {
    /// The walk before its first child.
    pub fn new(key: DialogKey, forwards: bool) -> Walk
        ensures { Sums result key forwards [] 0 }
    {
        Walk {
            dialog: u64::from(key.dialog.0),
            focus: u64::from(key.focus.0),
            forwards,
            child: 0,
            near: None,
            far: None,
        }
    }

    /// Whether the child comes behind the focus.
    fn is_behind(self) -> bool
        ensures { result ≡ is_behind_of self.forwards self.focus self.child }
    {
        if self.forwards {
            self.focus < self.child
        } else {
            self.child < self.focus
        }
    }

    /// The first of the child and a window that there may be.
    fn foremost(self, other: Option<u64>) -> u64
        ensures { result ≡ first_with self.forwards self.child other }
    {
        if self.forwards {
            least(self.child, other)
        } else {
            greatest(self.child, other)
        }
    }

    /// The first open child behind the focus, where its child is open.
    fn nearer(self) -> Option<u64>
        ensures { result ≡ nearer_of self.forwards self.focus self.child self.near }
    {
        if self.is_behind() {
            Some(self.foremost(self.near))
        } else {
            self.near
        }
    }

    /// The first open child of all but the focus, where its child is open.
    fn farther(self) -> Option<u64>
        ensures { result ≡ farther_of self.forwards self.focus self.child self.far }
    {
        if self.child == self.focus {
            self.far
        } else {
            Some(self.foremost(self.far))
        }
    }

    /// The walk has come to that child.
    pub fn at(self, child: u64) -> Walk
        ensures { (k : Key) (forwards : Bool) (ws : List ℕ) (v : ℕ) → Sums self k forwards ws v → Sums result k forwards ws child }
    {
        Walk { child, ..self }
    }

    /// Its child is open.
    fn with_open(self) -> Walk
        ensures { (k : Key) (forwards : Bool) (ws : List ℕ) (w : ℕ) → Sums self k forwards ws w → Sums result k forwards (seen_of ws w true) w }
    {
        Walk {
            near: self.nearer(),
            far: self.farther(),
            ..self
        }
    }

    /// The `style_of` of its child is answered.
    pub fn seen(self, answer: &Answer) -> Walk
        ensures { (k : Key) (forwards : Bool) (ws : List ℕ) (w : ℕ) → Sums self k forwards ws w → Sums result k forwards (seen_of ws w (tells_open_of answer.now)) w }
    {
        if tells_open(answer) {
            self.with_open()
        } else {
            self
        }
    }

    /// The next control, where the walk is over.
    pub fn next_control(self) -> Option<u64>
        ensures { (k : Key) (forwards : Bool) (ws : List ℕ) (v : ℕ) → Sums self k forwards ws v → result ≡ next_control forwards k.focus.0 ws }
    {
        self.near.or(self.far)
    }
}
