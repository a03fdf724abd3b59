//! What a call is answered, as the clipboard stands.

ghost use Rattle.std.specs.Prelude.{◌≡◌};
ghost use Rattle.clip_board.specs.Clipboards.{answer_of, answer_to_open, answer_to_set, answer_to_get, answer_from, error as error_of, is_by as is_by_of, is_format as is_format_of, has_open as has_open_of, renders as renders_of, window_of};

use crate::entry::{ClipAnswer, ClipCall, FORMAT_LIMIT, Holder, Kept};
use win_num::{Code, Hwnd, Thread};

/// How a clipboard stands for a call that speaks of one format.
#[derive(Clone, Copy, Drop)]
pub struct Standing {
    /// Who has it open.
    pub opened: Option<Holder>,
    pub owner: Option<Holder>,
    /// What is kept of the format.
    pub kept: Option<Kept>,
    /// Whether an ask of the format stands.
    pub asked: bool,
    /// How many formats are there.
    pub formats: usize,
}

/// Refused with an error of Windows.
fn error(number: u16) -> ClipAnswer
    ensures { result ≡ error_of number }
{
    ClipAnswer::Refused(Code::Win(number))
}

/// Whether it is that thread.
fn is_by(who: Thread, holder: Option<Holder>) -> bool
    ensures { result ≡ is_by_of who holder }
{
    match holder {
        Some(holder) => holder.who.0 == who.0,
        None => false,
    }
}

/// Whether it is a format.
fn is_format(format: u32) -> bool
    ensures { result ≡ is_format_of format }
{
    1 <= format && format <= 65535
}

/// The window of a holder. 0 for none.
pub fn window(holder: Option<Holder>) -> Hwnd
    ensures { result ≡ window_of holder }
{
    match holder {
        Some(holder) => holder.hwnd,
        None => Hwnd(0),
    }
}

/// The data that is kept, or the owner who is to be asked for it.
fn from(kept: Option<Kept>, owner: Option<Holder>) -> ClipAnswer
    ensures { result ≡ answer_from kept owner }
{
    match kept {
        Some(Kept::Data(value)) => ClipAnswer::Value(value),
        Some(Kept::Delayed) => match owner {
            Some(owner) => ClipAnswer::Ask(owner.hwnd),
            None => ClipAnswer::Nothing,
        },
        None => ClipAnswer::Nothing,
    }
}

impl Standing {
    /// Whether that thread has the clipboard open.
    fn has_open(&self, who: Thread) -> bool
        ensures { result ≡ has_open_of who self.now }
    {
        is_by(who, self.opened)
    }

    /// Whether an ask of the format stands, and that thread is the owner's.
    fn renders(&self, who: Thread) -> bool
        ensures { result ≡ renders_of who self.now }
    {
        self.asked && is_by(who, self.owner)
    }

    fn to_open(&self) -> ClipAnswer
        ensures { result ≡ answer_to_open self.now }
    {
        if self.opened.is_some() {
            error(5)
        } else {
            ClipAnswer::Done
        }
    }

    fn to_set(&self, who: Thread, format: u32) -> ClipAnswer
        ensures { result ≡ answer_to_set who format self.now }
    {
        if !is_format(format) {
            error(87)
        } else if !self.has_open(who) && !self.renders(who) {
            error(1418)
        } else if self.asked && !is_by(who, self.owner) {
            error(5)
        } else if !self.kept.is_some() && FORMAT_LIMIT <= self.formats {
            ClipAnswer::Refused(Code::Full)
        } else {
            ClipAnswer::Done
        }
    }

    fn to_get(&self, who: Thread, format: u32) -> ClipAnswer
        ensures { result ≡ answer_to_get who format self.now }
    {
        if !is_format(format) {
            error(87)
        } else if self.has_open(who) {
            from(self.kept, self.owner)
        } else {
            error(1418)
        }
    }

    fn to_empty(&self, who: Thread) -> ClipAnswer
        ensures { result ≡ answer_of who ClipCall.Empty self.now }
    {
        if self.has_open(who) {
            ClipAnswer::Was(window(self.owner))
        } else {
            error(1418)
        }
    }

    fn to_close(&self, who: Thread) -> ClipAnswer
        ensures { result ≡ answer_of who ClipCall.Close self.now }
    {
        if self.has_open(who) {
            ClipAnswer::Done
        } else {
            error(1418)
        }
    }

    /// What a call of that thread is answered.
    pub fn answer(&self, who: Thread, call: &ClipCall) -> ClipAnswer
        ensures { result ≡ answer_of who call.now self.now }
    {
        match call {
            ClipCall::Open { .. } => self.to_open(),
            ClipCall::Empty => self.to_empty(who),
            ClipCall::Set { format, .. } => self.to_set(who, *format),
            ClipCall::Delay { format } => self.to_set(who, *format),
            ClipCall::Get { format } => self.to_get(who, *format),
            ClipCall::Close => self.to_close(who),
        }
    }
}
