//! How compound statements begin, and where they go on.

ghost use Rattle.std.specs.Prelude.{◌≡◌};
ghost use Rattle.script_tree.specs.Compounds.{sent as sent_of, creation as creation_of, destruction as destruction_of, cleaning as cleaning_of, erasing as erasing_of, notifying as notifying_of, broadcasting as broadcasting_of, activates as activates_of, default_begin, default_result as default_of, undoes as undoes_of, unmakes as unmakes_of, compound_after, after_making as making_leads, after_greeting as greeting_leads, after_telling as telling_leads, after_dooming as dooming_leads, after_unmaking as unmaking_leads, after_default as default_leads, notice_call, reach as reach_of, notifies as notifies_of, after_calling as calling_leads, after_seeking as seeking_leads, seeks as seeks_of, pumping as pumping_of, dialog_begin as dialog_of};

use crate::frame::{Begin, Broadcast, Lead, Modal, Notice, Notices, Place, Spread};
use crate::messages::{
    WM_ACTIVATE, WM_CANCELMODE, WM_CLOSE, WM_CREATE, WM_DESTROY, WM_ERASEBKGND, WM_NCCREATE,
    WM_NCDESTROY, WM_PAINT,
};
use crate::modal::{
    after_asking, after_disabling, after_getting, after_opening, dispatches, finishes, turns,
};
use crate::notifying::{notices_after, result_after, told_number};
use crate::variables::Parameters;
use user_model::{Answer, Call};
use win_num::Hwnd;

impl Begin {
    /// `create`, with the call that makes the window.
    pub fn creation(call: Call) -> Begin
        ensures { result ≡ creation_of call }
    {
        Begin {
            call,
            place: Place::Making,
        }
    }

    /// `destroy` of the window of this number.
    pub fn destruction(window: u64) -> Begin
        ensures { result ≡ destruction_of window }
    {
        Begin {
            call: Call::Doom(window),
            place: Place::Dooming(window),
        }
    }

    /// The call that makes all of the window of this number clean. No window is wider or higher than 4096
    /// pixels.
    fn cleaning(window: u64) -> Begin
        ensures { result ≡ cleaning_of window }
    {
        Begin {
            call: Call::Validate(window, 0, 0, 4096, 4096),
            place: Place::Single,
        }
    }

    /// The call that paints the window of this number with the colour of its class.
    fn erasing(window: u64) -> Begin
        ensures { result ≡ erasing_of window }
    {
        Begin {
            call: Call::Erase(window),
            place: Place::Single,
        }
    }

    /// A compound that makes this call and then sends messages.
    pub fn notifying(call: Call) -> Begin
        ensures { result ≡ notifying_of call }
    {
        Begin {
            call,
            place: Place::Calling(call),
        }
    }

    /// A compound that brings this message to each top-level window.
    pub fn broadcasting(broadcast: Broadcast) -> Begin
        ensures { result ≡ broadcasting_of broadcast }
    {
        Begin {
            call: Call::NextTop(0),
            place: Place::Seeking(broadcast),
        }
    }

    /// `pump`, with its first `get`.
    pub fn pumping() -> Begin
        ensures { result ≡ pumping_of }
    {
        Begin {
            call: Call::Get(0, 0, 0),
            place: Place::Getting(Modal::Pump),
        }
    }

    /// `dialog` on the window of this number.
    pub fn dialog(window: u64) -> Begin
        ensures { result ≡ dialog_of window }
    {
        Begin {
            call: Call::BeginDialog(window),
            place: Place::Opening(window),
        }
    }
}

impl Parameters {
    /// Whether the message makes its window the active one (Microsoft, WM_ACTIVATE message).
    fn activates(&self) -> bool
        ensures { result ≡ activates_of self.now }
    {
        self.number == u64::from(WM_ACTIVATE) && self.wparam != 0
    }

    /// The compound inside of the default procedure for this message, if there is one: it destroys a window
    /// that is to close, makes one clean that is to paint, paints one whose background is to be painted, gives
    /// one the focus that becomes the active one, and takes the capture away where what is going on is to be
    /// left (Microsoft, WM_CLOSE, WM_PAINT, WM_ERASEBKGND, WM_ACTIVATE and WM_CANCELMODE messages).
    pub fn default_begin(&self) -> Option<Begin>
        ensures { result ≡ default_begin self.now }
    {
        if self.number == u64::from(WM_CLOSE) {
            Some(Begin::destruction(self.hwnd))
        } else if self.number == u64::from(WM_PAINT) {
            Some(Begin::cleaning(self.hwnd))
        } else if self.number == u64::from(WM_ERASEBKGND) {
            Some(Begin::erasing(self.hwnd))
        } else if self.activates() {
            Some(Begin::notifying(Call::SetFocus(self.hwnd)))
        } else if self.number == u64::from(WM_CANCELMODE) {
            Some(Begin::notifying(Call::ReleaseCapture))
        } else {
            None
        }
    }

    /// The result of the default procedure for this message (Microsoft, WM_NCCREATE and WM_ERASEBKGND messages).
    pub fn default_result(&self) -> u64
        ensures { result ≡ default_of self.now }
    {
        if self.number == u64::from(WM_NCCREATE) || self.number == u64::from(WM_ERASEBKGND) {
            1
        } else {
            0
        }
    }
}

impl Place {
    /// What the compound does after its call, or the compound inside of it, was answered so, with this
    /// result of the procedure that ran for it.
    pub fn after(self, answer: &Answer, value: u64) -> Lead
        ensures { result ≡ compound_after self answer.now value }
    {
        match self {
            Place::Making => after_making(answer),
            Place::Greeting(window) => after_greeting(window, value),
            Place::Telling(window) => after_telling(window, answer, value),
            Place::Undoing => Lead::Ends(Answer::Value(0)),
            Place::Dooming(window) => after_dooming(window, answer),
            Place::Unmaking(window) => after_unmaking(window, answer),
            Place::Destroying(window) => unmakes(window),
            Place::Parting(window, part) => Lead::Calls(Call::Drop(part), Place::Dropping(window)),
            Place::Dropping(window) => unmakes(window),
            Place::Single => Lead::Ends(*answer),
            Place::Calling(call) => after_calling(&call, answer),
            Place::Notifying(notices, end) => notifies(notices, end),
            Place::Seeking(broadcast) => after_seeking(broadcast, answer),
            Place::Reaching(broadcast, window) => seeks(broadcast, window),
            Place::Getting(modal) => after_getting(modal, answer),
            Place::Translating(modal, msg) => dispatches(modal, &msg),
            Place::Dispatching(modal) => turns(modal),
            Place::Opening(window) => after_opening(window, answer),
            Place::Disabling(dialog) => after_disabling(dialog, answer),
            Place::Asking(dialog) => after_asking(dialog, answer),
            Place::Requitting(dialog) => finishes(dialog),
            Place::Finishing(dialog) => turns(Modal::Dialog(dialog)),
            Place::Enabling(end) => Lead::Ends(end),
            Place::Defaulting(result) => after_default(result, answer),
        }
    }
}

fn sent(window: u64, number: u32) -> Call
    ensures { result ≡ sent_of window number }
{
    Call::Send(window, u64::from(number), 0, 0)
}

/// The new window is destroyed.
fn undoes(window: u64) -> Lead
    ensures { result ≡ undoes_of window }
{
    Lead::Runs(Begin::destruction(window), Place::Undoing)
}

/// The next step of a destruction.
fn unmakes(window: u64) -> Lead
    ensures { result ≡ unmakes_of window }
{
    Lead::Calls(Call::Unmake(window), Place::Unmaking(window))
}

/// Whether a window was made.
fn after_making(answer: &Answer) -> Lead
    ensures { result ≡ making_leads answer.now }
{
    match answer {
        Answer::Window(Hwnd(window)) => {
            let window = u64::from(*window);
            Lead::Calls(sent(window, WM_NCCREATE), Place::Greeting(window))
        }
        Answer::Refused(code) => Lead::Ends(Answer::Refused(*code)),
        _ => Lead::Ends(Answer::Value(0)),
    }
}

/// Whether the new window may be.
fn after_greeting(window: u64, value: u64) -> Lead
    ensures { result ≡ greeting_leads window value }
{
    if value == 0 {
        undoes(window)
    } else {
        Lead::Calls(sent(window, WM_CREATE), Place::Telling(window))
    }
}

/// Whether the new window stays.
fn after_telling(window: u64, answer: &Answer, value: u64) -> Lead
    ensures { result ≡ telling_leads window answer.now value }
{
    match answer {
        Answer::Refused(_) => undoes(window),
        _ => {
            if value == 18446744073709551615 {
                undoes(window)
            } else {
                Lead::Ends(Answer::Value(window))
            }
        }
    }
}

/// Whether the windows are marked.
fn after_dooming(window: u64, answer: &Answer) -> Lead
    ensures { result ≡ dooming_leads window answer.now }
{
    match answer {
        Answer::Refused(code) => Lead::Ends(Answer::Refused(*code)),
        _ => unmakes(window),
    }
}

/// The step that comes.
fn after_unmaking(window: u64, answer: &Answer) -> Lead
    ensures { result ≡ unmaking_leads window answer.now }
{
    match answer {
        Answer::Tell(told) => Lead::Calls(
            sent(u64::from(told.0), WM_DESTROY),
            Place::Destroying(window),
        ),
        Answer::Last(part) => {
            let part = u64::from(part.0);
            Lead::Calls(sent(part, WM_NCDESTROY), Place::Parting(window, part))
        }
        Answer::Refused(code) => Lead::Ends(Answer::Refused(*code)),
        _ => Lead::Ends(Answer::Value(1)),
    }
}

/// The default procedure's result, or the refusal of the compound inside of it.
fn after_default(value: u64, answer: &Answer) -> Lead
    ensures { result ≡ default_leads value answer.now }
{
    match answer {
        Answer::Refused(refusal) => Lead::Ends(Answer::Refused(*refusal)),
        _ => Lead::Ends(Answer::Value(value)),
    }
}

/// A message of a compound is sent.
fn notified(notice: &Notice) -> Call
    ensures { result ≡ notice_call notice.now }
{
    Call::Send(
        notice.window,
        u64::from(notice.number),
        notice.wparam,
        notice.lparam,
    )
}

/// The next of these messages is sent, and where there is none the compound ends with this result.
fn notifies(notices: Notices, value: u64) -> Lead
    ensures { result ≡ notifies_of notices value }
{
    match notices.next() {
        Some(notice) => Lead::Calls(notified(&notice), Place::Notifying(notices.others(), value)),
        None => Lead::Ends(Answer::Value(value)),
    }
}

/// The messages behind its first call, unless that is refused.
fn after_calling(call: &Call, answer: &Answer) -> Lead
    ensures { result ≡ calling_leads call.now answer.now }
{
    match answer {
        Answer::Refused(code) => Lead::Ends(Answer::Refused(*code)),
        _ => {
            let told = told_number(answer);
            notifies(notices_after(call, told), result_after(call, told))
        }
    }
}

/// The message goes to this window.
fn reach(broadcast: &Broadcast, window: u64) -> Call
    ensures { result ≡ reach_of broadcast.now window }
{
    match broadcast.spread {
        Spread::Posts => Call::Post(window, broadcast.number, broadcast.wparam, broadcast.lparam),
        Spread::Notifies => Call::SendNotify(
            window,
            broadcast.number,
            broadcast.wparam,
            broadcast.lparam,
        ),
    }
}

/// The message goes to the next top-level window, if there is one.
fn after_seeking(broadcast: Broadcast, answer: &Answer) -> Lead
    ensures { result ≡ seeking_leads broadcast answer.now }
{
    match answer {
        Answer::Refused(code) => Lead::Ends(Answer::Refused(*code)),
        _ => {
            let window = told_number(answer);
            if window == 0 {
                return Lead::Ends(Answer::Value(1));
            }
            Lead::Calls(
                reach(&broadcast, window),
                Place::Reaching(broadcast, window),
            )
        }
    }
}

/// The top-level window behind this one is asked for.
fn seeks(broadcast: Broadcast, window: u64) -> Lead
    ensures { result ≡ seeks_of broadcast window }
{
    Lead::Calls(Call::NextTop(window), Place::Seeking(broadcast))
}
