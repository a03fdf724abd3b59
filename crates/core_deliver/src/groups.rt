//! Which layer answers a call.

ghost use Rattle.std.specs.Prelude.{◌≡◌};
ghost use Rattle.core_deliver.specs.Groups.{group_of, is_delivery, is_drawing, is_retrieval, is_status, is_window_call};

use user_model::Call;

/// Who answers a call, and in which group.
#[derive(Clone, Copy, Debug, PartialEq, Eq)]
pub enum Group {
    /// It asks for a message: a get or a peek.
    Retrieval,
    /// It asks which kinds of messages are there.
    Status,
    /// It posts, also the character of a key, dispatches, sends, is made inside or after a send, or registers a message.
    Delivery,
    /// It is about classes or windows, focus, active window, capture, attached threads, the mouse, keys or dialogs, or ends a thread, and `core_window` answers it.
    Window,
    /// It is about dirty pixels, painting, colours and frames, and `core_draw` answers it.
    Drawing,
    /// It is about time or timers, and the machine answers it.
    Other,
}

/// The group of each call.
#[inline(always)]
pub fn group_of(call: &Call) -> Group
    ensures { result ≡ group_of call.now }
{
    match *call {
        Call::Peek(..) | Call::Get(..) => Group::Retrieval,
        Call::Status(_) => Group::Status,
        Call::Post(..)
        | Call::PostThread(..)
        | Call::PostQuit(..)
        | Call::Dispatch(..)
        | Call::Send(..)
        | Call::SendTimeout(..)
        | Call::SendNotify(..)
        | Call::SendCallback(..)
        | Call::Await(..)
        | Call::Leave(..)
        | Call::Reply(..)
        | Call::InSend
        | Call::Message(..)
        | Call::Translate(..) => Group::Delivery,
        Call::Invalidate(..)
        | Call::Validate(..)
        | Call::UpdateRect(..)
        | Call::BeginPaint(..)
        | Call::EndPaint(..)
        | Call::Fill(..)
        | Call::Erase(..)
        | Call::Snap => Group::Drawing,
        Call::SetTimer(..)
        | Call::KillTimer(..)
        | Call::Clock
        | Call::SleepUntil(..)
        | Call::Yield
        | Call::Tick(..)
        | Call::Advance => Group::Other,
        _ => Group::Window,
    }
}

/// Whether the call asks for a message: a get or a peek.
pub fn is_retrieval(call: &Call) -> bool
    ensures { result ≡ is_retrieval call.now }
{
    match group_of(call) {
        Group::Retrieval => true,
        Group::Status | Group::Delivery | Group::Window | Group::Drawing | Group::Other => false,
    }
}

/// Whether the call asks which kinds of messages are there.
pub fn is_status(call: &Call) -> bool
    ensures { result ≡ is_status call.now }
{
    match group_of(call) {
        Group::Status => true,
        Group::Retrieval | Group::Delivery | Group::Window | Group::Drawing | Group::Other => false,
    }
}

/// Whether the call posts, also the character of a key, dispatches, sends, is made inside or after a send, or registers a message.
pub fn is_delivery(call: &Call) -> bool
    ensures { result ≡ is_delivery call.now }
{
    match group_of(call) {
        Group::Delivery => true,
        Group::Retrieval | Group::Status | Group::Window | Group::Drawing | Group::Other => false,
    }
}

/// Whether the call is about classes, windows, groups of attached threads, the mouse, keys or dialogs, or ends a thread.
pub fn is_window_call(call: &Call) -> bool
    ensures { result ≡ is_window_call call.now }
{
    match group_of(call) {
        Group::Window => true,
        Group::Retrieval | Group::Status | Group::Delivery | Group::Drawing | Group::Other => false,
    }
}

/// Whether the call is about dirty pixels, painting, colours or frames.
pub fn is_drawing(call: &Call) -> bool
    ensures { result ≡ is_drawing call.now }
{
    match group_of(call) {
        Group::Drawing => true,
        Group::Retrieval | Group::Status | Group::Delivery | Group::Window | Group::Other => false,
    }
}
