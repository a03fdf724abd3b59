//! One row for each call of the machine: its word and the kinds of its fields.
//!
//! A call is its name and the values of its fields, in the order in which scripts and logs write them
//! (`split_call`), and is made of them again (`call_of_parts`). What reads or writes calls is a loop over
//! fields. Each group of calls has its rows in a file of its own.
#![tactic(auto)]

mod calls;
mod clock;
mod delivery;
mod drawing;
mod input;
mod lookups;
mod registrations;
mod replies;
mod sends;
mod split;
mod windows;

pub use calls::{
    CallName, call_form, call_name, call_named, call_of_parts, call_parts, split_call,
};
pub use clock::ClockCall;
pub use delivery::DeliveryCall;
pub use drawing::DrawingCall;
pub use input::InputCall;
pub use lookups::LookupCall;
pub use registrations::RegistrationCall;
pub use replies::ReplyCall;
pub use sends::SendCall;
pub use split::SplitCall;
pub use windows::WindowCall;
