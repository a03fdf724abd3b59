//! The calls of delivery, answered from the state: retrievals, the status of a queue, posts, dispatches, sends, the calls inside
//! them, and the registration of messages.
//!
//! `admission` decides what keeps a thread from any call, `delivery` posts and retrievals, `sends` dispatches,
//! sends and the calls inside them, `status_words` the status of a queue, `messages` registrations. `calls` joins them and adds the entry. `groups` says
//! which layer answers a call, `refusals` has the tests that layers share.
#![tactic(auto)]

mod admission;
mod calls;
pub mod codes;
mod delivery;
mod groups;
mod messages;
mod refusals;
mod sends;
mod status_words;

pub use admission::admit;
pub use calls::{
    deliver, deliver_in, delivery_answer, enter, retrieval_answer, retrieve, retrieve_in, status,
};
pub use groups::{
    Group, group_of, is_delivery, is_drawing, is_retrieval, is_status, is_window_call,
};
pub use refusals::{if_live, if_own, is_no_rect};
