//! The numbers of the messages of a conversation, under their names.

/// A conversation is to begin (Microsoft, WM_DDE_INITIATE message).
pub const WM_DDE_INITIATE: u32 = 992;

/// The conversation is over (Microsoft, WM_DDE_TERMINATE message).
pub const WM_DDE_TERMINATE: u32 = 993;

/// Whether what was asked could be done (Microsoft, WM_DDE_ACK message).
pub const WM_DDE_ACK: u32 = 996;

/// The value of an item (Microsoft, WM_DDE_DATA message).
pub const WM_DDE_DATA: u32 = 997;

/// An item's value is asked for (Microsoft, WM_DDE_REQUEST message).
pub const WM_DDE_REQUEST: u32 = 998;

/// An item is to have a value (Microsoft, WM_DDE_POKE message).
pub const WM_DDE_POKE: u32 = 999;

/// A command is to be executed (Microsoft, WM_DDE_EXECUTE message).
pub const WM_DDE_EXECUTE: u32 = 1000;
