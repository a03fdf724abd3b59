//! The codes of refusals (Microsoft, System Error Codes).

use win_num::Code;

/// The window is another thread's.
pub const ACCESS_DENIED: Code = Code::Win(5);

/// A number is out of its range, or the window isn't ready for the call.
pub const INVALID_PARAMETER: Code = Code::Win(87);

/// The stack has 64 frames.
pub const STACK_OVERFLOW: Code = Code::Win(1001);

/// No live window, or one that is marked.
pub const INVALID_WINDOW_HANDLE: Code = Code::Win(1400);

/// No thread, or one that has ended.
pub const INVALID_THREAD_ID: Code = Code::Win(1444);

/// The queue of posted messages is full.
pub const NOT_ENOUGH_QUOTA: Code = Code::Win(1816);
