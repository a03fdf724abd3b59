//! What the calls answer that paint pixels and keep frames.

ghost use Rattle.std.specs.Prelude.{◌≡◌};
ghost use Rattle.user_model.specs.ReplyDrawing.{erase_reply, fill_reply, snap_reply};

use core_deliver::codes::INVALID_PARAMETER;
use core_deliver::{if_own, is_no_rect};
use core_state::{CoreState, Edges};
use user_model::Answer;
use win_num::Code;

/// The highest colour.
const LAST_COLOUR: u64 = 15;

/// How many frames are kept at most.
const FRAME_LIMIT: usize = 256;

/// The answer where a rectangle of a window is to be painted: it is the caller's.
pub fn fill_answer(state: &CoreState, who: u8, w: u64, edges: Edges, colour: u64) -> Answer
    ensures { result ≡ fill_reply state.now.past who w edges.l edges.t edges.r edges.b colour }
{
    if is_no_rect(edges) || colour > LAST_COLOUR {
        return Answer::Refused(INVALID_PARAMETER);
    }
    if_own(state, who, w)
}

/// The answer where a window is to be painted with the colour of its class: it is the caller's.
pub fn erase_answer(state: &CoreState, who: u8, w: u64) -> Answer
    ensures { result ≡ erase_reply state.now.past who w }
{
    if_own(state, who, w)
}

/// The number of the frame that is kept next, where fewer than 256 are.
pub fn snap_answer(state: &CoreState) -> Answer
    ensures { result ≡ snap_reply state.now.past }
{
    let count = state.frame_count();
    if count >= FRAME_LIMIT {
        return Answer::Refused(Code::Full);
    }
    Answer::Snap(count as u32 + 1)
}
