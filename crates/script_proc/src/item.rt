//! What a thread has left to do, one thing after another.

use script_tree::{Parameters, Place, Run};
use user_model::{Answer, Call};
use win_num::Frame;

/// One thing that is left to do.
#[derive(Clone, Copy)]
pub enum Item {
    /// The lines of the program from a place on.
    At(usize),
    /// The `while` at a place once more.
    Once(usize),
    /// The end of a pass of the `while` at a place, which began after so many entries.
    PassEnd(usize, u32),
    /// A call, made until its answer is that of no attempt.
    Making(Call),
    /// The same call once more, after the procedure of an attempt.
    Again(Call),
    /// The answer is given, with the result of the procedure that ran for it, or without one.
    Giving(Answer),
    /// A statement that began with this call sets `r` and `err`.
    Settle(Call),
    /// The `yield` of a `while` sets nothing.
    Quiet,
    /// The `clock` of a `sleep` of so many milliseconds.
    Sleeping(u64),
    /// A procedure begins to run.
    Running(Run),
    /// The end of a procedure.
    Leaving(Run),
    /// The `leave` of a frame, with its result.
    Leaves(Frame, u64),
    /// The result of a procedure stays, whatever its `leave` or the default procedure was answered.
    Left(u64),
    /// The parameters of the procedure around come back.
    Restore(Parameters),
    /// A compound takes the answer to its call, or that of the compound inside of it.
    Feed(Place),
}

/// What one item hands to the next.
#[derive(Clone, Copy)]
pub enum Mode {
    /// Nothing.
    Going,
    /// The value of a `return`, or the result of a procedure.
    Returning(u64),
    /// The answer to a call, and its result.
    Given(Answer, u64),
}

/// What a thread does next.
#[derive(Clone, Copy)]
pub enum Next {
    /// The last item.
    Top,
    /// The lines of the program from a place on, above the items.
    Line(usize),
    /// The call of a statement, which then sets `r` and `err`, and the lines from a place on behind it.
    Stating(usize),
}

/// A few items, the next one last.
#[derive(Clone, Copy)]
pub enum Few {
    Nothing,
    Single(Item),
    Two(Item, Item),
    Three(Item, Item, Item),
    Four(Item, Item, Item, Item),
    Five(Item, Item, Item, Item, Item),
}
