//! The steps of a run.

/// Where a run stands: the thread that moved last, or 0, and how many switches there were.
#[derive(Clone, Copy)]
pub struct Position {
    pub last: u8,
    pub switches: u16,
}

/// A step of a run: who moved, a thread or 0 for the clock, whether it is one of those that decide which part
/// the run is of, where the run stood, and the next thread above it that might have moved in its place.
#[derive(Clone, Copy)]
pub struct Step {
    pub mover: u8,
    pub counted: bool,
    pub position: Position,
    pub next: Option<u8>,
}
