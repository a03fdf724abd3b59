//! What can be told of an element without reading it.

ghost use Rattle.std.specs.Prelude.{◌≡◌, Some, option_map};
ghost use Rattle.input_queue.specs.Rows.{earlier_of, later_of, spot_in};

/// What a glance at an element tells.
#[derive(Clone, Copy)]
pub(crate) struct Glance {
    pub(crate) number: u32,
    /// The number of its message.
    pub(crate) message: u32,
}

/// In which list an element lies, and its number.
#[derive(Clone, Copy)]
pub(crate) struct Spot {
    /// The thread that it was meant for, 0 to 15.
    pub(crate) home: usize,
    pub(crate) number: u32,
}

/// The one of the greater number of two that may be there.
pub(crate) fn later(one: Option<Glance>, other: Option<Glance>) -> Option<Glance>
    ensures { result ≡ later_of one other }
{
    match (one, other) {
        (Some(x), Some(y)) if x.number < y.number => Some(y),
        (Some(x), _) => Some(x),
        (None, y) => y,
    }
}

/// The one of the lesser number of two that may be there.
pub(crate) fn earlier(one: Option<Spot>, other: Spot) -> Spot
    ensures { Some result ≡ earlier_of one (Some other) }
{
    match one {
        Some(x) if other.number < x.number => other,
        Some(x) => x,
        None => other,
    }
}

/// The one of the lesser number of one that may be there and an element of a home, if it has one.
pub(crate) fn nearer(one: Option<Spot>, home: usize, number: Option<u32>) -> Option<Spot>
    ensures { result ≡ earlier_of one (option_map (spot_in home) number) }
{
    match number {
        Some(number) => Some(earlier(one, Spot { home, number })),
        None => one,
    }
}
