//! Who makes a call.

ghost use Rattle.user_core.specs.Actors.{IsActorOf};

use win_num::Thread;

/// Who makes a call: the clock, whose number is 0 outside, or an actor of another number, which may be a
/// thread's.
#[derive(Clone, Copy)]
pub enum Actor {
    /// The clock.
    Clock,
    /// The actor of this number, from 1 on.
    Numbered(u8),
}

/// The actor of a number.
pub fn actor_of(who: Thread) -> Actor
    ensures { IsActorOf who.0 result }
{
    match who.0 {
        0 => Actor::Clock,
        number => Actor::Numbered(number),
    }
}
