//! What a party answers to a frame.

use mv_repository::Effect;

/// What was done with a frame.
#[derive(Clone, Copy, PartialEq, Eq)]
pub enum Taken {
    /// Its item was applied to this effect, and the answer that it calls for is the party's submission of this number.
    Applied { effect: Effect, answer: Option<u32> },
    /// Its item was applied before.
    Old,
    /// Frames before it are missing; the next is `expected`.
    Gap { expected: u32 },
}
