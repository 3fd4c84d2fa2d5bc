//! The end of one ring that is taken from.

ghost use Rattle.std.specs.Prelude.{◌≡◌, ◌-◌, drop, length, None, option_to_list};
ghost use Rattle.mv_ends.specs.Words.{received};

use crate::parcel::Parcel;
use rtrb::Consumer;

/// The end of one ring, and what was opened of it.
#[derive(Drop)]
pub(crate) struct Inlet<T> {
    /// The end.
    pub(crate) ring: Consumer<Parcel<T>>,
    /// What was taken off the ring and opened, and is not taken yet.
    pub(crate) hand: Option<T>,
    /// What is in hand left the ring last.
    ghost last: { drop (length (received ring) - length (option_to_list hand)) (received ring) ≡ option_to_list hand },
}

impl<T: Drop> Inlet<T> {
    /// The end of a ring that was not used yet.
    #[tactic(auto, using(crate::proofs::HandLemmas::none_last))]
    pub(crate) fn new(ring: Consumer<Parcel<T>>) -> Inlet<T>
        ensures ring { result.ring ≡ ring }
        ensures hand { result.hand ≡ None }
    {
        Inlet { ring, hand: None }
    }
}
