//! The parties that a message reaches.

ghost use Rattle.std.specs.Prelude.{◌≡◌, ◌≤◌, length};
ghost use Rattle.std.specs.List.Sorted.{IsStrictlyIncreasing};

use crate::PARTIES_LIMIT;
use arrayvec::ArrayVec;
use mv_message::Party;
use std::marker::Model;

/// A set of parties, in ascending order. It takes no memory of its own.
#[derive(Clone, PartialEq, Eq, Drop)]
pub struct Reach {
    /// The parties, ascending.
    parties: ArrayVec<Party, PARTIES_LIMIT>,
}

impl Model for Reach {
    ghost use Rattle.std.specs.Prelude.{ℕ, List};
    ghost use Rattle.std.specs.List.Sorted.{IsStrictlyIncreasing};

    ghost Value = { List ℕ };

    ghost view = { λ reach. reach.parties.items };

    ghost invariant = { λ reach. IsStrictlyIncreasing reach.parties.items };

    ghost inverse = { λ parties. record { parties = record { items = parties } } };
}

impl Reach {
    /// The set of these parties, each of which is greater than the one before it.
    pub fn new(parties: ArrayVec<Party, PARTIES_LIMIT>) -> Reach
        requires { IsStrictlyIncreasing parties.items }
        ensures { result ≡ parties.items }
    {
        Reach { parties }
    }

    /// The parties, ascending.
    pub fn as_slice(&self) -> &[Party]
        ensures value { result.now ≡ self.now }
        ensures ascending { IsStrictlyIncreasing result.now }
        ensures few { length result.now ≤ PARTIES_LIMIT }
    {
        self.parties.as_slice()
    }
}
