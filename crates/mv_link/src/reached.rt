//! The reach of a message as its receipt keeps it.

ghost use Rattle.std.specs.Prelude.{◌≡◌, nat_eq};
ghost use Rattle.std.specs.Cmp.{partial_equiv_from_equiv};
ghost use Rattle.std.specs.Cmp.Lexicographic.{pointwise, nat_list_eq_equiv};
ghost use Rattle.mv_link.specs.PartySets.{parties_in};

use crate::{PartySet, Reach};
use std::marker::Model;

/// The parties that a message reached. It takes no memory. Contracts see the list of them, ascending.
#[derive(Drop)]
pub struct Reached {
    /// These parties.
    parties: PartySet,
}

impl Model for Reached {
    ghost use Rattle.std.specs.Prelude.{ℕ, List};
    ghost use Rattle.mv_link.specs.PartySets.{parties_in};

    ghost Value = { List ℕ };

    ghost view = { λ reached. parties_in reached.parties };
}

impl Reached {
    /// The parties of a set.
    pub fn of(parties: PartySet) -> Reached
        ensures { result ≡ parties_in parties }
    {
        Reached { parties }
    }

    /// The same parties.
    pub fn copy(&self) -> Reached
        ensures { result ≡ self.now }
    {
        Reached {
            parties: self.parties,
        }
    }

    /// The parties as a set.
    pub fn parties(&self) -> PartySet
        ensures { parties_in result ≡ self.now }
    {
        self.parties
    }

    /// The parties as a list, ascending.
    pub fn to_reach(&self) -> Reach
        ensures { result ≡ self.now }
    {
        self.parties.to_reach()
    }
}

impl PartialEq for Reached {
    ghost eq = { pointwise nat_eq };

    ghost laws = { partial_equiv_from_equiv nat_list_eq_equiv };

    fn eq(&self, other: &Self) -> bool {
        self.to_reach().as_slice() == other.to_reach().as_slice()
    }
}

impl Eq for Reached {
    ghost laws = { nat_list_eq_equiv };
}
