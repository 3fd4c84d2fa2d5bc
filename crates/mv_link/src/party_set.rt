//! A set of parties in one machine word. No other code knows of its bits: all else sees which parties a set has.

ghost use Rattle.std.specs.Prelude.{◌≡◌, ◌<◌, ◌==◌, ◌&&◌, ◌||◌, ℕ, [], ◌∷◌, length, not, true, false, MatchOption};
ghost use Rattle.mv_link.specs.PartySets.{has_party, parties_in};

use crate::{PARTIES_LIMIT, Reach};
use arrayvec::ArrayVec;
use mv_message::Party;

/// A set of parties. It takes no memory.
#[derive(Clone, Copy)]
pub struct PartySet {
    /// The bit at the place of a party, counted from the lowest, says whether the set has it.
    bits: u64,
}

impl PartySet {
    /// The set of no party.
    #[tactic(auto, using(crate::proofs::PartySetLemmas::empty_has))]
    pub fn none() -> PartySet
        ensures { (party : ℕ) → has_party result party ≡ false }
    {
        PartySet { bits: 0 }
    }

    /// The set of all parties that there can be.
    #[tactic(auto, using(crate::proofs::PartySetLemmas::has_all))]
    pub fn all() -> PartySet
        ensures { (party : ℕ) → party < PARTIES_LIMIT → has_party result party ≡ true }
    {
        PartySet { bits: u64::MAX }
    }

    /// Whether the set has a party.
    #[tactic(auto, using(crate::proofs::PartySetLemmas::has_is))]
    pub fn has(self, party: Party) -> bool
        requires { party < PARTIES_LIMIT }
        ensures { result ≡ has_party self party }
    {
        self.bits >> party & 1 == 1
    }

    /// The set and a party.
    #[tactic(auto, using(crate::proofs::PartySetLemmas::has_with))]
    pub fn with(self, party: Party) -> PartySet
        requires { party < PARTIES_LIMIT }
        ensures { (other : ℕ) → has_party result other
            ≡ (has_party self other || (other == party)) }
    {
        PartySet {
            bits: self.bits | 1 << party,
        }
    }

    /// The set without a party.
    #[tactic(auto, using(crate::proofs::PartySetLemmas::has_without))]
    pub fn without(self, party: Party) -> PartySet
        requires { party < PARTIES_LIMIT }
        ensures { (other : ℕ) → has_party result other
            ≡ (has_party self other && not (other == party)) }
    {
        PartySet {
            bits: self.bits & !(1 << party),
        }
    }

    /// The parties that at least one of two sets has.
    #[tactic(auto, using(crate::proofs::PartySetLemmas::has_or))]
    pub fn or(self, other: PartySet) -> PartySet
        ensures { (party : ℕ) → has_party result party
            ≡ (has_party self party || has_party other party) }
    {
        PartySet {
            bits: self.bits | other.bits,
        }
    }

    /// The parties that both of two sets have.
    #[tactic(auto, using(crate::proofs::PartySetLemmas::has_and))]
    pub fn and(self, other: PartySet) -> PartySet
        ensures { (party : ℕ) → has_party result party
            ≡ (has_party self party && has_party other party) }
    {
        PartySet {
            bits: self.bits & other.bits,
        }
    }

    /// Takes the least party out of the set.
    #[tactic(auto, using(crate::proofs::PartySetLemmas::first_in, crate::proofs::PartySetLemmas::rest_in, crate::proofs::PartySetLemmas::none_in, crate::proofs::PartySetLemmas::empty_has))]
    pub fn pop_first(&mut self) -> Option<Party>
        ensures list { MatchOption result ((parties_in self.old ≡ []) × (self.new ≡ self.old))
            (λ party. parties_in self.old ≡ party ∷ parties_in self.new) }
        ensures sets { MatchOption result ((party : ℕ) → has_party self.old party ≡ false)
            (λ party. (party < PARTIES_LIMIT) × (has_party self.old party ≡ true)
            × ((other : ℕ) → has_party self.new other
            ≡ (has_party self.old other && not (other == party)))) }
    {
        if self.bits == 0 {
            return None;
        }
        let party = self.bits.trailing_zeros();
        *self = self.without(party);
        Some(party)
    }

    /// How many parties the set has.
    pub fn len(self) -> usize
        ensures { result ≡ length (parties_in self) }
    {
        let mut rest = self;
        let mut count = 0;
        while rest.pop_first().is_some() {
            count += 1;
        }
        count
    }

    /// The parties of the set, ascending.
    pub fn to_reach(self) -> Reach
        ensures { result ≡ parties_in self }
    {
        let mut found: ArrayVec<Party, PARTIES_LIMIT> = ArrayVec::new();
        let mut rest = self;
        while let Some(party) = rest.pop_first() {
            found.push(party);
        }
        Reach::new(found)
    }
}
