//! The parties and the markets that each serves, and the party of each market: it is found by the
//! place of the market, with no search and no memory.

ghost use Rattle.std.specs.Prelude.{◌≡◌, ◌≤◌, ◌&&◌, ◌==◌, ℕ, List, true, false, map, length, nat_lt, MatchOption};
ghost use Rattle.mv_hub.specs.Fault.{Gives};
ghost use Rattle.mv_hub.specs.Parties.{all_markets, has_market, has_twice, parties_of, serving, serves_one, served_by};
ghost use Rattle.mv_link.specs.PartySets.{has_party};
ghost use Rattle.mv_hub.specs.inside.Kept.{AreNoted, is_found};

use crate::HubFault;
use mv_link::{PARTIES_LIMIT, PartySet, Reach};
use mv_message::{Markets, Party};
use mv_pack::{MARKETS_LIMIT, Market};
use std::alloc::{AllocError, Global};
use std::marker::Model;

/// The parties, 1 to 64 of them, and the markets that each serves. No market is served twice.
#[derive(Drop)]
pub struct Parties {
    /// The markets of each party, party 0 first.
    lists: Vec<Markets>,
    /// The party of each market that is served.
    table: MarketTable,
}

impl Model for Parties {
    ghost use Rattle.std.specs.Prelude.{ℕ, List, length, true, ◌≤◌};
    ghost use Rattle.mv_link.specs.declared.limits.TheConstants.{PARTIES_LIMIT};
    ghost use Rattle.mv_hub.specs.inside.Kept.{AreNoted};

    ghost Value = { List (List (List ℕ)) };

    ghost view = { λ p. p.lists.items };

    ghost invariant = { λ p. (1 ≤ length p.lists.items) × (length p.lists.items ≤ PARTIES_LIMIT)
        × AreNoted p.lists.items p.table.noted true };
}

impl Parties {
    /// Party i serves the i-th list, from 0; a list may be empty.
    ///
    /// The first of these that holds is the fault: H1, there is no list; H2, there are more than 64; H3, a market stands
    /// twice, in one list or in two; H7, memory was refused.
    pub fn new(alloc: Global, lists: Vec<Vec<Market>>) -> Result<Parties, HubFault>
        ensures { Gives result (parties_of (map (λ list. list.items) lists.items)) }
    {
        if lists.is_empty() {
            return Err(HubFault::NoParty);
        }
        if lists.len() > PARTIES_LIMIT {
            return Err(HubFault::TooMany);
        }
        let Some(table) = MarketTable::of(lists.as_slice()) else {
            return Err(HubFault::ServedTwice);
        };
        let lists = lists.into_iter().map(Markets::new).collect(alloc)?;
        Ok(Parties { lists, table })
    }

    /// How many parties there are.
    pub fn len(&self) -> u32
        ensures value { result ≡ length self.now }
        ensures some { 1 ≤ length self.now }
        ensures few { length self.now ≤ PARTIES_LIMIT }
    {
        self.lists.len() as u32
    }

    /// The markets of each party, party 0 first, as they were given. No market stands there twice.
    pub fn lists(&self) -> &[Markets]
        ensures value { result.now ≡ self.now }
        ensures once { has_twice (all_markets self.now) ≡ false }
    {
        self.lists.as_slice()
    }

    /// The parties that serve one of these markets.
    #[tactic(auto, using(crate::proofs::PartiesLemmas::parties_listed))]
    pub fn serving(&self, markets: &[Market]) -> Reach
        ensures { result ≡ serving self.now markets.now }
    {
        self.servers(markets).to_reach()
    }

    /// The set of the parties that serve one of these markets.
    #[tactic(auto, using(crate::proofs::PartiesLemmas::serves_one_none, crate::proofs::PartiesLemmas::serves_more))]
    pub(crate) fn servers(&self, markets: &[Market]) -> PartySet
        ensures parties { (party : ℕ) → has_party result party ≡ (nat_lt party (length self.now)
            && serves_one (served_by self.now party) markets.now) }
        ensures few { length self.now ≤ PARTIES_LIMIT }
    {
        let mut found = PartySet::none();
        for market in markets {
            if let Some(party) = self.table.party_of(market) {
                found = found.with(party);
            }
        }
        found
    }

    /// The set of this party alone, if there is such a party.
    pub(crate) fn alone(&self, party: Party) -> PartySet
        ensures { (other : ℕ) → has_party result other
            ≡ (nat_lt other (length self.now) && (other == party)) }
    {
        let none = PartySet::none();
        if party >= self.len() {
            return none;
        }
        none.with(party)
    }
}

/// The party that serves each market.
#[derive(Drop)]
struct MarketTable {
    /// At the place of a market one more than the number of its party, 0 where no party serves it.
    noted: [u8; MARKETS_LIMIT],
}

impl MarketTable {
    /// The table of these lists, the markets of party 0 first; none where a market stands twice, in one list or in two.
    fn of(lists: &[Vec<Market>]) -> Option<MarketTable>
        requires { length lists.now ≤ PARTIES_LIMIT }
        ensures { MatchOption result
            (has_twice (all_markets (map (λ list. list.items) lists.now)) ≡ true)
            (λ table. AreNoted (map (λ list. list.items) lists.now) table.noted true) }
    {
        let mut noted = [0; MARKETS_LIMIT];
        let mut once = true;
        for party in 0..lists.len() {
            for market in lists[party].as_slice() {
                let place = market.place();
                once &= noted[place] == 0;
                noted[place] = party as u8 + 1;
            }
        }
        once.then_some(MarketTable { noted })
    }

    /// The party that serves a market, if one does.
    fn party_of(&self, market: &Market) -> Option<Party>
        ensures { (lists : List (List (List ℕ))) (party : ℕ) → AreNoted lists self.now.noted true
            → has_market (served_by lists party) market.now ≡ is_found result party }
    {
        let noted = self.noted[market.place()];
        if noted == 0 {
            return None;
        }
        Some(u32::from(noted) - 1)
    }
}
