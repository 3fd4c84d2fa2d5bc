//! The hub: its record, a link for each ordered pair of parties, and which links are open.

ghost use Rattle.std.specs.Prelude.{◌≡◌, ◌<◌, ◌≤◌, length, Contains, IfOk, option_map};
ghost use Rattle.mv_hub.specs.Words.{IsSquare, IsWindow, PARTIES_LIMIT, new_sending, option_copied};
ghost use Rattle.mv_hub.specs.Record.{routed_count, last_markets, is_open};
ghost use Rattle.mv_hub.specs.Catalogue.{catalogue_of};
ghost use Rattle.mv_hub.specs.BatchLinks.{linked_to, IsDescendant, IsAscendingList};
ghost use Rattle.mv_hub.specs.Hub.{new_hub, sent_of, items_on};
ghost use Rattle.mv_hub.specs.inside.Kept.{Carries};

use crate::trail::{AuditTrail, add_all, ascending};
use crate::{Catalogue, Entry, Parties};
use indexmap::{IndexMap, IndexSet};
use mv_link::{Outgoing, PartySet};
use mv_message::Party;
use mv_pack::{BatchKey, Gtin, Market};
use mv_pairs::PairTable;
use std::alloc::{AllocError, Global};
use std::marker::Model;

mod links;
mod routing;

/// The hub: the parties, the record of what it did, and what waits on each link to be relayed.
pub struct Hub {
    /// Where what a routing puts on links gets its memory.
    alloc: Global,
    /// The parties, and the markets that each serves.
    parties: Parties,
    /// How many items each link keeps.
    window: u32,
    /// The record of what was routed and closed.
    trail: AuditTrail,
    /// How many messages of each party were routed, party 0 first.
    routed_counts: Vec<u32>,
    /// The parties to which a link of each party is open, party 0 first.
    open_links: Vec<PartySet>,
    /// The sending end of each link.
    links: PairTable<Outgoing>,
    /// By the code of a product, the parties that serve a market of its last routed master. Where a routing was refused for want of memory it
    /// may have none for a product without a master.
    sold: IndexMap<Gtin, PartySet>,
}

// Written here, so that the crates above prove nothing of how its tables are dropped.
impl Drop for Hub {
    fn drop(self) {
        let Self {
            alloc: _,
            parties: _,
            window: _,
            trail: _,
            routed_counts: _,
            open_links: _,
            links: _,
            sold: _,
        } = self;
    }
}

impl Model for Hub {
    ghost use Rattle.mv_hub.specs.Hub.{HubState};
    ghost use Rattle.mv_hub.specs.inside.Kept.{IsKept, sent_table};

    ghost Value = { HubState };

    ghost view = { λ a. record {
      parties = a.parties;
      window = a.window;
      entries = a.trail;
      sent = sent_table a.links;
    } };

    ghost invariant = { λ a.
        IsKept a.parties a.window a.trail a.routed_counts.items a.open_links.items a.links a.sold.entries };
}

impl Hub {
    /// A hub where nothing has happened, whose links keep their last `window` items. Refused for want of memory.
    pub fn new(alloc: Global, parties: Parties, window: u32) -> Result<Hub, AllocError>
        requires { IsWindow window }
        ensures { IfOk result (λ hub. hub ≡ new_hub parties window) }
    {
        let count = parties.len();
        let routed_counts = vec![in alloc; 0; count as usize]?;
        let open_links = vec![in alloc; PartySet::all(); count as usize]?;
        let links = PairTable::from_fn(
            alloc,
            count,
            || -> Result<Outgoing, AllocError>
                requires { IsWindow window }
                ensures { IfOk result (λ link. link ≡ new_sending window) }
            { Outgoing::new(alloc, window) },
        )?;
        Ok(Hub {
            alloc,
            parties,
            window,
            trail: AuditTrail::new(alloc),
            routed_counts,
            open_links,
            links,
            sold: IndexMap::new(alloc),
        })
    }

    /// The parties. For each ordered pair of them the hub counts what it relayed.
    pub fn parties(&self) -> &Parties
        ensures value { result.now ≡ self.now.parties }
        ensures some { 1 ≤ length self.now.parties }
        ensures few { length self.now.parties ≤ PARTIES_LIMIT }
        ensures pairs { IsSquare (length self.now.parties) self.now.sent }
    {
        &self.parties
    }

    /// The record, the oldest entry first.
    pub fn record(&self) -> &[Entry]
        ensures { result.now ≡ self.now.entries }
    {
        self.trail.entries()
    }

    /// How many messages of a party were routed.
    #[tactic(auto, using(crate::proofs::HubLemmas::routed_count_most))]
    pub fn routed_count(&self, from: Party) -> u32
        requires { from < length self.now.parties }
        ensures value { result ≡ routed_count self.now.entries from }
        ensures most { routed_count self.now.entries from ≤ length self.now.entries }
    {
        self.routed_counts[from as usize]
    }

    /// The sending end of a link, on which there was pushed what the record puts on the link.
    fn link(&self, from: Party, to: Party) -> &Outgoing
        requires from { from < length self.now.parties }
        requires to { to < length self.now.parties }
        ensures carries { Carries self.now.window (items_on self.now from to) result.now }
        ensures sent { result.now.sent ≡ sent_of self.now from to }
    {
        self.links.at(from, to)
    }

    /// Whether the link from one party to another is open: it was not closed.
    pub fn is_open(&self, from: Party, to: Party) -> bool
        requires from { from < length self.now.parties }
        requires to { to < length self.now.parties }
        ensures { result ≡ is_open self.now.entries from to }
    {
        self.open_links[from as usize].has(to)
    }

    /// The markets that the last routed master of a product names, `None` where no master of it was routed.
    pub fn markets(&self, gtin: &Gtin) -> Option<&[Market]>
        ensures { option_map (λ markets. markets.now) result
            ≡ last_markets self.now.entries gtin.now }
    {
        let product = self.catalogue(gtin)?.product.get()?;
        Some(product.markets.as_slice())
    }

    /// What the record says of a product: the product of its last routed master, and the distinct pairs of batch and expiry of
    /// all its routed uploads, in the order of their first routing. `None` where it has neither.
    pub fn catalogue(&self, gtin: &Gtin) -> Option<&Catalogue>
        ensures { option_copied result ≡ catalogue_of self.now.entries gtin.now }
    {
        self.trail.catalogue(gtin)
    }

    /// The batches that are linked to a batch: the batches after, over all routed repacks whose batch before it is, ascending
    /// and each once. Refused for want of memory.
    pub fn linked(&self, batch: &BatchKey) -> Result<Vec<BatchKey>, AllocError>
        ensures { IfOk result (λ list.
            IsAscendingList list.items (Contains (linked_to self.now.entries batch.now))) }
    {
        ascending(self.alloc, self.trail.links_of(batch))
    }

    /// The batches that descend from a batch: those to which a chain of one or more links leads from it, ascending and each
    /// once. The batch itself is among them only where a chain comes back to it. Refused for want of memory.
    #[tactic(auto, using(crate::proofs::TrailLemmas::searching_start, crate::proofs::TrailLemmas::searching_more))]
    pub fn descendants(&self, batch: &BatchKey) -> Result<Vec<BatchKey>, AllocError>
        ensures { IfOk result (λ list.
            IsAscendingList list.items (IsDescendant self.now.entries batch.now)) }
    {
        let mut reached = IndexSet::new(self.alloc);
        add_all(&mut reached, self.trail.links_of(batch))?;
        // Each is looked at once, in the order in which it was reached.
        let mut next = 0usize;
        while next < reached.len() {
            let links = self.trail.links_of(&reached.as_slice()[next]);
            add_all(&mut reached, links)?;
            next += 1;
        }
        ascending(self.alloc, reached.as_slice())
    }
}
