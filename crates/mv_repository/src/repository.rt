//! A national repository: its log, the tables of it, and what it knows of its own queries.

ghost use Rattle.std.specs.Prelude.{◌≡◌};
ghost use Rattle.mv_repository.specs.Clauses.{IfOk, OnErr, OnOk, [], answer_after, answer_to, counts_of, effect_of, found_of, history_of, is_recalled, is_withdrawn, items_from, joint_verdict, local_verdict, new_repository, option_copied, pack_state, product_of, recalled_batches, serials_of, kept_of, life_of, with_applied, withdrawn_products};

use crate::entry::message_at;
use crate::history::Places;
use crate::inquiries::Inquiries;
use crate::state::held_at;
use crate::stops::Stops;
use crate::tables::Tables;
use crate::verdict::{found_active, found_explained, verdict_when};
use crate::{Effect, FromSender, Held, History, Joint, Local, LogEntry, ProductSerials};
use indexmap::IndexMap;
use mv_link::Item;
use mv_message::{Found, Message, Party, Product, Shared};
use mv_pack::{BatchKey, Gtin, PackKey};
use std::alloc::{AllocError, Global};
use std::marker::Model;

/// How much a repository has, each thing counted once.
#[derive(Clone, Copy, PartialEq, Eq)]
pub struct Counts {
    /// The entries of the log.
    pub entries: usize,
    /// The product codes with a master.
    pub products: usize,
    /// The packs that are held.
    pub packs: usize,
    /// Those of them that are active.
    pub active: usize,
    /// The batches that were recalled.
    pub recalled: usize,
}

/// A national repository, seen as its party and its log. No reader but `from_sender` walks the log: the others go by tables.
pub struct Repository {
    /// What memory is got from.
    alloc: Global,
    /// Whose repository it is.
    party: Party,
    /// What was applied, the oldest entry first.
    log: Vec<LogEntry>,
    /// What is found in the log without a search.
    tables: Tables,
    /// What is known of the queries of its own party.
    inquiries: Inquiries,
}

// Written here, so that the crates above prove nothing of how its tables are dropped.
impl Drop for Repository {
    fn drop(self) {
        let Self {
            alloc: _,
            party: _,
            log: _,
            tables,
            inquiries,
        } = self;
        drop(tables.masters);
        drop(tables.shelves);
        drop(tables.stops.recalls);
        drop(tables.stops.withdrawals);
        drop(inquiries.inquiries);
    }
}

impl Model for Repository {
    ghost use Rattle.mv_repository.specs.Clauses.{AreTablesOf, IsInquiriesOf, RepositoryState};

    ghost Value = { RepositoryState };

    ghost view = { λ a. record { party = a.party; log = a.log.items } };

    ghost invariant = { λ a. AreTablesOf a.log.items a.tables × IsInquiriesOf a.party a.log.items a.inquiries };
}

impl Repository {
    /// The repository of a party, which applied nothing. It takes no memory.
    pub fn new(alloc: Global, party: Party) -> Repository
        ensures { result ≡ new_repository party }
    {
        Repository {
            alloc,
            party,
            log: Vec::new(alloc),
            tables: Tables {
                alloc,
                masters: IndexMap::new(alloc),
                stops: Stops {
                    recalls: IndexMap::new(alloc),
                    withdrawals: IndexMap::new(alloc),
                },
                shelves: IndexMap::new(alloc),
            },
            inquiries: Inquiries {
                inquiries: IndexMap::new(alloc),
            },
        }
    }

    /// Whose repository it is.
    pub fn party(&self) -> Party
        ensures { result ≡ self.now.party }
    {
        self.party
    }

    /// What was applied, the oldest entry first.
    pub fn log(&self) -> &[LogEntry]
        ensures { result.now ≡ self.now.log }
    {
        self.log.as_slice()
    }

    /// The items that came from a party, in order.
    pub fn from_sender(&self, sender: Party) -> FromSender<'_>
        ensures { result ≡ items_from self.now.log sender }
    {
        FromSender {
            entries: self.log(),
            sender,
        }
    }

    /// The product that is known under a code: that of its master with the greatest stamp.
    pub fn product(&self, gtin: &Gtin) -> Option<&Product>
        ensures { option_copied result ≡ product_of self.now.log gtin.now }
    {
        let place = *self.tables.masters.get(gtin)?;
        match message_at(self.log.as_slice(), place as usize) {
            Some(Message::Master { product, .. }) => Some(product.get()),
            _ => None,
        }
    }

    /// What is kept of a pack: its first upload, its statuses in the order of stamps, and the entry by which it stands.
    fn kept(&self, key: &PackKey) -> (Option<u32>, &[u32], u32)
        ensures { record { birth = result.0; statuses = result.1.now; by = result.2; blocks = [] } ≡ kept_of (life_of key.now self.now.log) }
    {
        match self.tables.shelves.get(&key.gtin) {
            Some(shelf) => shelf.kept(shelf.find(self.log.as_slice(), &key.serial).slot),
            None => (None, &[], 0),
        }
    }

    /// What a pack is; none where no upload names it.
    #[tactic(auto, using(crate::proofs::CountedLemmas::track_state))]
    pub fn pack(&self, key: &PackKey) -> Option<Held>
        ensures { result ≡ pack_state key.now self.now.log }
    {
        let (birth, _, by) = self.kept(key);
        match birth {
            Some(birth) => held_at(self.log.as_slice(), birth, by),
            None => None,
        }
    }

    /// What decides a pack: its first upload, its statuses, and the first recall of its batch and withdrawal of its product.
    pub fn history(&self, key: &PackKey) -> History<'_>
        ensures { result ≡ history_of key.now self.now.log }
    {
        let stops = &self.tables.stops;
        let (upload, statuses, _) = self.kept(key);
        let recall = match self.pack(key) {
            Some(held) => {
                let (gtin, batch) = (key.gtin, held.batch);
                stops.recalls.get(&BatchKey { gtin, batch }).copied()
            }
            None => None,
        };
        let places = Places {
            log: self.log.as_slice(),
            upload,
            statuses,
            recall,
            withdrawal: stops.withdrawals.get(&key.gtin).copied(),
        };
        History { places }
    }

    /// The serial numbers of a product that uploads and statuses name, each once, in the order in which each came first.
    /// One that only statuses name is no pack yet: `pack` gives none.
    pub fn serials(&self, gtin: &Gtin) -> ProductSerials<'_>
        ensures { result ≡ serials_of self.now.log gtin.now }
    {
        match self.tables.shelves.get(gtin) {
            Some(shelf) => ProductSerials {
                log: self.log.as_slice(),
                names: shelf.names.as_slice(),
                slots: shelf.slots.as_slice(),
            },
            None => ProductSerials {
                log: &[],
                names: &[],
                slots: &[],
            },
        }
    }

    /// Whether a batch is recalled.
    pub fn recalled(&self, batch: &BatchKey) -> bool
        ensures { result ≡ is_recalled batch.now self.now.log }
    {
        self.tables.stops.recalls.contains_key(batch)
    }

    /// Whether a product is withdrawn.
    pub fn withdrawn(&self, gtin: &Gtin) -> bool
        ensures { result ≡ is_withdrawn gtin.now self.now.log }
    {
        self.tables.stops.withdrawals.contains_key(gtin)
    }

    /// The batches that are recalled, each once, in the order in which the first recall of each came.
    pub fn recalled_batches(&self) -> &[BatchKey]
        ensures { result.now ≡ recalled_batches self.now.log }
    {
        self.tables.stops.recalls.keys().as_slice()
    }

    /// The products that are withdrawn, each once, in the order in which the first withdrawal of each came.
    pub fn withdrawn_products(&self) -> &[Gtin]
        ensures { result.now ≡ withdrawn_products self.now.log }
    {
        self.tables.stops.withdrawals.keys().as_slice()
    }

    /// How much the repository has, each thing counted once. It goes through the table of packs.
    pub fn counts(&self) -> Counts
        ensures { result ≡ counts_of self.now.log }
    {
        let (packs, active) = self.tables.count();
        Counts {
            entries: self.log.len(),
            products: self.tables.masters.len(),
            packs,
            active,
            recalled: self.tables.stops.recalls.len(),
        }
    }

    /// What is found of a pack.
    fn found(&self, key: &PackKey) -> Found
        ensures { result ≡ found_of key.now self.now.log }
    {
        let Some(held) = self.pack(key) else {
            return Found::Absent;
        };
        let (gtin, batch) = (key.gtin, held.batch);
        let batch = BatchKey { gtin, batch };
        Found::Present {
            recalled: self.recalled(&batch),
            withdrawn: self.withdrawn(&key.gtin),
            batch: batch.batch,
            expiry: held.expiry,
            national: held.national,
            standing: held.standing,
        }
    }

    /// The verdict on a pack, where it is held.
    pub fn verify(&self, key: &PackKey) -> Local
        ensures { result ≡ local_verdict key.now self.now.log }
    {
        match self.found(key) {
            Found::Absent => Local::Absent,
            found => Local::Known(verdict_when(found_active(&found), found_explained(&found))),
        }
    }

    /// The verdict of all that were asked, on the query that was the `q`-th message of the repository's own party.
    pub fn verdict(&self, q: u32) -> Joint
        ensures { result ≡ joint_verdict self.now.party self.now.log q }
    {
        self.inquiries.verdict(q)
    }

    /// The answer that an item from a party calls for, by what is held now; only a query calls for one. Nothing changes.
    pub fn answer(&self, sender: Party, item: &Item) -> Option<Message>
        ensures { result ≡ answer_after self.now.log sender item.now }
    {
        let Item::Carried { k, message, .. } = item else {
            return None;
        };
        let Message::Query { key } = message.get() else {
            return None;
        };
        Some(Message::Answer {
            asker: sender,
            q: *k,
            key: key.copy(),
            found: self.found(key),
        })
    }

    /// Applies an item that came from a party: says what that did, at the item's own place in the order of stamps, and
    /// gives the answer that it calls for, where it is a query. Refused as [`Repository::enter`] is.
    pub fn apply(
        &mut self,
        sender: Party,
        item: &Item,
    ) -> Result<(Effect, Option<Shared<Message>>), AllocError>
        ensures ok { OnOk result (self.new ≡ with_applied self.old sender item.now) }
        ensures effect { IfOk result (λ done. done.0 ≡ effect_of self.old.log (record { sender = sender; item = item.now })) }
        ensures answer { IfOk result (λ done. done.1 ≡ answer_to self.old.log (record { sender = sender; item = item.now })) }
        ensures err { OnErr result (self.new ≡ self.old) }
    {
        let answer = match self.answer(sender, item) {
            Some(answer) => Some(Shared::new(self.alloc, answer)?),
            None => None,
        };
        let effect = self.enter(sender, item)?;
        Ok((effect, answer))
    }

    /// Applies an item that came from a party, and says what that did, at the item's own place in the order of stamps. The answer that
    /// it calls for is what [`Repository::answer`] told before. Want of memory leaves all as it was. An upload of more than 2^16 serial
    /// numbers is refused so too; no line names so many.
    pub fn enter(&mut self, sender: Party, item: &Item) -> Result<Effect, AllocError>
        ensures ok { OnOk result (self.new ≡ with_applied self.old sender item.now) }
        ensures effect { IfOk result (λ effect. effect ≡ effect_of self.old.log (record { sender = sender; item = item.now })) }
        ensures err { OnErr result (self.new ≡ self.old) }
    {
        let place = self.log.len();
        let room = self.inquiries.reserve().and(self.log.reserve(1));
        if place > u32::MAX as usize || room.is_err() {
            return Err(AllocError);
        }
        let Ok(copy) = item.copy() else {
            return Err(AllocError);
        };
        self.log.push_reserved(LogEntry { sender, item: copy });
        match self.tables.add(self.log.as_slice(), place as u32) {
            Ok(effect) => {
                self.inquiries.note(self.party, sender, item);
                Ok(effect)
            }
            Err(refused) => {
                self.log.truncate(place);
                Err(refused)
            }
        }
    }
}
