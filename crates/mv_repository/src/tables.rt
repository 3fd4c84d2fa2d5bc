//! The tables that a repository keeps of its log, and what one more entry does to them.

ghost use Rattle.std.specs.Prelude.{◌≡◌, ◌+◌};
ghost use Rattle.mv_repository.specs.Clauses.{AnEntry, AreTablesOf, IfOk, List, OnErr, OnOk, counts_of, entry_at, is_stop, length, newest_effect, take, true};

use crate::entry::{comes_first, message_at, passes};
use crate::shelf::Shelf;
use crate::state::Newest;
use crate::stops::{Stop, Stops};
use crate::{Effect, LogEntry};
use indexmap::IndexMap;
use mv_message::Message;
use mv_pack::{Gtin, PackKey};
use std::alloc::{AllocError, Global};

/// What is found in a log without a search.
#[derive(Drop)]
pub struct Tables {
    /// What memory is got from.
    pub(crate) alloc: Global,
    /// For each product code with a master, the place in the log of the last one by stamp.
    pub(crate) masters: IndexMap<Gtin, u32>,
    /// The first recalls and withdrawals.
    pub(crate) stops: Stops,
    /// What is kept of the packs of each product.
    pub(crate) shelves: IndexMap<Gtin, Shelf>,
}

impl Tables {
    /// How many packs are held, and how many of these are active, each counted once.
    pub fn count(&self) -> (usize, usize)
        ensures { (log : List AnEntry) → AreTablesOf log self.now → result ≡ ((counts_of log).packs, (counts_of log).active) }
    {
        let (mut held, mut active) = (0usize, 0usize);
        for (_, shelf) in self.shelves.iter() {
            let counts = shelf.count();
            held = held.saturating_add(counts.0);
            active = active.saturating_add(counts.1);
        }
        (held, active)
    }

    /// Adds the newest entry of a log, and gives its effect where it stands. Where memory is refused the tables are still
    /// those of the log before it.
    pub fn add(&mut self, log: &[LogEntry], place: u32) -> Result<Effect, AllocError>
        requires last { length log.now ≡ place + 1 }
        requires tables { AreTablesOf (take place log.now) self.old }
        ensures ok { OnOk result (AreTablesOf log.now self.new) }
        ensures effect { IfOk result (λ effect. effect ≡ newest_effect log.now place) }
        ensures err { OnErr result (AreTablesOf (take place log.now) self.new) }
    {
        let Some(message) = message_at(log, place as usize) else {
            return Ok(Effect::Noted);
        };
        let newest = Newest {
            log,
            stops: &self.stops,
            place,
        };
        match message {
            Message::Master { gtin, .. } => {
                let last = self.masters.get(gtin).copied();
                if matches!(last, Some(last) if passes(log, place, last)) {
                    return Ok(Effect::Done);
                }
                match self.masters.insert(*gtin, place) {
                    Ok(_) => Ok(Effect::Done),
                    Err(_) => Err(AllocError),
                }
            }
            Message::Upload { gtin, .. }
            | Message::Status {
                key: PackKey { gtin, .. },
                ..
            } => {
                let Ok(shelf) = self.shelves.entry(*gtin) else {
                    return Err(AllocError);
                };
                let shelf = shelf.or_insert(Shelf::new(self.alloc));
                shelf.add(&newest, gtin, message)
            }
            Message::Recall { key, .. } => self.add_stop(log, &Stop::OfBatch(key), place),
            Message::Withdraw { gtin, .. } => self.add_stop(log, &Stop::OfProduct(gtin), place),
            _ => Ok(Effect::Noted),
        }
    }

    /// Adds the newest entry, which stops packs for ever. The first such by stamp bears on packs; any other bears on none.
    fn add_stop(
        &mut self,
        log: &[LogEntry],
        stop: &Stop<'_>,
        place: u32,
    ) -> Result<Effect, AllocError>
        requires last { length log.now ≡ place + 1 }
        requires stop { is_stop stop.now (entry_at log.now place).entry.item ≡ true }
        requires tables { AreTablesOf (take place log.now) self.old }
        ensures ok { OnOk result (AreTablesOf log.now self.new) }
        ensures effect { IfOk result (λ effect. effect ≡ newest_effect log.now place) }
        ensures err { OnErr result (AreTablesOf (take place log.now) self.new) }
    {
        let first = match *stop {
            Stop::OfBatch(key) => self.stops.recalls.get(key).copied(),
            Stop::OfProduct(gtin) => self.stops.withdrawals.get(gtin).copied(),
        };
        if !comes_first(log, place, first) {
            return Ok(Effect::Noted);
        }
        let is_kept = match *stop {
            Stop::OfBatch(key) => self.stops.recalls.insert(key.copy(), place).is_ok(),
            Stop::OfProduct(gtin) => self.stops.withdrawals.insert(*gtin, place).is_ok(),
        };
        if !is_kept {
            return Err(AllocError);
        }
        let Some(shelf) = self.shelves.get_mut(stop.gtin()) else {
            return Ok(Effect::Done);
        };
        let newest = Newest {
            log,
            stops: &self.stops,
            place,
        };
        shelf.refresh(&newest, stop);
        Ok(Effect::Done)
    }
}
