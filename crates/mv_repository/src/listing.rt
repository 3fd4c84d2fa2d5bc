//! For each batch of a product the numbers of the tracks that may be of it: what a recall has to look at.

ghost use Rattle.std.specs.Prelude.{◌≡◌, ◌==◌, ◌||◌};
ghost use Rattle.mv_repository.specs.Clauses.{IfSome, List, list_any, listing_of, lists, option_and_then, true, ℕ, entry_at, made_batch};

use crate::LogEntry;
use crate::entry::message_at;
use indexmap::{IndexMap, IndexSet};
use mv_message::Message;
use mv_pack::Batch;
use std::alloc::Global;
use std::marker::Model;

/// Numbers, each at most twice.
#[derive(Drop)]
pub(crate) struct Numbers {
    /// Those that were greater than all before them.
    pub ascending: Vec<u32>,
    /// The others, each once.
    pub others: IndexSet<u32>,
}

impl Model for Numbers {
    ghost use Rattle.std.specs.Prelude.{List, ℕ, ◌++◌};

    ghost Value = { List ℕ };

    ghost view = { λ n. n.ascending.items ++ n.others.keys };
}

impl Numbers {
    /// Puts a number among the others; whether there was memory for it.
    fn insert(&mut self, number: u32) -> bool
        ensures { result ≡ true → (other : ℕ) → list_any (λ one. other == one) self.new ≡ ((other == number) || list_any (λ one. other == one) self.old) }
    {
        match self.ascending.as_slice().last() {
            Some(last) if *last >= number => self.others.insert(number).is_ok(),
            _ => self.ascending.push(number).is_ok(),
        }
    }
}

/// The numbers of tracks by batch. Too many are right, and cost time alone. Where memory was refused for one, any track may be of any
/// batch.
#[derive(Drop)]
pub(crate) struct Listing {
    /// What memory is got from.
    pub alloc: Global,
    /// For each batch that has tracks, their numbers.
    pub batches: IndexMap<Batch, Numbers>,
    /// Whether no number is left out.
    pub is_whole: bool,
}

impl Listing {
    /// Lists a track under the batch of the upload at a place, if there is one. Where memory is refused for it, the listing is not
    /// whole any more.
    pub fn note(&mut self, log: &[LogEntry], birth: Option<u32>, number: u32)
        ensures added { IfSome (option_and_then (λ place. made_batch (entry_at log.now place)) birth) (λ batch. lists (listing_of self.new) batch number ≡ true) }
        ensures kept { (batch : List ℕ) (other : ℕ) → lists (listing_of self.old) batch other ≡ true → lists (listing_of self.new) batch other ≡ true }
    {
        let Some(birth) = birth else {
            return;
        };
        let Some(Message::Upload { batch, .. }) = message_at(log, birth as usize) else {
            return;
        };
        let Ok(numbers) = self.batches.entry(batch.copy()) else {
            self.is_whole = false;
            return;
        };
        let none = Numbers {
            ascending: Vec::new(self.alloc),
            others: IndexSet::new(self.alloc),
        };
        self.is_whole &= numbers.or_insert(none).insert(number);
    }
}
