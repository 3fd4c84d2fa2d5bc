//! The table of a repository's own queries: for each the parties that it reached, by its first receipt, which have not answered,
//! and what was answered so far.
//!
//! It stands apart since no other table bears on it: it changes at receipts of queries and at answers alone.

ghost use Rattle.std.specs.Prelude.{◌≡◌, ◌∷◌, ◌++◌, ◌<◌};
ghost use Rattle.mv_repository.specs.Clauses.{AnEntry, IsInquiriesOf, List, OnOk, [], has_party, inquiry_after, joint_verdict, query_of, ℕ, map_spare, waits_after};

use crate::Joint;
use crate::verdict::{found_active, found_explained, verdict_when};
use indexmap::IndexMap;
use mv_link::{Item, PARTIES_LIMIT, PartySet, Reached};
use mv_message::{Message, Party};
use std::alloc::AllocError;

/// What is known of a query.
#[derive(Drop)]
pub struct Inquiry {
    /// The parties that the first receipt of it names, once that has come.
    asked: Option<Reached>,
    /// Which parties, of all that can be asked, have not answered it.
    waiting: PartySet,
    /// Whether an answer found the pack active.
    active: bool,
    /// Whether an answer found the pack recalled, withdrawn, or to be destroyed, which explains it.
    explained: bool,
}

/// What a repository knows of the queries of its own party.
#[derive(Drop)]
pub struct Inquiries {
    /// What is known of each query, by its number among the messages of the party.
    pub(crate) inquiries: IndexMap<u32, Inquiry>,
}

impl Inquiries {
    /// Gets room for one more query. Refused for want of memory; either way it is known what was known.
    pub fn reserve(&mut self) -> Result<(), AllocError>
        ensures room { OnOk result (0 < map_spare self.new.inquiries) }
        ensures same { (party : ℕ) (log : List AnEntry) → IsInquiriesOf party log self.old
            → IsInquiriesOf party log self.new }
    {
        self.inquiries.reserve(1)
    }

    /// Notes an item from a sender, which comes last in the log of the party.
    pub fn note(&mut self, party: Party, sender: Party, item: &Item)
        requires { 0 < map_spare self.old.inquiries }
        ensures { (log : List AnEntry) → IsInquiriesOf party log self.old
            → IsInquiriesOf party (log ++ record { sender = sender; item = item.now } ∷ []) self.new }
    {
        let Some(query) = query_of(party, sender, item) else {
            return;
        };
        let Ok(inquiry) = self.inquiries.entry(query) else {
            unreachable!();
        };
        let unknown = Inquiry {
            asked: None,
            waiting: PartySet::all(),
            active: false,
            explained: false,
        };
        inquiry.or_insert(unknown).note(sender, item);
    }

    /// The verdict on the query that was the `q`-th message of the party, by what is kept of its log. It takes no memory.
    pub fn verdict(&self, q: u32) -> Joint
        ensures { (party : ℕ) (log : List AnEntry) → IsInquiriesOf party log self.now
            → result ≡ joint_verdict party log q }
    {
        let Some(inquiry) = self.inquiries.get(&q) else {
            return Joint::NotAsked;
        };
        let Some(asked) = &inquiry.asked else {
            return Joint::NotAsked;
        };
        let left = asked.parties().and(inquiry.waiting).len() as u32;
        if left == 0 {
            Joint::Decided(verdict_when(inquiry.active, inquiry.explained))
        } else {
            Joint::Pending { left }
        }
    }
}

impl Inquiry {
    /// Notes an item from a sender that tells of the query: the first receipt counts, and each answer.
    fn note(&mut self, sender: Party, item: &Item)
        ensures told { self.new ≡ record (inquiry_after item.now self.old) { waiting = self.new.waiting } }
        ensures waiting { (other : ℕ) → other < PARTIES_LIMIT → has_party self.new.waiting other ≡ waits_after sender item.now self.old.waiting other }
    {
        match item {
            Item::Receipt { reach, .. } => {
                self.asked.get_or_insert(reach.copy());
            }
            Item::Carried { message, .. } => {
                if let Message::Answer { found, .. } = message.get() {
                    self.active = self.active || found_active(found);
                    self.explained = self.explained || found_explained(found);
                    if sender < PARTIES_LIMIT as u32 {
                        self.waiting = self.waiting.without(sender);
                    }
                }
            }
        }
    }
}

/// The number of the query of the party that an item from a sender tells of: it is the receipt of one, or an answer to one.
fn query_of(party: Party, sender: Party, item: &Item) -> Option<u32>
    ensures { result ≡ query_of party sender item.now }
{
    match item {
        Item::Receipt { k, query, .. } => (*query && sender == party).then_some(*k),
        Item::Carried { message, .. } => match message.get() {
            Message::Answer { asker, q, .. } => (*asker == party).then_some(*q),
            _ => None,
        },
    }
}
